ghost use Rattle.std.specs.Prelude.{◌≡◌, ◌+◌, ◌<◌, ◌≤◌, All};
ghost use Rattle.timer_queue.specs.declared.tests.TheConstants.{ROOM};

use crate::queue::TimerQueue;
use crate::steps::{Steps, Tally};
use std::alloc::Global;
use std::marker::Brand;
use std::process::Abort;
use std::sync::ledger::{Blank, Ledger};
use std::test::Fail;

// room for so many waits
const ROOM: u32 = 8;

// A queue whose waits have one number as operation and as serial, and expire one later.
#[derive(Drop)]
struct Rising {
    queue: TimerQueue,
    next: u32,
    ghost kept: { All (λ wait. (wait.serial < next) × (wait.op < next)) queue.waits },
    ghost room: { ROOM ≤ queue.spare + next },
}

impl Rising {
    fn insert(&mut self, rt: &impl Abort) {
        let number = self.next;
        assert!(rt; number < ROOM);
        self.queue
            .insert_reserved(number as u64 + 1, number, number);
        self.next = number + 1;
    }
}

// A counter that can be read.
#[derive(Drop)]
struct Ticks<L: Ledger> {
    steps: Steps<L>,
    seen: u32,
}

impl<L: Ledger> Tally for Ticks<L> {
    ghost count = { λ ticks. ticks.steps };

    fn tick(&mut self) {
        self.steps.tick();
        self.seen = self.seen.wrapping_add(1);
    }
}

// A queue with waits that expire at 1, 2 and so on, accepted in that order.
fn filled(rt: &impl Abort, alloc: Global, waits: u32) -> Result<TimerQueue, Fail> {
    let queue = TimerQueue::with_room(alloc, ROOM).ok().ok_or("no memory")?;
    let mut rising = Rising { queue, next: 0 };
    for _ in 0..waits {
        rising.insert(rt);
    }
    let Rising { queue, next: _ } = rising;
    Ok(queue)
}

// The wait at the end of the heap goes to its top at each pop, and down from there: on each level
// two comparisons, or one where there is only one child.
fn pops_compare<L: Ledger, R: Abort>(rt: &R, queue: TimerQueue, blank: Blank) -> Result<(), Fail>
    requires name { blank.name ≡ L.name }
    requires parts { blank.parts ≡ L.parts }
    requires counts { 0 < blank.parts }
{
    let mut queue = queue;
    let mut ticks = Ticks {
        steps: Steps::<L>::start(blank),
        seen: 0,
    };
    let mut seen = 0;
    for (now, compared) in [
        (0, 0),
        (7, 4),
        (7, 2),
        (7, 3),
        (7, 2),
        (7, 1),
        (7, 0),
        (7, 0),
        (7, 0),
    ] {
        queue.pop_counted(now, &mut ticks);
        assert_eq!(rt; ticks.seen.wrapping_sub(seen), compared, "a pop at {now}");
        seen = ticks.seen;
    }
    Ok(())
}

#[test]
fn each_comparison_of_a_pop_is_counted(rt: HostRuntime) -> Result<(), Fail> {
    let queue = filled(&rt, rt.alloc(), 7)?;
    pops_compare::<Brand, _>(&rt, queue, Blank::new(1))
}
