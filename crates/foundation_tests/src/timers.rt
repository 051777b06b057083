//! The order in which waits leave the queue.

ghost use Rattle.std.specs.Prelude.{◌≡◌, ◌+◌, ◌<◌, ◌≤◌, All};
ghost use Rattle.foundation_tests.specs.declared.timers.TheConstants.{ROOM, FIRST};

use asio_types::{NoMemory, OpNo};
use std::alloc::Global;
use std::marker::Brand;
use std::process::Abort;
use std::sync::ledger::{Blank, Ledger};
use timer_queue::{Steps, TimerQueue};

// room for so many waits
const ROOM: u32 = 8;

// the operation of the first wait
const FIRST: OpNo = 12;

// What is asked of the queue, and what it answers.
#[derive(Clone, Copy)]
enum Step {
    Insert(u64),
    Remove(OpNo, bool),
    Pop(u64, Option<OpNo>),
    Next(Option<u64>),
}

// A queue whose operations fall while serials rise; the first ones are not below its room.
#[derive(Drop)]
struct Numbered {
    queue: TimerQueue,
    next: u32,
    ghost kept: { All (λ wait. (wait.serial < next) × (wait.op + wait.serial ≡ FIRST)) queue.waits },
    ghost room: { ROOM ≤ queue.spare + next },
    ghost few: { next ≤ ROOM },
}

impl Numbered {
    fn insert(&mut self, expiry: u64) -> bool {
        let serial = self.next;
        if serial >= ROOM {
            return false;
        }
        self.queue.insert_reserved(expiry, serial, FIRST - serial);
        self.next = serial + 1;
        true
    }

    fn remove(&mut self, op: OpNo) -> bool {
        self.queue.remove(op)
    }

    fn pop_due<L: Ledger>(&mut self, now: u64, steps: &mut Steps<L>) -> Option<OpNo> {
        self.queue.pop_due(now, steps)
    }
}

// Whether the queue answers so.
fn is_so<L: Ledger>(waits: &mut Numbered, step: Step, steps: &mut Steps<L>) -> bool {
    match step {
        Step::Insert(expiry) => waits.insert(expiry),
        Step::Remove(op, there) => waits.remove(op) == there,
        Step::Pop(now, op) => waits.pop_due(now, steps) == op,
        Step::Next(expiry) => waits.queue.next_expiry() == expiry,
    }
}

fn play_all<L: Ledger, R: Abort>(rt: &R, alloc: Global, blank: Blank) -> Result<(), NoMemory>
    requires name { blank.name ≡ L.name }
    requires parts { blank.parts ≡ L.parts }
    requires counts { 0 < blank.parts }
{
    let mut steps = Steps::<L>::start(blank);
    let queue = TimerQueue::with_room(alloc, ROOM)?;
    let mut waits = Numbered { queue, next: 0 };
    for (at, step) in STEPS.iter().enumerate() {
        assert!(rt; is_so(&mut waits, *step, &mut steps), "at step {at}");
    }
    Ok(())
}

const STEPS: &[Step] = &[
    Step::Pop(9, None),
    Step::Insert(50),
    Step::Insert(20),
    Step::Insert(20),
    Step::Pop(19, None),
    Step::Insert(10),
    Step::Next(Some(10)),
    Step::Pop(20, Some(9)),
    Step::Pop(20, Some(11)),
    Step::Remove(10, true),
    Step::Remove(10, false),
    Step::Pop(49, None),
    Step::Insert(70),
    Step::Insert(30),
    Step::Insert(30),
    Step::Insert(30),
    Step::Remove(6, true),
    Step::Remove(6, false),
    Step::Next(Some(30)),
    Step::Pop(30, Some(7)),
    Step::Pop(50, Some(5)),
    Step::Pop(50, Some(12)),
    Step::Pop(99, Some(8)),
    Step::Next(None),
];

#[test]
fn waits_leave_by_expiry_and_then_by_acceptance(rt: HostRuntime) -> Result<(), NoMemory> {
    play_all::<Brand, _>(&rt, rt.alloc(), Blank::new(1))
}
