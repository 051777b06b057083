ghost use Rattle.std.specs.Prelude.{◌≡◌, ◌<◌, ◌+◌, All, IfNone, IfSome};
ghost use Rattle.timer_queue.specs.Queue.{TakesFirst};

use asio_types::OpNo;
use std::sync::ledger::{Blank, Ledger};
use timer_queue::{Steps, TimerQueue};

/// Takes the wait out that comes first, if it is due. Its comparisons are not counted.
pub(crate) fn pop_due<L: Ledger>(queue: &mut TimerQueue, now: u64, blank: Blank) -> Option<OpNo>
    requires name { blank.name ≡ L.name }
    requires parts { blank.parts ≡ L.parts }
    requires counts { 0 < blank.parts }
    ensures first { IfSome result (λ op. TakesFirst now op queue.old.waits queue.new.waits) }
    ensures room { IfSome result (λ _. queue.new.spare ≡ queue.old.spare + 1) }
    ensures none { IfNone result (All (λ wait. now < wait.expiry) queue.old.waits) }
    ensures unchanged { IfNone result (queue.new ≡ queue.old) }
{
    let mut steps = Steps::<L>::start(blank);
    queue.pop_due(now, &mut steps)
}
