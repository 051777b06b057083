ghost use Rattle.std.specs.Prelude.{◌≡◌, ◌↔◌, IsTrue};
ghost use Rattle.order_questions.specs.Condition.{HappensFrom, Meets, StandsBefore, begin_of, end_of};

use crate::sign::Sign;
use asio_types::{Code, Event, OpNo};

/// What is asked of a history.
#[derive(Clone, Copy, Debug, PartialEq, Eq)]
pub enum Condition {
    /// An event shows this.
    Happens(Sign),
    /// An event that shows the first stands before one that shows the second.
    Before(Sign, Sign),
    /// Both handlers run at once: each begins before the other ends.
    Overlap(OpNo, OpNo),
}

/// Whether an event from this place on shows this.
fn happens_from(shown: Sign, events: &[Event], from: usize) -> bool
    ensures { IsTrue result ↔ HappensFrom shown events.now from }
{
    for at in from..events.len() {
        if shown.is_shown_by(events[at]) {
            return true;
        }
    }
    false
}

/// Whether an event that shows the first stands before one that shows the second.
fn stands_before(first: Sign, second: Sign, events: &[Event]) -> bool
    ensures { IsTrue result ↔ StandsBefore first second events.now }
{
    for at in 0..events.len() {
        if first.is_shown_by(events[at]) && happens_from(second, events, at + 1) {
            return true;
        }
    }
    false
}

/// That a handler begins, with any code.
fn begin_of(op: OpNo) -> Sign
    ensures { result ≡ begin_of op }
{
    Sign::Plain(Event::Begin {
        op,
        code: Code::Ok,
        size: 0,
    })
}

/// That a handler ends.
fn end_of(op: OpNo) -> Sign
    ensures { result ≡ end_of op }
{
    Sign::Plain(Event::End { op, mark: 0 })
}

impl Condition {
    /// Whether these events meet it. Looks at each event once for each before it at most.
    pub fn is_met(self, events: &[Event]) -> bool
        ensures { IsTrue result ↔ Meets self events.now }
    {
        match self {
            Condition::Happens(sign) => happens_from(sign, events, 0),
            Condition::Before(first, second) => stands_before(first, second, events),
            Condition::Overlap(one, other) => {
                stands_before(begin_of(one), end_of(other), events)
                    && stands_before(begin_of(other), end_of(one), events)
            }
        }
    }
}
