ghost use Rattle.std.specs.Prelude.{◌≡◌, ◌↔◌, ◌<◌, ◌^◌, [], All, IsTrue, count_by, sum_by};
ghost use Rattle.history_rules.specs.Order.{was_taken};
ghost use Rattle.history_book.specs.Queues.{size_of, IsEmpty};
ghost use Rattle.history_rules.specs.Rounds.{is_held, IsDrained, IsEmptied};
ghost use Rattle.history_rules.specs.Time.{pending_count};

use crate::asking::Queues;
use crate::reactor_half::ReactorWorks;
use asio_types::ActNo;
use session_script::Script;

/// How many operations these streams have.
fn count_in(queues: &[Queues]) -> usize
    requires { sum_by size_of queues.now < 2 ^ 63 }
    ensures { result ≡ sum_by size_of queues.now }
{
    let mut count = 0;
    for each in queues {
        count += each.reads.len() + each.writes.len();
    }
    count
}

/// Whether these streams have no operations.
fn are_empty(queues: &[Queues]) -> bool
    ensures { IsTrue result ↔ All IsEmpty queues.now }
{
    queues
        .iter()
        .all(|each| each.reads.is_empty() && each.writes.is_empty())
}

impl<'a> ReactorWorks<'a> {
    /// The script that is replayed.
    pub(crate) fn script(&self) -> &'a Script
        ensures { result.now ≡ self.now.script }
    {
        self.script
    }

    /// Whether the reactor took an act.
    pub(crate) fn was_taken(&self, a: ActNo) -> bool
        ensures { result ≡ was_taken self.now.half a }
    {
        self.taken.get(a as usize).copied().unwrap_or(false)
    }

    /// Whether nothing is due.
    pub(crate) fn nothing_due(&self) -> bool
        ensures { IsTrue result ↔ (self.now.half.due ≡ []) }
    {
        self.due.is_empty()
    }

    /// Whether no operation of a stream is left after the last time point.
    pub(crate) fn is_drained(&self) -> bool
        ensures { IsTrue result ↔ IsDrained self.now.half }
    {
        !self.last || self.are_emptied()
    }

    fn are_emptied(&self) -> bool
        ensures { IsTrue result ↔ All IsEmptied self.now.half.queues }
    {
        are_empty(self.queues.as_slice())
    }

    /// How many operations are pending, those that are due among them.
    pub(crate) fn pending_count(&self) -> usize
        ensures { result ≡ pending_count self.now.half }
    {
        self.waits.len() + count_in(self.queues.as_slice()) + self.due.len()
    }

    /// How many guards hold the context.
    pub(crate) fn guards_held(&self) -> usize
        ensures held { result ≡ count_by is_held self.now.half.guards }
        ensures few { result < 2 ^ 63 }
    {
        self.guards.iter().filter(|held| **held).count()
    }

    /// Whether the reactor has failed.
    pub(crate) fn has_failed(&self) -> bool
        ensures { result ≡ self.now.half.failed }
    {
        self.failed
    }

    /// Whether all of this turn is still to be told.
    pub(crate) fn is_whole_turn(&self) -> bool
        ensures { result ≡ self.now.half.whole_turn }
    {
        self.whole_turn
    }
}
