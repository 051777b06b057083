ghost use Rattle.std.specs.Prelude.{◌≡◌, ℕ, [], false, map, IfNone, IfSome};
ghost use Rattle.io_strands.specs.Cell.{may_begin};
ghost use Rattle.io_scheduler.specs.Shown.{cell_at};
ghost use Rattle.io_scheduler.specs.Taken.{IsTaken};

use io_jobs::{Job, Jobs};
use io_names::NameTable;
use io_rules::Lane;
use io_strands::{ReadyOp, Strand};

/// What begins next.
pub(crate) struct Taken<H, S> {
    /// Where.
    pub(crate) lane: Lane,
    /// The operation.
    pub(crate) op: ReadyOp<H>,
    /// The state of its strand, if it has one.
    pub(crate) state: Option<S>,
}

/// Takes the first that may begin; `None` exactly where none may.
pub(crate) fn take_first<H, S>(
    strands: &mut Vec<Strand<H, S>>,
    jobs: &mut Jobs<ReadyOp<H>>,
    names: &NameTable,
) -> Option<Taken<H, S>>
    requires { jobs.old.listed ≡ map may_begin strands.old.items }
    ensures taken { IfSome result (λ first. IsTaken first.lane first.op first.state names.now
        strands.old.items strands.new.items jobs.old jobs.new) }
    ensures none { IfNone result (jobs.old.ring ≡ []) }
    ensures idle { IfNone result ((place : ℕ) → may_begin (cell_at strands.old.items place) ≡ false) }
    ensures same { IfNone result (strands.new.items ≡ strands.old.items) }
    ensures jobs { IfNone result (jobs.new ≡ jobs.old) }
{
    match jobs.next() {
        None => None,
        Some(Job::Own(op)) => Some(Taken {
            lane: Lane::Own,
            op,
            state: None,
        }),
        Some(Job::Strand(place)) => {
            let (op, state) = strands[place as usize].begin();
            Some(Taken {
                lane: Lane::Strand(names.name_at(place)),
                op,
                state: Some(state),
            })
        }
    }
}
