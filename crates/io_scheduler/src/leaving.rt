ghost use Rattle.std.specs.Prelude.{◌≡◌};
ghost use Rattle.std.specs.Option.{is_some};
ghost use Rattle.io_rules.specs.Strands.{strand_freed};
ghost use Rattle.io_scheduler.specs.Begun.{is_strand};
ghost use Rattle.io_scheduler.specs.Ended.{MayForget, MayLeaveFrom, forgotten_cells, forgotten_state, is_last_in, left_cells, left_jobs};

use io_jobs::Jobs;
use io_names::NameTable;
use io_rules::Lane;
use io_strands::{ReadyOp, Strand};

/// What executes on a lane has returned, and the state of its strand comes back.
pub(crate) fn leave<H, S>(
    strands: &mut Vec<Strand<H, S>>,
    jobs: &mut Jobs<ReadyOp<H>>,
    lane: Lane,
    state: Option<S>,
)
    requires from { MayLeaveFrom lane strands.old.items jobs.old }
    requires state { is_some state ≡ is_strand lane }
    ensures strands { strands.new.items ≡ left_cells lane state strands.old.items }
    ensures jobs { jobs.new ≡ left_jobs lane state strands.old.items jobs.old }
{
    match lane {
        Lane::Own => match state {
            None => {}
            Some(_state) => unreachable!(),
        },
        Lane::Strand(name) => match state {
            None => unreachable!(),
            Some(state) => {
                let strand = &mut strands[name.place as usize];
                strand.end(state);
                if strand.may_begin() {
                    jobs.list(name.place);
                }
            }
        },
    }
}

/// Whether the strand of a lane was freed, and has no more than one operation.
pub(crate) fn is_last<H, S>(names: &NameTable, strands: &Vec<Strand<H, S>>, lane: Lane) -> bool
    ensures { result ≡ is_last_in names.now lane strands.now.items }
{
    match lane {
        Lane::Own => false,
        Lane::Strand(name) => {
            names.is_leaving(name)
                && match strands.get(name.place as usize) {
                    None => true,
                    Some(strand) => strand.tied() <= 1,
                }
        }
    }
}

/// Forgets the strand of a lane, if so, and answers its state.
pub(crate) fn forget_if<H, S>(
    last: bool,
    names: &mut NameTable,
    strands: &mut Vec<Strand<H, S>>,
    lane: Lane,
) -> Option<S>
    requires { MayForget last lane names.old strands.old.items }
    ensures names { names.new ≡ strand_freed last lane names.old }
    ensures strands { strands.new.items ≡ forgotten_cells last lane strands.old.items }
    ensures state { result ≡ forgotten_state last lane strands.old.items }
{
    match lane {
        Lane::Strand(name) if last => {
            names.free(name);
            strands[name.place as usize].close()
        }
        _ => None,
    }
}
