ghost use Rattle.std.specs.Prelude.{◌≡◌};
ghost use Rattle.io_scheduler.specs.Completed.{MayBeReadyOn, readied_cells, readied_jobs};

use io_jobs::Jobs;
use io_rules::Lane;
use io_strands::{ReadyOp, Strand};

/// An operation that has completed is ready, behind the others of its lane.
pub(crate) fn make_ready<H, S>(
    strands: &mut Vec<Strand<H, S>>,
    jobs: &mut Jobs<ReadyOp<H>>,
    lane: Lane,
    op: ReadyOp<H>,
)
    requires { MayBeReadyOn lane strands.old.items jobs.old }
    ensures strands { strands.new.items ≡ readied_cells lane op strands.old.items }
    ensures jobs { jobs.new ≡ readied_jobs lane op strands.old.items jobs.old }
{
    match lane {
        Lane::Own => jobs.add(op),
        Lane::Strand(name) => {
            let strand = &mut strands[name.place as usize];
            strand.ready(op);
            if strand.may_begin() {
                jobs.list(name.place);
            }
        }
    }
}
