ghost use Rattle.std.specs.Prelude.{◌≡◌};
ghost use Rattle.io_rules.specs.Strands.{entry_of_dispatch};
ghost use Rattle.io_strands.specs.Cell.{MayBeReady, MayBeTied, called};
ghost use Rattle.io_scheduler.specs.Entered.{HasRoomFor, entered_cells, entered_jobs};

use io_jobs::Jobs;
use io_rules::Lane;
use io_strands::{ReadyOp, Strand};

/// An operation that is called is ready, behind the others of its lane or before them.
#[inline(always)]
pub(crate) fn enter<H, S>(
    strands: &mut Vec<Strand<H, S>>,
    jobs: &mut Jobs<ReadyOp<H>>,
    first: bool,
    lane: Lane,
    op: ReadyOp<H>,
)
    requires { HasRoomFor lane strands.old.items jobs.old }
    ensures strands { strands.new.items ≡ entered_cells first lane op strands.old.items }
    ensures jobs { jobs.new ≡ entered_jobs first lane op strands.old.items jobs.old }
{
    match lane {
        Lane::Own => jobs.add(op),
        Lane::Strand(name) => {
            let strand = &mut strands[name.place as usize];
            call(strand, first, op);
            if strand.may_begin() {
                jobs.list(name.place);
            }
        }
    }
}

/// It is ready on this strand.
fn call<H, S>(strand: &mut Strand<H, S>, first: bool, op: ReadyOp<H>)
    requires ready { MayBeReady strand.old }
    requires tied { MayBeTied strand.old }
    ensures { strand.new ≡ called (entry_of_dispatch first) op strand.old }
{
    if first {
        strand.call_first(op);
    } else {
        strand.call_last(op);
    }
}
