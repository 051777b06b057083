ghost use Rattle.std.specs.Prelude.{◌≡◌, false, true, None};
ghost use Rattle.io_rules.specs.Legal.{state_of};
ghost use Rattle.io_rules.specs.Names.{is_leaving, is_unused, place_at};
ghost use Rattle.io_names.specs.Tables.{names_of};
ghost use Rattle.io_scheduler.specs.Back.{HasComeBack, IsReturnable};
ghost use Rattle.io_scheduler.specs.Returned.{is_held};
ghost use Rattle.io_scheduler.specs.Settling.{HasSettled, IsReadied};
ghost use Rattle.io_scheduler.specs.Shown.{Shows};
ghost use Rattle.io_scheduler.specs.Streams.{ShowsStreams};
ghost use Rattle.io_scheduler.specs.Tallied.{IsTally};
ghost use Rattle.io_scheduler.specs.Vacated.{IsLeaving, without_name};
ghost use Rattle.io_scheduler.specs.Waits.{ShowsWaits};

use crate::brought::take_back;
use crate::counts::Counts;
use crate::returning::Came;
use crate::settling::{AtOnce, note_done, ready_op};
use crate::streaming::Streaming;
use crate::tally::Tally;
use crate::waiting::Waiting;
use io_handlers::Handler;
use io_history::{HistoryTable, Keeper, Named};
use io_jobs::Jobs;
use io_names::NameTables;
use io_rules::{Gave, Name, Side};
use io_strands::{ReadyOp, Strand};
use io_streams::Streams;
use io_timers::Timers;
use std::marker::Brand;

/// The place of a stream that was closed is free.
fn free_name(names: &mut NameTables, name: Name)
    requires { is_unused (place_at (names_of names.old).streams name.place).life ≡ false }
    ensures { names_of names.new ≡ without_name name (names_of names.old) }
{
    names.streams.free(name);
}

/// The operation at this place, which is settled, completes, and its stream, which was closed, is gone.
fn complete_left<H: Handler, C: Named>(
    table: &HistoryTable,
    keeper: &mut Keeper<C>,
    counts: &Counts,
    names: &mut NameTables,
    timers: &Timers<Waiting<H>>,
    streams: &mut Streams<Streaming<H>>,
    strands: &mut Vec<Strand<H, H::State>>,
    jobs: &mut Jobs<ReadyOp<H>>,
    tally: &mut Tally,
    name: Name,
    side: Side,
    first: AtOnce,
    made: Option<Name>,
)
    requires table { table.now ≡ C.table }
    requires none { keeper.old.held ≡ None }
    requires leaving { IsLeaving H.marks C.limits counts.now (names_of names.old) strands.old.items jobs.old timers.now
        streams.old tally.old name side first.place first.gets.code first.gets.size (state_of C.limits keeper.old.past) }
    ensures settled { HasSettled C.limits keeper.old.past keeper.new.past }
    ensures ready { IsReadied first.place first.gets.code first.gets.size made streams.old strands.old.items
        strands.new.items jobs.old jobs.new }
    ensures none { keeper.new.held ≡ None }
    ensures shows { Shows H.marks C.limits counts.now (names_of names.new) strands.new.items jobs.new
        (state_of C.limits keeper.new.past) }
    ensures waits { ShowsWaits H.marks C.limits timers.now (state_of C.limits keeper.new.past) }
    ensures tally { IsTally tally.new (state_of C.limits keeper.new.past) }
    ensures streams { ShowsStreams H.marks C.limits streams.new (state_of C.limits keeper.new.past) }
{
    keeper.learn(table);
    let _most = counts.next;
    streams.holds();
    let op = streams.take(first.place);
    note_done::<H, C, Brand>(table, keeper, &op, first.gets);
    ready_op(strands, jobs, tally, op, first.gets, made);
    streams.forget(name);
    free_name(names, name);
}

/// The system call for the operation at this place has returned, whose stream was closed meanwhile: the
/// operation completes, and its stream is gone.
pub(crate) fn leave_back<H: Handler, C: Named>(
    table: &HistoryTable,
    keeper: &mut Keeper<C>,
    counts: &Counts,
    names: &mut NameTables,
    timers: &Timers<Waiting<H>>,
    streams: &mut Streams<Streaming<H>>,
    strands: &mut Vec<Strand<H, H::State>>,
    jobs: &mut Jobs<ReadyOp<H>>,
    tally: &mut Tally,
    name: Name,
    side: Side,
    place: u32,
    buffer: Option<Vec<u8>>,
    gave: Gave,
)
    requires table { table.now ≡ C.table }
    requires none { keeper.old.held ≡ None }
    requires held { is_held (state_of C.limits keeper.old.past).names.streams name ≡ true }
    requires leaving { is_leaving (state_of C.limits keeper.old.past).names.streams name ≡ true }
    requires shows { Shows H.marks C.limits counts.now (names_of names.old) strands.old.items jobs.old
        (state_of C.limits keeper.old.past) }
    requires waits { ShowsWaits H.marks C.limits timers.now (state_of C.limits keeper.old.past) }
    requires tally { IsTally tally.old (state_of C.limits keeper.old.past) }
    requires streams { ShowsStreams H.marks C.limits streams.old (state_of C.limits keeper.old.past) }
    requires returnable { IsReturnable name side streams.old place gave }
    ensures back { HasComeBack C.limits name side gave keeper.old.past keeper.new.past }
    ensures none { keeper.new.held ≡ None }
    ensures shows { Shows H.marks C.limits counts.now (names_of names.new) strands.new.items jobs.new
        (state_of C.limits keeper.new.past) }
    ensures waits { ShowsWaits H.marks C.limits timers.now (state_of C.limits keeper.new.past) }
    ensures tally { IsTally tally.new (state_of C.limits keeper.new.past) }
    ensures streams { ShowsStreams H.marks C.limits streams.new (state_of C.limits keeper.new.past) }
{
    streams.holds();
    let brought = take_back(
        table, keeper, names, streams, tally, name, side, place, buffer, gave,
    );
    match brought.came {
        Came::On(_) => {}
        Came::Settles(gets) => {
            let first = AtOnce { place, gets };
            complete_left(
                table,
                keeper,
                counts,
                names,
                timers,
                streams,
                strands,
                jobs,
                tally,
                name,
                side,
                first,
                brought.made,
            );
        }
    }
}
