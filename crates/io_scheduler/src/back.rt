ghost use Rattle.std.specs.Prelude.{◌≡◌, false, true, None, IfErr, IfOk};
ghost use Rattle.io_rules.specs.Legal.{state_of};
ghost use Rattle.io_rules.specs.Names.{is_leaving};
ghost use Rattle.io_names.specs.Tables.{names_of};
ghost use Rattle.io_scheduler.specs.Back.{HasComeBack, IsReturnable};
ghost use Rattle.io_scheduler.specs.Returned.{HasReturned, is_held, may_return};
ghost use Rattle.io_scheduler.specs.Shown.{Shows};
ghost use Rattle.io_scheduler.specs.Streams.{ShowsStreams};
ghost use Rattle.io_scheduler.specs.Tallied.{IsTally};
ghost use Rattle.io_scheduler.specs.Waits.{ShowsWaits};

use crate::attempt::Attempt;
use crate::brought::{returnable, take_back};
use crate::closed::leave_back;
use crate::counts::Counts;
use crate::returning::Came;
use crate::scheduler::Scheduler;
use crate::settling::{AtOnce, complete_first, settle_side};
use crate::streaming::Streaming;
use crate::tally::Tally;
use crate::waiting::Waiting;
use io_handlers::Handler;
use io_history::{HistoryTable, Keeper, Named};
use io_jobs::Jobs;
use io_names::NameTables;
use io_rules::{Gave, Name, Side};
use io_strands::{ReadyOp, Strand};
use io_streams::Streams;
use io_timers::Timers;

/// The system call for the operation at this place has returned, and its stream is there. What that settles
/// completes, with those behind it that need no system call.
fn settle_back<H: Handler, C: Named>(
    table: &HistoryTable,
    keeper: &mut Keeper<C>,
    counts: &Counts,
    names: &mut NameTables,
    timers: &Timers<Waiting<H>>,
    streams: &mut Streams<Streaming<H>>,
    strands: &mut Vec<Strand<H, H::State>>,
    jobs: &mut Jobs<ReadyOp<H>>,
    tally: &mut Tally,
    name: Name,
    side: Side,
    place: u32,
    buffer: Option<Vec<u8>>,
    gave: Gave,
)
    requires table { table.now ≡ C.table }
    requires none { keeper.old.held ≡ None }
    requires held { is_held (state_of C.limits keeper.old.past).names.streams name ≡ true }
    requires open_still { is_leaving (state_of C.limits keeper.old.past).names.streams name ≡ false }
    requires shows { Shows H.marks C.limits counts.now (names_of names.old) strands.old.items jobs.old
        (state_of C.limits keeper.old.past) }
    requires waits { ShowsWaits H.marks C.limits timers.now (state_of C.limits keeper.old.past) }
    requires tally { IsTally tally.old (state_of C.limits keeper.old.past) }
    requires streams { ShowsStreams H.marks C.limits streams.old (state_of C.limits keeper.old.past) }
    requires returnable { IsReturnable name side streams.old place gave }
    ensures back { HasComeBack C.limits name side gave keeper.old.past keeper.new.past }
    ensures none { keeper.new.held ≡ None }
    ensures shows { Shows H.marks C.limits counts.now (names_of names.new) strands.new.items jobs.new
        (state_of C.limits keeper.new.past) }
    ensures waits { ShowsWaits H.marks C.limits timers.now (state_of C.limits keeper.new.past) }
    ensures tally { IsTally tally.new (state_of C.limits keeper.new.past) }
    ensures streams { ShowsStreams H.marks C.limits streams.new (state_of C.limits keeper.new.past) }
{
    streams.holds();
    let brought = take_back(
        table, keeper, names, streams, tally, name, side, place, buffer, gave,
    );
    match brought.came {
        Came::On(_) => {}
        Came::Settles(gets) => {
            let first = AtOnce { place, gets };
            complete_first(
                table,
                keeper,
                counts,
                names,
                timers,
                streams,
                strands,
                jobs,
                tally,
                name,
                side,
                first,
                brought.made,
            );
            settle_side(
                table, keeper, counts, names, timers, streams, strands, jobs, tally, name, side,
            );
        }
    }
}

/// The system call for the operation at this place has returned.
fn come_back<H: Handler, C: Named>(
    table: &HistoryTable,
    keeper: &mut Keeper<C>,
    counts: &Counts,
    names: &mut NameTables,
    timers: &Timers<Waiting<H>>,
    streams: &mut Streams<Streaming<H>>,
    strands: &mut Vec<Strand<H, H::State>>,
    jobs: &mut Jobs<ReadyOp<H>>,
    tally: &mut Tally,
    name: Name,
    side: Side,
    place: u32,
    buffer: Option<Vec<u8>>,
    gave: Gave,
)
    requires table { table.now ≡ C.table }
    requires none { keeper.old.held ≡ None }
    requires held { is_held (state_of C.limits keeper.old.past).names.streams name ≡ true }
    requires shows { Shows H.marks C.limits counts.now (names_of names.old) strands.old.items jobs.old
        (state_of C.limits keeper.old.past) }
    requires waits { ShowsWaits H.marks C.limits timers.now (state_of C.limits keeper.old.past) }
    requires tally { IsTally tally.old (state_of C.limits keeper.old.past) }
    requires streams { ShowsStreams H.marks C.limits streams.old (state_of C.limits keeper.old.past) }
    requires returnable { IsReturnable name side streams.old place gave }
    ensures back { HasComeBack C.limits name side gave keeper.old.past keeper.new.past }
    ensures none { keeper.new.held ≡ None }
    ensures shows { Shows H.marks C.limits counts.now (names_of names.new) strands.new.items jobs.new
        (state_of C.limits keeper.new.past) }
    ensures waits { ShowsWaits H.marks C.limits timers.now (state_of C.limits keeper.new.past) }
    ensures tally { IsTally tally.new (state_of C.limits keeper.new.past) }
    ensures streams { ShowsStreams H.marks C.limits streams.new (state_of C.limits keeper.new.past) }
{
    if names.streams.is_leaving(name) {
        leave_back(
            table, keeper, counts, names, timers, streams, strands, jobs, tally, name, side, place,
            buffer, gave,
        );
    } else {
        settle_back(
            table, keeper, counts, names, timers, streams, strands, jobs, tally, name, side, place,
            buffer, gave,
        );
    }
}

/// Whether a stream is there, or was closed while its socket was out.
fn is_held(names: &NameTables, name: Name) -> bool
    ensures { result ≡ is_held (names_of names.now).streams name }
{
    names.streams.is_alive(name) || names.streams.is_leaving(name)
}

impl<H: Handler, C: Named> Scheduler<H, C> {
    /// A system call for the first operation of a side has given this, which counts before a cancellation that
    /// came meanwhile. What an accept made is a stream by the name that was kept for it, which goes to its
    /// handler. The operation has its buffer again. If that settles it, it completes, and so do those behind it
    /// that need no system call; else it goes on. A stream that was closed meanwhile is gone then. `Err` with
    /// all that was given exactly where no system call is under way that may give this, and then nothing has
    /// changed.
    pub fn back(
        &mut self,
        table: &HistoryTable,
        attempt: Attempt,
        gave: Gave,
    ) -> Result<(), Attempt>
        requires { table.now ≡ C.table }
        ensures returned { IfOk result (λ _. HasReturned attempt.stream attempt.side gave self.old self.new) }
        ensures refused { IfErr result (λ _. may_return self.old attempt.stream attempt.side gave ≡ false) }
        ensures same { IfErr result (λ _. self.new ≡ self.old) }
        ensures given { IfErr result (λ it. it ≡ attempt) }
    {
        if !is_held(&self.names, attempt.stream) {
            return Err(attempt);
        }
        match returnable(&self.streams, attempt.stream, attempt.side, gave) {
            None => Err(attempt),
            Some(place) => {
                let Attempt {
                    stream,
                    side,
                    kind: _,
                    moved: _,
                    buffer,
                    reserved: _,
                } = attempt;
                come_back(
                    table,
                    &mut self.keeper,
                    &self.counts,
                    &mut self.names,
                    &self.timers,
                    &mut self.streams,
                    &mut self.strands,
                    &mut self.jobs,
                    &mut self.tally,
                    stream,
                    side,
                    place,
                    buffer,
                    gave,
                );
                Ok(())
            }
        }
    }
}
