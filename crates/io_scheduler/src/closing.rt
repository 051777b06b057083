ghost use Rattle.std.specs.Prelude.{◌≡◌, ◌<◌, ◌∷◌, [], false, true, length, None};
ghost use Rattle.std.specs.Bool.{OnTrue};
ghost use Rattle.std.specs.Option.{is_some};
ghost use Rattle.io_rules.specs.declared.control.Control.TheVariants as control;
ghost use Rattle.io_rules.specs.declared.event.Event.TheVariants as event;
ghost use Rattle.io_rules.specs.declared.operation.Side.{Side};
ghost use Rattle.io_rules.specs.Cancelling.{is_out_for};
ghost use Rattle.io_rules.specs.Changes.{is_out};
ghost use Rattle.io_rules.specs.Legal.{MayHappen, state_of};
ghost use Rattle.io_rules.specs.Names.{is_alive, is_unused, place_at};
ghost use Rattle.io_rules.specs.Serving.{first_of};
ghost use Rattle.io_rules.specs.State.{stream_at};
ghost use Rattle.io_names.specs.Tables.{names_of};
ghost use Rattle.io_queues.specs.Queued.{found_in};
ghost use Rattle.io_streams.specs.Pending.{IsIdle, untried_on};
ghost use Rattle.io_scheduler.specs.Closing.{IsClosing, IsMarkedIf, IsOneAbortedIf, IsOneReadied, aborted_ops, closings, marked_at, names_closed, vacated};
ghost use Rattle.io_scheduler.specs.Come.{HaveCome, NotesAll, NotesAllIf};
ghost use Rattle.io_scheduler.specs.Opened.{socket_kind};
ghost use Rattle.io_scheduler.specs.Shown.{Shows};
ghost use Rattle.io_scheduler.specs.Streams.{ShowsStreams};
ghost use Rattle.io_scheduler.specs.Tallied.{IsTally};
ghost use Rattle.io_scheduler.specs.Waits.{ShowsWaits};

use crate::counts::Counts;
use crate::outside::note_outside;
use crate::scheduler::Scheduler;
use crate::section::Section;
use crate::settling::{Gets, note_done, ready_op};
use crate::streaming::Streaming;
use crate::tally::Tally;
use crate::trying::is_busy;
use crate::waiting::Waiting;
use asio_types::Code;
use io_handlers::Handler;
use io_history::{Happening, HistoryTable, Keeper, Named, Witness};
use io_jobs::Jobs;
use io_names::NameTables;
use io_rules::Name;
use io_strands::{ReadyOp, Strand};
use io_streams::Streams;
use io_timers::Timers;
use std::marker::Brand;

/// Notes that a stream or a listener is closed, and answers the history before it.
fn note_closed<C: Named, E: Happening>(
    table: &HistoryTable,
    keeper: &mut Keeper<C>,
    name: Name,
    listener: bool,
) -> Witness<C>
    requires table { table.now ≡ C.table }
    requires event { E.event ≡ event.Changed None (control.Free (socket_kind listener) name) }
    requires alive { is_alive (state_of C.limits keeper.old.past).names.streams name ≡ true }
    requires kind { (stream_at (state_of C.limits keeper.old.past).streams name).listener ≡ listener }
    requires going { (state_of C.limits keeper.old.past).finishing ≡ false }
    requires none { keeper.old.held ≡ None }
    ensures come { HaveCome C.limits (E.event ∷ []) keeper.old.past keeper.new.past }
    ensures none { keeper.new.held ≡ None }
    ensures before { result ≡ keeper.old.past }
{
    let before = keeper.tell(table);
    note_outside::<C, E>(table, keeper);
    before
}

/// Of what was pending on a stream that was closed, the first accepted operation that is left completes, and its
/// handler is ready with its buffer; false exactly where none is left.
fn abort_next<H: Handler, C: Named>(
    table: &HistoryTable,
    keeper: &mut Keeper<C>,
    counts: &Counts,
    names: &NameTables,
    timers: &Timers<Waiting<H>>,
    streams: &mut Streams<Streaming<H>>,
    strands: &mut Vec<Strand<H, H::State>>,
    jobs: &mut Jobs<ReadyOp<H>>,
    tally: &mut Tally,
    name: Name,
) -> bool
    requires table { table.now ≡ C.table }
    requires none { keeper.old.held ≡ None }
    requires closing { IsClosing H.marks C.limits counts.now (names_of names.now) strands.old.items jobs.old
        timers.now streams.old tally.old name (state_of C.limits keeper.old.past) }
    ensures aborted { IsOneAbortedIf result C.limits (untried_on name streams.old) (untried_on name streams.new)
        keeper.old.past keeper.new.past }
    ensures ready { OnTrue result (IsOneReadied name streams.old strands.old.items strands.new.items jobs.old jobs.new) }
    ensures none { keeper.new.held ≡ None }
    ensures closing { IsClosing H.marks C.limits counts.now (names_of names.now) strands.new.items jobs.new
        timers.now streams.new tally.new name (state_of C.limits keeper.new.past) }
    ensures fewer { OnTrue result (length streams.new.ops < length streams.old.ops) }
{
    keeper.learn(table);
    let _most = counts.next;
    streams.holds();
    match streams.cancel_first(name) {
        None => false,
        Some(op) => {
            streams.holds();
            let gets = Gets {
                code: Code::Aborted,
                size: op.item.moved,
            };
            note_done::<H, C, Brand>(table, keeper, &op, gets);
            ready_op(strands, jobs, tally, op, gets, None);
            true
        }
    }
}

/// All of them complete.
fn abort_rest<H: Handler, C: Named>(
    table: &HistoryTable,
    keeper: &mut Keeper<C>,
    counts: &Counts,
    names: &NameTables,
    timers: &Timers<Waiting<H>>,
    streams: &mut Streams<Streaming<H>>,
    strands: &mut Vec<Strand<H, H::State>>,
    jobs: &mut Jobs<ReadyOp<H>>,
    tally: &mut Tally,
    name: Name,
)
    requires table { table.now ≡ C.table }
    requires none { keeper.old.held ≡ None }
    requires closing { IsClosing H.marks C.limits counts.now (names_of names.now) strands.old.items jobs.old
        timers.now streams.old tally.old name (state_of C.limits keeper.old.past) }
    ensures aborted { HaveCome C.limits (aborted_ops (untried_on name streams.old)) keeper.old.past keeper.new.past }
    ensures none { keeper.new.held ≡ None }
    ensures closing { IsClosing H.marks C.limits counts.now (names_of names.now) strands.new.items jobs.new
        timers.now streams.new tally.new name (state_of C.limits keeper.new.past) }
    ensures over { untried_on name streams.new ≡ [] }
{
    let mut more = true;
    'ops: while more {
        more = abort_next(
            table, keeper, counts, names, timers, streams, strands, jobs, tally, name,
        );
    }
}

/// A cancellation reaches the operation at this place during its system call.
fn mark_at<H>(streams: &mut Streams<Streaming<H>>, place: u32)
    requires { is_some (found_in place streams.old.ops) ≡ true }
    ensures { streams.new ≡ marked_at place streams.old }
{
    let item = streams.item_mut(place);
    item.cancelled = true;
}

/// Likewise the first operation of the side for which the socket is in a system call, if it is in one.
pub(crate) fn mark_tried<H>(streams: &mut Streams<Streaming<H>>, name: Name)
    requires within { name.place < length streams.old.streams }
    requires busy { (side : Side) → is_out_for side (stream_at streams.old.streams name).out ≡ true →
        first_of side (stream_at streams.old.streams name) ≡ None → ⊥ }
    ensures { IsMarkedIf (stream_at streams.old.streams name).out name streams.old streams.new }
{
    let Some(side) = streams.out(name) else {
        return;
    };
    let Some(place) = streams.first(name, side) else {
        unreachable!()
    };
    mark_at(streams, place);
}

/// Its name is gone, and nothing is at its place, unless that is kept while its socket is in a system call.
fn leave<H>(streams: &mut Streams<Streaming<H>>, names: &mut NameTables, name: Name)
    requires within { name.place < length streams.old.streams }
    requires idle { is_out (stream_at streams.old.streams name).out ≡ false → IsIdle (stream_at streams.old.streams name) }
    requires used { is_unused (place_at names.old.streams name.place).life ≡ false }
    ensures streams { streams.new ≡ vacated name streams.old }
    ensures names { names_of names.new
        ≡ names_closed (is_out (stream_at streams.old.streams name).out) name (names_of names.old) }
{
    if is_busy(streams, name) {
        names.streams.close(name);
    } else {
        streams.forget(name);
        names.streams.free(name);
    }
}

/// A stream or a listener was closed: what was pending on it completes, and its name is gone.
pub(crate) fn close_freed<H: Handler, C: Named>(
    table: &HistoryTable,
    keeper: &mut Keeper<C>,
    counts: &Counts,
    names: &mut NameTables,
    timers: &Timers<Waiting<H>>,
    streams: &mut Streams<Streaming<H>>,
    strands: &mut Vec<Strand<H, H::State>>,
    jobs: &mut Jobs<ReadyOp<H>>,
    tally: &mut Tally,
    name: Name,
)
    requires table { table.now ≡ C.table }
    requires none { keeper.old.held ≡ None }
    requires closing { IsClosing H.marks C.limits counts.now (names_of names.old) strands.old.items jobs.old
        timers.now streams.old tally.old name (state_of C.limits keeper.old.past) }
    requires used { is_unused (place_at names.old.streams name.place).life ≡ false }
    ensures aborted { HaveCome C.limits (aborted_ops (untried_on name streams.old)) keeper.old.past keeper.new.past }
    ensures none { keeper.new.held ≡ None }
    ensures shows { Shows H.marks C.limits counts.now (names_of names.new) strands.new.items jobs.new
        (state_of C.limits keeper.new.past) }
    ensures waits { ShowsWaits H.marks C.limits timers.now (state_of C.limits keeper.new.past) }
    ensures tally { IsTally tally.new (state_of C.limits keeper.new.past) }
    ensures streams { ShowsStreams H.marks C.limits streams.new (state_of C.limits keeper.new.past) }
{
    abort_rest(
        table, keeper, counts, names, timers, streams, strands, jobs, tally, name,
    );
    streams.holds();
    leave(streams, names, name);
}

impl<H: Handler, C: Named> Scheduler<H, C> {
    /// Closes a stream or a listener from outside of all handlers (`basic_socket::close`): what is pending on
    /// it completes with operation_aborted, in order of acceptance, and its name is gone. An operation whose
    /// system call is under way completes when that has returned. Nothing happens where its name is gone.
    pub fn close(&mut self, table: &HistoryTable, name: Name) -> Section<C>
        requires { table.now ≡ C.table }
        ensures { NotesAllIf (is_alive self.old.names.streams name) C.limits (closings name self.old)
            result.before result.after self.old self.new }
    {
        if self.names.streams.is_alive(name) {
            self.close_alive(table, name)
        } else {
            self.look(table)
        }
    }

    /// Likewise, where the name is there.
    fn close_alive(&mut self, table: &HistoryTable, name: Name) -> Section<C>
        requires table { table.now ≡ C.table }
        requires alive { is_alive self.old.names.streams name ≡ true }
        ensures { NotesAll C.limits (closings name self.old) result.before result.after self.old self.new }
    {
        self.keeper.learn(table);
        self.streams.holds();
        let listener = self.streams.is_listener(name);
        mark_tried(&mut self.streams, name);
        let before = note_closed::<C, Brand>(table, &mut self.keeper, name, listener);
        close_freed(
            table,
            &mut self.keeper,
            &self.counts,
            &mut self.names,
            &self.timers,
            &mut self.streams,
            &mut self.strands,
            &mut self.jobs,
            &mut self.tally,
            name,
        );
        let after = self.keeper.tell(table);
        Section { before, after }
    }
}
