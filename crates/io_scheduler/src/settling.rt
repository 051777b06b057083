ghost use Rattle.std.specs.Prelude.{◌≡◌, ◌<◌, ◌∷◌, length, None, IfNone, IfSome};
ghost use Rattle.std.specs.Bool.{OnFalse, OnTrue};
ghost use Rattle.io_rules.specs.Legal.{MayHappen, state_of};
ghost use Rattle.io_names.specs.Tables.{names_of};
ghost use Rattle.io_scheduler.specs.Completed.{MayBeReadyOn, readied_cells, readied_jobs};
ghost use Rattle.io_scheduler.specs.Outside.{IsOutside};
ghost use Rattle.io_scheduler.specs.Settling.{HasSettled, HaveSettled, IsAtOnce, IsNotAtOnce, IsReadied, IsServing, IsSettledIf, IsSettling, ended_with, gets_at_once, gets_if, linked_gets};
ghost use Rattle.io_scheduler.specs.Shown.{Shows};
ghost use Rattle.io_scheduler.specs.Streams.{ShowsStreams};
ghost use Rattle.io_scheduler.specs.Tallied.{IsTally, tally_completed};
ghost use Rattle.io_scheduler.specs.Waits.{ShowsWaits};

use crate::completing::make_ready;
use crate::counts::Counts;
use crate::outside::note_outside;
use crate::streaming::Streaming;
use crate::tally::Tally;
use crate::waiting::Waiting;
use asio_types::Code;
use io_handlers::Handler;
use io_history::{Happening, HistoryTable, Keeper, Named};
use io_jobs::Jobs;
use io_names::NameTables;
use io_rules::{Name, Operation, Side};
use io_strands::{ReadyOp, Strand};
use io_streams::{PendingOp, Streams};
use io_timers::Timers;
use std::marker::Brand;

/// How an operation settles.
#[derive(Clone, Copy)]
pub(crate) struct Gets {
    pub(crate) code: Code,
    pub(crate) size: u64,
}

/// The first operation of a side, which settles with no system call.
#[derive(Clone, Copy)]
pub(crate) struct AtOnce {
    pub(crate) place: u32,
    pub(crate) gets: Gets,
}

/// So, or not at all.
fn gets_if(settles: bool, code: Code, size: u64) -> Option<Gets>
    ensures { result ≡ gets_if settles code size }
{
    if settles {
        Some(Gets { code, size })
    } else {
        None
    }
}

/// How an operation settles with no system call on a stream that is connected, if it does.
fn linked_gets(kind: Operation, moved: u64) -> Option<Gets>
    ensures { result ≡ linked_gets kind moved }
{
    match kind {
        Operation::ReadSome { stream: _, size }
        | Operation::WriteSome { stream: _, size }
        | Operation::WriteAll { stream: _, size } => gets_if(size == 0, Code::Ok, 0),
        Operation::ReadAll { stream: _, size } => gets_if(size <= moved, Code::Ok, size),
        Operation::ReadUntil { stream: _, max } => gets_if(max == 0, Code::NotFound, 0),
        _ => None,
    }
}

/// Likewise, connected or not.
fn gets_at_once(linked: bool, kind: Operation, moved: u64) -> Option<Gets>
    ensures { result ≡ gets_at_once linked kind moved }
{
    match kind {
        Operation::Accept { listener: _ } => None,
        Operation::Connect { stream: _ } => gets_if(linked, Code::Bad, moved),
        _ => {
            if linked {
                linked_gets(kind, moved)
            } else {
                Some(Gets {
                    code: Code::Bad,
                    size: moved,
                })
            }
        }
    }
}

/// The first operation of a side, if it settles with no system call.
fn first_at_once<H>(streams: &Streams<Streaming<H>>, name: Name, side: Side) -> Option<AtOnce>
    requires { name.place < length streams.now.streams }
    ensures some { IfSome result (λ it. IsAtOnce name side streams.now it.place it.gets.code it.gets.size) }
    ensures none { IfNone result (IsNotAtOnce name side streams.now) }
{
    match streams.first(name, side) {
        None => None,
        Some(place) => {
            let item = &streams.get(place).item;
            match gets_at_once(streams.is_linked(name), item.kind, item.moved) {
                None => None,
                Some(gets) => Some(AtOnce { place, gets }),
            }
        }
    }
}

/// Notes that an operation of a stream completes.
pub(crate) fn note_done<H, C: Named, E: Happening>(
    table: &HistoryTable,
    keeper: &mut Keeper<C>,
    op: &PendingOp<Streaming<H>>,
    gets: Gets,
)
    requires table { table.now ≡ C.table }
    requires outside { IsOutside E.event }
    requires may { MayHappen (state_of C.limits keeper.old.past) E.event }
    requires none { keeper.old.held ≡ None }
    ensures may { MayHappen (state_of C.limits keeper.old.past) E.event }
    ensures past { keeper.new.past ≡ E.event ∷ keeper.old.past }
    ensures none { keeper.new.held ≡ None }
{
    note_outside::<C, E>(table, keeper);
}

/// An operation of a stream that has left its side is ready, with its buffer, and the name of what it made.
pub(crate) fn ready_op<H, S>(
    strands: &mut Vec<Strand<H, S>>,
    jobs: &mut Jobs<ReadyOp<H>>,
    tally: &mut Tally,
    op: PendingOp<Streaming<H>>,
    gets: Gets,
    made: Option<Name>,
)
    requires few { tally.old.waiting < 18446744073709551615 }
    requires room { MayBeReadyOn op.item.lane strands.old.items jobs.old }
    ensures strands { strands.new.items ≡ readied_cells op.item.lane (ended_with op gets.code gets.size made) strands.old.items }
    ensures jobs { jobs.new ≡ readied_jobs op.item.lane (ended_with op gets.code gets.size made) strands.old.items jobs.old }
    ensures tally { tally.new ≡ tally_completed tally.old }
{
    let PendingOp {
        op: number,
        stream: _,
        side: _,
        item,
    } = op;
    let Streaming {
        lane,
        kind: _,
        moved: _,
        cancelled: _,
        buffer,
        handler,
    } = item;
    let ready = ReadyOp {
        number,
        code: gets.code,
        size: gets.size,
        buffer,
        made,
        handler,
    };
    tally.complete();
    make_ready(strands, jobs, lane, ready);
}

/// The first operation of a side, which is settled, completes: its handler is ready, with its buffer and the
/// name of what it made. The next one then gets what it can.
pub(crate) fn complete_first<H: Handler, C: Named>(
    table: &HistoryTable,
    keeper: &mut Keeper<C>,
    counts: &Counts,
    names: &NameTables,
    timers: &Timers<Waiting<H>>,
    streams: &mut Streams<Streaming<H>>,
    strands: &mut Vec<Strand<H, H::State>>,
    jobs: &mut Jobs<ReadyOp<H>>,
    tally: &mut Tally,
    name: Name,
    side: Side,
    first: AtOnce,
    made: Option<Name>,
)
    requires table { table.now ≡ C.table }
    requires none { keeper.old.held ≡ None }
    requires settling { IsSettling H.marks C.limits counts.now (names_of names.now) strands.old.items jobs.old timers.now
        streams.old tally.old name side first.place first.gets.code first.gets.size (state_of C.limits keeper.old.past) }
    ensures settled { HasSettled C.limits keeper.old.past keeper.new.past }
    ensures ready { IsReadied first.place first.gets.code first.gets.size made streams.old strands.old.items
        strands.new.items jobs.old jobs.new }
    ensures none { keeper.new.held ≡ None }
    ensures serving { IsServing H.marks C.limits counts.now (names_of names.now) strands.new.items jobs.new timers.now
        streams.new tally.new name side (state_of C.limits keeper.new.past) }
    ensures fewer { length streams.new.ops < length streams.old.ops }
{
    keeper.learn(table);
    let _most = counts.next;
    streams.holds();
    let op = streams.take(first.place);
    note_done::<H, C, Brand>(table, keeper, &op, first.gets);
    ready_op(strands, jobs, tally, op, first.gets, made);
}

/// The first operation of a side completes if it settles with no system call, or false comes back.
fn settle_first<H: Handler, C: Named>(
    table: &HistoryTable,
    keeper: &mut Keeper<C>,
    counts: &Counts,
    names: &NameTables,
    timers: &Timers<Waiting<H>>,
    streams: &mut Streams<Streaming<H>>,
    strands: &mut Vec<Strand<H, H::State>>,
    jobs: &mut Jobs<ReadyOp<H>>,
    tally: &mut Tally,
    name: Name,
    side: Side,
) -> bool
    requires table { table.now ≡ C.table }
    requires none { keeper.old.held ≡ None }
    requires serving { IsServing H.marks C.limits counts.now (names_of names.now) strands.old.items jobs.old timers.now
        streams.old tally.old name side (state_of C.limits keeper.old.past) }
    ensures settled { IsSettledIf result C.limits keeper.old.past keeper.new.past }
    ensures none { keeper.new.held ≡ None }
    ensures serving { IsServing H.marks C.limits counts.now (names_of names.now) strands.new.items jobs.new timers.now
        streams.new tally.new name side (state_of C.limits keeper.new.past) }
    ensures fewer { OnTrue result (length streams.new.ops < length streams.old.ops) }
    ensures same { OnFalse result (streams.new ≡ streams.old) }
    ensures over { OnFalse result (IsNotAtOnce name side streams.new) }
{
    match first_at_once(streams, name, side) {
        None => false,
        Some(first) => {
            complete_first(
                table, keeper, counts, names, timers, streams, strands, jobs, tally, name, side,
                first, None,
            );
            true
        }
    }
}

/// The first operations of a side complete, as far as they settle with no system call.
pub(crate) fn settle_side<H: Handler, C: Named>(
    table: &HistoryTable,
    keeper: &mut Keeper<C>,
    counts: &Counts,
    names: &NameTables,
    timers: &Timers<Waiting<H>>,
    streams: &mut Streams<Streaming<H>>,
    strands: &mut Vec<Strand<H, H::State>>,
    jobs: &mut Jobs<ReadyOp<H>>,
    tally: &mut Tally,
    name: Name,
    side: Side,
)
    requires table { table.now ≡ C.table }
    requires none { keeper.old.held ≡ None }
    requires serving { IsServing H.marks C.limits counts.now (names_of names.now) strands.old.items jobs.old timers.now
        streams.old tally.old name side (state_of C.limits keeper.old.past) }
    ensures settled { HaveSettled C.limits keeper.old.past keeper.new.past }
    ensures none { keeper.new.held ≡ None }
    ensures shows { Shows H.marks C.limits counts.now (names_of names.now) strands.new.items jobs.new
        (state_of C.limits keeper.new.past) }
    ensures waits { ShowsWaits H.marks C.limits timers.now (state_of C.limits keeper.new.past) }
    ensures tally { IsTally tally.new (state_of C.limits keeper.new.past) }
    ensures streams { ShowsStreams H.marks C.limits streams.new (state_of C.limits keeper.new.past) }
{
    let mut more = true;
    'ops: while more {
        more = settle_first(
            table, keeper, counts, names, timers, streams, strands, jobs, tally, name, side,
        );
    }
}
