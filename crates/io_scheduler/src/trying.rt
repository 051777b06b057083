ghost use Rattle.std.specs.Prelude.{◌≡◌, ◌<◌, ◌∷◌, false, length, true, None, IfNone, IfSome};
ghost use Rattle.std.specs.Option.{is_some};
ghost use Rattle.io_rules.specs.declared.event.Event.TheVariants as event;
ghost use Rattle.io_rules.specs.Changes.{is_out};
ghost use Rattle.io_rules.specs.Legal.{IsStep, MayHappen, state_of};
ghost use Rattle.io_rules.specs.Names.{is_alive};
ghost use Rattle.io_rules.specs.Operations.{is_accept};
ghost use Rattle.io_rules.specs.State.{stream_at};
ghost use Rattle.io_rules.specs.Tries.{MayReserve, head_of, is_accept_of};
ghost use Rattle.io_names.specs.Tables.{names_of};
ghost use Rattle.io_queues.specs.Queued.{found_in};
ghost use Rattle.io_scheduler.specs.Outside.{IsOutside};
ghost use Rattle.io_scheduler.specs.Streams.{ShowsStreams};
ghost use Rattle.io_scheduler.specs.Tallied.{IsTally};
ghost use Rattle.io_scheduler.specs.Tried.{HasTried, IsAttempt, IsTriable, IsUntriable, has_place, is_ready_for, lent_at, may_try, with_kept};

use crate::attempt::Attempt;
use crate::outside::note_outside;
use crate::scheduler::Scheduler;
use crate::streaming::Streaming;
use crate::tally::Tally;
use io_handlers::Handler;
use io_history::{Happening, HistoryTable, Keeper, Named};
use io_names::NameTables;
use io_rules::{Name, Operation, Side};
use io_streams::Streams;
use std::marker::Brand;

/// Notes that a system call begins.
fn note_tried<C: Named, E: Happening>(
    table: &HistoryTable,
    keeper: &mut Keeper<C>,
    name: Name,
    side: Side,
    reserved: Option<Name>,
)
    requires table { table.now ≡ C.table }
    requires outside { IsOutside E.event }
    requires may { MayHappen (state_of C.limits keeper.old.past) E.event }
    requires none { keeper.old.held ≡ None }
    ensures may { MayHappen (state_of C.limits keeper.old.past) E.event }
    ensures past { keeper.new.past ≡ E.event ∷ keeper.old.past }
    ensures none { keeper.new.held ≡ None }
{
    note_outside::<C, E>(table, keeper);
}

/// Whether a system call for an operation of a stream may begin, unless one is under way: it isn't cancelled,
/// and there is a connection exactly where it uses one.
fn is_ready<H>(streams: &Streams<Streaming<H>>, name: Name, item: &Streaming<H>) -> bool
    requires { name.place < length streams.now.streams }
    ensures { result ≡ is_ready_for (stream_at streams.now.streams name) item.now }
{
    !item.cancelled
        && match item.kind {
            Operation::Accept { .. } => streams.is_listener(name),
            Operation::Connect { .. } => !streams.is_linked(name),
            _ => streams.is_linked(name) && !streams.is_connecting(name),
        }
}

/// Whether a socket is in a system call.
pub(crate) fn is_busy<H>(streams: &Streams<Streaming<H>>, name: Name) -> bool
    requires { name.place < length streams.now.streams }
    ensures { result ≡ is_out (stream_at streams.now.streams name).out }
{
    streams.out(name).is_some()
}

/// The place of the first operation of a side, if a system call for it may begin.
fn triable<H>(streams: &Streams<Streaming<H>>, name: Name, side: Side) -> Option<u32>
    requires { name.place < length streams.now.streams }
    ensures some { IfSome result (λ place. IsTriable name side streams.now place) }
    ensures none { IfNone result (IsUntriable name side streams.now) }
{
    if is_busy(streams, name) {
        return None;
    }
    match streams.first(name, side) {
        None => None,
        Some(place) => {
            if is_ready(streams, name, &streams.get(place).item) {
                Some(place)
            } else {
                None
            }
        }
    }
}

/// Keeps a name for what an accept makes; `None` exactly where none is free.
fn reserve(names: &mut NameTables, kind: Operation, op: u64) -> Option<Option<Name>>
    ensures kept { IfSome result (λ kept. MayReserve (names_of names.old) (is_accept kind) kept) }
    ensures names { IfSome result (λ kept. names_of names.new ≡ with_kept op kept (names_of names.old)) }
    ensures none { IfNone result (has_place (names_of names.old) (is_accept kind) ≡ false) }
    ensures same { IfNone result (names_of names.new ≡ names_of names.old) }
{
    match kind {
        Operation::Accept { .. } => match names.streams.keep(op) {
            Some(name) => Some(Some(name)),
            None => None,
        },
        _ => Some(None),
    }
}

/// The buffer of the operation at this place goes into the system call.
fn lend_buffer<H>(streams: &mut Streams<Streaming<H>>, place: u32) -> Option<Vec<u8>>
    requires { is_some (found_in place streams.old.ops) ≡ true }
    ensures { streams.new ≡ lent_at place streams.old }
{
    let item = streams.item_mut(place);
    item.buffer.take()
}

/// A system call for the operation at this place begins; `None` exactly where it is an accept that has no
/// place for what it makes.
fn begin<H: Handler, C: Named>(
    table: &HistoryTable,
    keeper: &mut Keeper<C>,
    names: &mut NameTables,
    streams: &mut Streams<Streaming<H>>,
    tally: &mut Tally,
    name: Name,
    side: Side,
    place: u32,
) -> Option<Attempt>
    requires table { table.now ≡ C.table }
    requires none { keeper.old.held ≡ None }
    requires going { (state_of C.limits keeper.old.past).finishing ≡ false }
    requires allowed { (state_of C.limits keeper.old.past).stopped ≡ false }
    requires names { names_of names.old ≡ (state_of C.limits keeper.old.past).names }
    requires alive { is_alive (state_of C.limits keeper.old.past).names.streams name ≡ true }
    requires streams { ShowsStreams H.marks C.limits streams.old (state_of C.limits keeper.old.past) }
    requires tally { IsTally tally.old (state_of C.limits keeper.old.past) }
    requires triable { IsTriable name side streams.old place }
    ensures tried { IfSome result (λ it. HasTried C.limits name side it.reserved keeper.old.past keeper.new.past) }
    ensures given { IfSome result (λ it.
        IsAttempt name side (head_of (state_of C.limits keeper.old.past) name side) it) }
    ensures kept { IfNone result (has_place (state_of C.limits keeper.old.past).names
        (is_accept_of (head_of (state_of C.limits keeper.old.past) name side)) ≡ false) }
    ensures same { IfNone result (keeper.new.past ≡ keeper.old.past) }
    ensures none { keeper.new.held ≡ None }
    ensures names { names_of names.new ≡ (state_of C.limits keeper.new.past).names }
    ensures streams { ShowsStreams H.marks C.limits streams.new (state_of C.limits keeper.new.past) }
    ensures tally { IsTally tally.new (state_of C.limits keeper.new.past) }
{
    streams.holds();
    let head = streams.get(place);
    let kind = head.item.kind;
    let moved = head.item.moved;
    match reserve(names, kind, head.op) {
        None => None,
        Some(reserved) => {
            note_tried::<C, Brand>(table, keeper, name, side, reserved);
            tally.go_out();
            streams.set_out(name, side, reserved);
            let buffer = lend_buffer(streams, place);
            Some(Attempt {
                stream: name,
                side,
                kind,
                moved,
                buffer,
                reserved,
            })
        }
    }
}

impl<H: Handler, C: Named> Scheduler<H, C> {
    /// A system call for the first operation of a side begins: an accept keeps a name for what it makes. `None`
    /// exactly where none may begin (the context is stopped, the stream or listener is gone or its socket is in
    /// another call, nothing is pending there, or no name is free for an accept), and then nothing has changed.
    pub fn attempt(&mut self, table: &HistoryTable, name: Name, side: Side) -> Option<Attempt>
        requires { table.now ≡ C.table }
        ensures tried { IfSome result (λ it. IsStep self.old (event.Tried name side it.reserved) self.new) }
        ensures given { IfSome result (λ it. IsAttempt name side (head_of self.old name side) it) }
        ensures none { IfNone result (may_try self.old name side ≡ false) }
        ensures same { IfNone result (self.new ≡ self.old) }
    {
        if self.counts.stopped || !self.names.streams.is_alive(name) {
            return None;
        }
        match triable(&self.streams, name, side) {
            None => None,
            Some(place) => begin(
                table,
                &mut self.keeper,
                &mut self.names,
                &mut self.streams,
                &mut self.tally,
                name,
                side,
                place,
            ),
        }
    }
}
