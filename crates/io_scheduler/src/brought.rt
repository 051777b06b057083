ghost use Rattle.std.specs.Prelude.{◌≡◌, ◌<◌, ◌∷◌, length, true, None, IfNone, IfSome};
ghost use Rattle.std.specs.Option.{is_some};
ghost use Rattle.io_rules.specs.declared.event.Event.TheVariants as event;
ghost use Rattle.io_rules.specs.Cancelling.{is_out_for};
ghost use Rattle.io_rules.specs.Legal.{IsLegal, MayHappen, state_of};
ghost use Rattle.io_rules.specs.State.{stream_at};
ghost use Rattle.io_rules.specs.Tries.{is_made};
ghost use Rattle.io_names.specs.Tables.{names_of};
ghost use Rattle.io_queues.specs.Queued.{found_in};
ghost use Rattle.io_streams.specs.Pending.{back_in};
ghost use Rattle.io_scheduler.specs.Back.{CameAt, IsReturnable, IsStale, MayOpen, given_at, made_of, opened_of, so_far, with_made};
ghost use Rattle.io_scheduler.specs.Outside.{IsOutside};
ghost use Rattle.io_scheduler.specs.Streams.{ShowsStreams};
ghost use Rattle.io_scheduler.specs.Tallied.{tally_back};

use crate::outside::note_outside;
use crate::returning::{Came, came_of, fits_back};
use crate::streaming::Streaming;
use crate::tally::Tally;
use io_handlers::Handler;
use io_history::{Happening, HistoryTable, Keeper, Named};
use io_names::NameTables;
use io_rules::{Gave, Name, Side};
use io_streams::Streams;
use std::marker::Brand;

/// Whether a system call gave a connection.
fn is_made(gave: Gave) -> bool
    ensures { result ≡ is_made gave }
{
    match gave {
        Gave::Made => true,
        _ => false,
    }
}

/// Whether a socket is in a system call for this side.
fn is_out_for(side: Side, out: Option<Side>) -> bool
    ensures { result ≡ is_out_for side out }
{
    match (side, out) {
        (Side::Read, Some(Side::Read)) => true,
        (Side::Write, Some(Side::Write)) => true,
        (Side::Connect, Some(Side::Connect)) => true,
        _ => false,
    }
}

/// The place of the first operation of a side, if its system call is under way and may give this.
pub(crate) fn returnable<H>(
    streams: &Streams<Streaming<H>>,
    name: Name,
    side: Side,
    gave: Gave,
) -> Option<u32>
    requires { name.place < length streams.now.streams }
    ensures some { IfSome result (λ place. IsReturnable name side streams.now place gave) }
    ensures none { IfNone result (IsStale name side streams.now gave) }
{
    if !is_out_for(side, streams.out(name)) {
        return None;
    }
    match streams.first(name, side) {
        None => None,
        Some(place) => {
            let item = &streams.get(place).item;
            if fits_back(item.kind, item.moved, gave) {
                Some(place)
            } else {
                None
            }
        }
    }
}

/// How far what a system call gave brings the operation at this place.
fn came_at<H>(
    streams: &Streams<Streaming<H>>,
    name: Name,
    side: Side,
    place: u32,
    gave: Gave,
) -> Came
    requires { IsReturnable name side streams.now place gave }
    ensures { CameAt place gave streams.now result }
{
    let item = &streams.get(place).item;
    came_of(item.kind, gave, item.moved, item.cancelled)
}

/// Notes that a system call has returned.
fn note_back<C: Named, E: Happening>(
    table: &HistoryTable,
    keeper: &mut Keeper<C>,
    name: Name,
    side: Side,
    gave: Gave,
)
    requires table { table.now ≡ C.table }
    requires outside { IsOutside E.event }
    requires may { MayHappen (state_of C.limits keeper.old.past) E.event }
    requires none { keeper.old.held ≡ None }
    ensures may { MayHappen (state_of C.limits keeper.old.past) E.event }
    ensures past { keeper.new.past ≡ E.event ∷ keeper.old.past }
    ensures none { keeper.new.held ≡ None }
{
    note_outside::<C, E>(table, keeper);
}

/// The name that was kept for what an accept makes names this now, or is free again.
fn settle_name(names: &mut NameTables, reserved: Option<Name>, gave: Gave)
    ensures { names_of names.new ≡ with_made gave reserved (names_of names.old) }
{
    if let Some(name) = reserved {
        if is_made(gave) {
            names.streams.open(name);
        } else {
            names.streams.give_back(name);
        }
    }
}

/// What an accept made, if it did.
fn made_of(gave: Gave, reserved: Option<Name>) -> Option<Name>
    ensures { result ≡ made_of gave reserved }
{
    match gave {
        Gave::Made => reserved,
        _ => None,
    }
}

/// What an accept made is connected.
fn open_made<H>(streams: &mut Streams<Streaming<H>>, made: Option<Name>)
    requires { MayOpen made streams.old.streams }
    ensures { streams.new ≡ opened_of made streams.old }
{
    if let Some(name) = made {
        streams.open(name, false, true);
    }
}

/// How many bytes an operation has moved then that had moved so many.
fn so_far(came: Came, moved: u64) -> u64
    ensures { result ≡ so_far came moved }
{
    match came {
        Came::On(more) => more,
        Came::Settles(_) => moved,
    }
}

/// The operation at this place has its buffer again, and has moved so far.
fn give_buffer<H>(
    streams: &mut Streams<Streaming<H>>,
    place: u32,
    came: Came,
    buffer: Option<Vec<u8>>,
)
    requires { is_some (found_in place streams.old.ops) ≡ true }
    ensures { streams.new ≡ given_at place came buffer streams.old }
{
    let item = streams.item_mut(place);
    item.buffer = buffer;
    item.moved = so_far(came, item.moved);
}

/// What a system call brought.
#[derive(Clone, Copy)]
pub(crate) struct Brought {
    pub(crate) came: Came,
    /// The name of what an accept made.
    pub(crate) made: Option<Name>,
}

/// The system call for the operation at this place has returned: its socket is in again, and what an accept
/// made is there.
pub(crate) fn take_back<H: Handler, C: Named>(
    table: &HistoryTable,
    keeper: &mut Keeper<C>,
    names: &mut NameTables,
    streams: &mut Streams<Streaming<H>>,
    tally: &mut Tally,
    name: Name,
    side: Side,
    place: u32,
    buffer: Option<Vec<u8>>,
    gave: Gave,
) -> Brought
    requires table { table.now ≡ C.table }
    requires none { keeper.old.held ≡ None }
    requires may { MayHappen (state_of C.limits keeper.old.past) (event.Back name side gave) }
    requires streams { ShowsStreams H.marks C.limits streams.old (state_of C.limits keeper.old.past) }
    requires within { name.place < length streams.old.streams }
    requires returnable { IsReturnable name side streams.old place gave }
    ensures came { CameAt place gave streams.old result.came }
    ensures made { result.made ≡ made_of gave (stream_at streams.old.streams name).reserved }
    ensures unused { MayOpen result.made streams.old.streams }
    ensures legal { IsLegal C.limits keeper.old.past }
    ensures past { keeper.new.past ≡ event.Back name side gave ∷ keeper.old.past }
    ensures none { keeper.new.held ≡ None }
    ensures names { names_of names.new
        ≡ with_made gave (stream_at streams.old.streams name).reserved (names_of names.old) }
    ensures streams { streams.new ≡ opened_of result.made (given_at place result.came buffer (back_in name streams.old)) }
    ensures tally { tally.new ≡ tally_back tally.old }
{
    keeper.learn(table);
    let reserved = streams.reserved(name);
    let made = made_of(gave, reserved);
    let came = came_at(streams, name, side, place, gave);
    note_back::<C, Brand>(table, keeper, name, side, gave);
    tally.come_in();
    settle_name(names, reserved, gave);
    streams.set_back(name);
    give_buffer(streams, place, came, buffer);
    open_made(streams, made);
    Brought { came, made }
}
