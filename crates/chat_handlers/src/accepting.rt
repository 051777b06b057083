ghost use Rattle.std.specs.Prelude.{◌≡◌};
ghost use Rattle.chat_handlers.specs.Chats.{Accepts, AcceptsIf, AcceptsNext, BeginsIf, Rests};

use crate::chat::Chat;
use crate::link::{set, until};
use crate::reading::begin;
use crate::room::Room;
use asio_types::Code;
use io_handlers::{Full, Initiator};
use io_rules::{Lane, Name};
use std::alloc::Global;

/// So many nanoseconds after an accept failed the next one is initiated.
const PAUSE: u64 = 100_000_000;

/// What clients are served with.
#[derive(Clone, Copy)]
pub struct Service {
    pub alloc: Global,
    /// What accepts them.
    pub listener: Name,
    /// A timer of that listener's own: where an accept fails, the next one waits for it.
    pub timer: Name,
    /// The strand of the room that is asked first.
    pub door: Name,
}

/// Accepts the next connection.
pub(crate) fn accept(io: &mut Initiator<Chat, Room>, service: Service)
    ensures next { AcceptsNext service io.old io.new }
    ensures grant { io.new.granted ≡ io.old.granted }
    ensures kept { io.new.kept ≡ io.old.kept }
{
    match io.accept(Lane::Own, service.listener, Chat::Accepted { service }) {
        Ok(()) => {}
        Err(Full(_)) => {}
    }
}

/// Waits for a while before the next connection is accepted.
fn rest(io: &mut Initiator<Chat, Room>, service: Service, now: u64)
    ensures rests { Rests service now io.old io.new }
    ensures grant { io.new.granted ≡ io.old.granted }
    ensures kept { io.new.kept ≡ io.old.kept }
{
    set(io, service.timer, until(now, PAUSE));
    match io.wait(service.timer, Lane::Own, Chat::Rested { service }) {
        Ok(()) => {}
        Err(Full(_)) => {}
    }
}

/// Begins with what was accepted, if anything was.
fn begin_if(io: &mut Initiator<Chat, Room>, service: Service, made: Option<Name>, now: u64)
    ensures begins { BeginsIf service.door made now io.old io.new }
    ensures grant { io.new.granted ≡ io.old.granted }
    ensures kept { io.new.kept ≡ io.old.kept }
{
    match made {
        None => {}
        Some(stream) => begin(io, service.alloc, service.door, stream, now),
    }
}

/// The next connection, and then this one.
fn take_turn(io: &mut Initiator<Chat, Room>, service: Service, made: Option<Name>, now: u64)
    ensures accepts { Accepts service made now io.old io.new }
    ensures grant { io.new.granted ≡ io.old.granted }
    ensures kept { io.new.kept ≡ io.old.kept }
{
    accept(io, service);
    begin_if(io, service, made, now);
}

/// The next connection and this one; where that failed the next one waits, and a listener that is closed
/// accepts no more.
pub(crate) fn accept_if(
    io: &mut Initiator<Chat, Room>,
    service: Service,
    code: Code,
    made: Option<Name>,
    now: u64,
)
    ensures accepts { AcceptsIf service code made now io.old io.new }
    ensures grant { io.new.granted ≡ io.old.granted }
    ensures kept { io.new.kept ≡ io.old.kept }
{
    match code {
        Code::Ok => take_turn(io, service, made, now),
        Code::Aborted => {}
        Code::Bad => {}
        _ => rest(io, service, now),
    }
}
