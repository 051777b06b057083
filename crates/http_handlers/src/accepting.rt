ghost use Rattle.std.specs.Prelude.{◌≡◌};
ghost use Rattle.io_handlers.specs.Initiated.{MayInitiate, called};
ghost use Rattle.http_handlers.specs.Accepting.{Accepts, AcceptsAgain, AcceptsBy, PassesIf, Pauses, Retries, accepting, freed, set};

use crate::http::Http;
use crate::serving::{Activity, Service, close, lane_of, until};
use asio_types::Code;
use io_handlers::{Full, Initiator};
use io_rules::{Lane, Name};

/// After an accept that failed, as without file descriptors, the next one waits for so many nanoseconds.
const PAUSE: u64 = 100_000_000;

/// It begins on its strand, if anything was accepted.
fn begin_if<'a>(io: &mut Initiator<Http<'a>, Activity>, service: Service<'a>, made: Option<Name>)
    ensures passes { PassesIf service.entry made io.old io.new }
    ensures grant { io.new.granted ≡ io.old.granted }
    ensures kept { io.new.kept ≡ io.old.kept }
{
    match made {
        None => {}
        Some(stream) => match io.post(
            lane_of(service.lanes, stream),
            Http::Begins { service, stream },
        ) {
            Ok(()) => {}
            Err(Full(_)) => close(io, stream),
        },
    }
}

/// Accepts the next connection.
fn accept<'a>(io: &mut Initiator<Http<'a>, Activity>, service: Service<'a>)
    ensures next { MayInitiate io.old → io.new ≡ called (accepting service.entry) io.old }
    ensures none { ¬ MayInitiate io.old → io.new ≡ io.old }
    ensures grant { io.new.granted ≡ io.old.granted }
    ensures kept { io.new.kept ≡ io.old.kept }
{
    match io.accept(Lane::Own, service.listener, Http::Accepted { service }) {
        Ok(()) => {}
        Err(Full(_)) => {}
    }
}

/// The next connection, and then this one.
fn take_turn<'a>(io: &mut Initiator<Http<'a>, Activity>, service: Service<'a>, made: Option<Name>)
    ensures accepts { Accepts service.entry made io.old io.new }
    ensures grant { io.new.granted ≡ io.old.granted }
    ensures kept { io.new.kept ≡ io.old.kept }
{
    accept(io, service);
    begin_if(io, service, made);
}

/// A timer expires at this time.
fn set(io: &mut Initiator<Http<'_>, Activity>, timer: Name, at: u64)
    ensures set { io.new ≡ set timer at io.old }
    ensures grant { io.new.granted ≡ io.old.granted }
    ensures kept { io.new.kept ≡ io.old.kept }
{
    let _set = io.expires_at(timer, at);
}

/// The next connection is accepted once a timer expires.
fn retry<'a>(io: &mut Initiator<Http<'a>, Activity>, service: Service<'a>, timer: Name)
    ensures retries { Retries service.entry timer io.old io.new }
    ensures grant { io.new.granted ≡ io.old.granted }
    ensures kept { io.new.kept ≡ io.old.kept }
{
    match io.wait(timer, Lane::Own, Http::Paused { service, timer }) {
        Ok(()) => {}
        Err(Full(_)) => {}
    }
}

/// The next connection is accepted after a pause; at once where no timer is left.
fn pause<'a>(io: &mut Initiator<Http<'a>, Activity>, service: Service<'a>, now: u64)
    ensures pauses { Pauses service.entry now io.old io.new }
    ensures grant { io.new.granted ≡ io.old.granted }
    ensures kept { io.new.kept ≡ io.old.kept }
{
    match io.make_timer() {
        None => accept(io, service),
        Some(timer) => {
            set(io, timer, until(now, PAUSE));
            retry(io, service, timer);
        }
    }
}

/// A connection was accepted, or that failed, or the listener is gone.
pub(crate) fn accepted<'a>(
    io: &mut Initiator<Http<'a>, Activity>,
    service: Service<'a>,
    code: Code,
    made: Option<Name>,
    now: u64,
)
    ensures accepts { AcceptsBy code service.entry made now io.old io.new }
    ensures grant { io.new.granted ≡ io.old.granted }
    ensures kept { io.new.kept ≡ io.old.kept }
{
    match code {
        Code::Ok => take_turn(io, service, made),
        Code::Aborted | Code::Bad => {}
        Code::Eof => pause(io, service, now),
        Code::NotFound => pause(io, service, now),
        Code::Broken => pause(io, service, now),
        Code::Reset => pause(io, service, now),
    }
}

/// A pause is over: the next connection is accepted.
pub(crate) fn paused<'a>(io: &mut Initiator<Http<'a>, Activity>, service: Service<'a>, timer: Name)
    ensures accepts { AcceptsAgain service.entry timer io.old io.new }
    ensures grant { io.new.granted ≡ io.old.granted }
    ensures kept { io.new.kept ≡ io.old.kept }
{
    accept(io, service);
    let _freed = io.free_timer(timer);
}
