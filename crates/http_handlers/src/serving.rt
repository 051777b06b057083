ghost use Rattle.std.specs.Prelude.{◌≡◌, IfOk, vec_len};
ghost use Rattle.http_handlers.specs.declared.answer.Status.TheVariants as status;
ghost use Rattle.http_handlers.specs.Answers.{printed, refused};
ghost use Rattle.http_handlers.specs.Accepting.{closed, lane_of, until};
ghost use Rattle.http_handlers.specs.Serving.{Answers, Begins, GoesOn, HearsUnless, IsFirst, ReadsFirst, ReadsNext, ReadsOn, Takes, Tells, WaitsOn, Watches, came_in, idling, linked, most_read, parted, reading, refusing, writing};

use crate::answer::{Answer, Status};
use crate::connection::Connection;
use crate::http::{Exchange, Http};
use asio_types::{Code, NoMemory};
use io_handlers::{Full, FullTransfer, Initiator};
use io_rules::{Lane, Name};
use std::alloc::Global;

/// How many bytes one read takes at most.
pub const MOST_READ: usize = 4096;

/// What the handlers of a connection share, on its strand.
#[derive(Drop)]
pub struct Activity {
    /// By this time of the context's clock the next head has to be whole.
    pub until: u64,
    /// Whether a head has begun, and more of it is read.
    pub begun: bool,
    /// Whether the client was told that it is too slow.
    pub over: bool,
}

/// What connections are served with.
#[derive(Clone, Copy)]
pub struct Service<'a> {
    pub alloc: Global,
    /// What accepts them.
    pub listener: Name,
    /// A head has to be whole so many nanoseconds after the last answer.
    pub idle: u64,
    /// Where the handlers of each connection execute, by the place of its stream: strands of their own.
    pub lanes: &'a [Lane],
}

/// A connection's stream, and what watches it.
#[derive(Clone, Copy)]
pub struct Link {
    pub alloc: Global,
    pub stream: Name,
    pub timer: Name,
    /// Where its handlers execute.
    pub lane: Lane,
    /// A head has to be whole so many nanoseconds after the last answer.
    pub idle: u64,
}

/// The time that is so many nanoseconds later.
pub(crate) fn until(now: u64, idle: u64) -> u64
    ensures { result ≡ until now idle }
{
    now.saturating_add(idle)
}

/// Where the handlers of a connection execute.
pub(crate) fn lane_of(lanes: &[Lane], stream: Name) -> Lane
    ensures { result ≡ lane_of lanes.now stream }
{
    match lanes.get(stream.place as usize) {
        Some(lane) => *lane,
        None => Lane::Own,
    }
}

/// A connection that is served so.
fn link_of(service: Service<'_>, stream: Name, timer: Name) -> Link
    ensures { result ≡ linked service.entry stream timer }
{
    Link {
        alloc: service.alloc,
        stream,
        timer,
        lane: lane_of(service.lanes, stream),
        idle: service.idle,
    }
}

/// Closes a stream.
pub(crate) fn close(io: &mut Initiator<Http<'_>, Activity>, stream: Name)
    ensures closed { io.new ≡ closed stream io.old }
    ensures grant { io.new.granted ≡ io.old.granted }
    ensures kept { io.new.kept ≡ io.old.kept }
{
    let _closed = io.close(stream);
}

/// Closes a connection, and destroys its timer.
pub(crate) fn part(io: &mut Initiator<Http<'_>, Activity>, link: Link)
    ensures parted { io.new ≡ parted link io.old }
    ensures grant { io.new.granted ≡ io.old.granted }
    ensures kept { io.new.kept ≡ io.old.kept }
{
    close(io, link.stream);
    let _freed = io.free_timer(link.timer);
}

/// Reads into this buffer; closes the connection where no place is left.
fn read(io: &mut Initiator<Http<'_>, Activity>, exchange: Exchange, buffer: Vec<u8>)
    ensures reads { GoesOn exchange.link (reading exchange buffer) io.old io.new }
    ensures grant { io.new.granted ≡ io.old.granted }
    ensures kept { io.new.kept ≡ io.old.kept }
{
    let link = exchange.link;
    match io.read_some(link.lane, link.stream, buffer, Http::Came { exchange }) {
        Ok(()) => {}
        Err(
            FullTransfer {
                buffer: _,
                handler: _,
            },
        ) => part(io, link),
    }
}

/// Writes the answers of an exchange. Likewise.
fn write(io: &mut Initiator<Http<'_>, Activity>, exchange: Exchange, reading: Vec<u8>)
    ensures writes { GoesOn exchange.link (writing exchange reading) io.old io.new }
    ensures grant { io.new.granted ≡ io.old.granted }
    ensures kept { io.new.kept ≡ io.old.kept }
{
    let Exchange {
        link,
        connection,
        answers,
    } = exchange;
    let size = answers.len() as u64;
    let written = Http::Written {
        link,
        connection,
        reading,
    };
    match io.write_all(link.lane, link.stream, answers, size, written) {
        Ok(()) => {}
        Err(
            FullTransfer {
                buffer: _,
                handler: _,
            },
        ) => part(io, link),
    }
}

/// Writes the last answer of a connection. Likewise.
fn write_last(io: &mut Initiator<Http<'_>, Activity>, link: Link, answer: Vec<u8>)
    ensures writes { GoesOn link (refusing link answer) io.old io.new }
    ensures grant { io.new.granted ≡ io.old.granted }
    ensures kept { io.new.kept ≡ io.old.kept }
{
    let size = answer.len() as u64;
    match io.write_all(link.lane, link.stream, answer, size, Http::Refused { link }) {
        Ok(()) => {}
        Err(
            FullTransfer {
                buffer: _,
                handler: _,
            },
        ) => part(io, link),
    }
}

/// Waits for the timer of a connection. Likewise.
fn wait(io: &mut Initiator<Http<'_>, Activity>, link: Link)
    ensures waits { GoesOn link (idling link) io.old io.new }
    ensures grant { io.new.granted ≡ io.old.granted }
    ensures kept { io.new.kept ≡ io.old.kept }
{
    match io.wait(link.timer, link.lane, Http::Idle { link }) {
        Ok(()) => {}
        Err(Full(_)) => part(io, link),
    }
}

/// Its timer expires at this time, and is waited for.
fn watch(io: &mut Initiator<Http<'_>, Activity>, link: Link, at: u64)
    ensures watches { Watches link at io.old io.new }
    ensures grant { io.new.granted ≡ io.old.granted }
    ensures kept { io.new.kept ≡ io.old.kept }
{
    let _set = io.expires_at(link.timer, at);
    wait(io, link);
}

/// A new exchange, and the buffer for what comes.
fn first_of(link: Link) -> Result<(Exchange, Vec<u8>), NoMemory>
    ensures { IfOk result (λ r. IsFirst link r.0 × (vec_len r.1 ≡ most_read)) }
{
    let buffer = vec![in link.alloc; 0; MOST_READ]?;
    let exchange = Exchange {
        link,
        connection: Connection::new(link.alloc),
        answers: Vec::new(link.alloc),
    };
    Ok((exchange, buffer))
}

/// The first read of a connection; closes it where there is no memory for its buffer.
fn read_first(io: &mut Initiator<Http<'_>, Activity>, link: Link)
    ensures reads { ReadsFirst link io.old io.new }
    ensures grant { io.new.granted ≡ io.old.granted }
    ensures kept { io.new.kept ≡ io.old.kept }
{
    match first_of(link) {
        Err(_) => part(io, link),
        Ok((exchange, buffer)) => read(io, exchange, buffer),
    }
}

/// A new connection is watched, and its first bytes are read; it is closed where no timer is left.
pub(crate) fn begin(
    io: &mut Initiator<Http<'_>, Activity>,
    state: &mut Activity,
    service: Service<'_>,
    stream: Name,
    now: u64,
)
    ensures begins { Begins service.entry stream now state.old state.new io.old io.new }
    ensures grant { io.new.granted ≡ io.old.granted }
    ensures kept { io.new.kept ≡ io.old.kept }
{
    match io.make_timer() {
        None => close(io, stream),
        Some(timer) => {
            let link = link_of(service, stream, timer);
            let at = until(now, service.idle);
            *state = Activity {
                until: at,
                begun: false,
                over: false,
            };
            watch(io, link, at);
            read_first(io, link);
        }
    }
}

/// The bytes that came in a buffer.
fn came_in(buffer: &Vec<u8>, size: u64) -> &[u8]
    ensures { result.now ≡ came_in size buffer.now }
{
    let bytes = buffer.as_slice();
    &bytes[..(size as usize).min(bytes.len())]
}

/// What came is fed to the connection, and its answers are written; without any more is read.
fn go_on(
    io: &mut Initiator<Http<'_>, Activity>,
    state: &mut Activity,
    exchange: Exchange,
    buffer: Vec<u8>,
)
    ensures answers { Answers exchange buffer state.old state.new io.old io.new }
    ensures grant { io.new.granted ≡ io.old.granted }
    ensures kept { io.new.kept ≡ io.old.kept }
{
    if exchange.answers.is_empty() {
        state.begun = exchange.connection.has_begun();
        read(io, exchange, buffer);
    } else {
        state.begun = false;
        write(io, exchange, buffer);
    }
}

/// Bytes came.
fn take(
    io: &mut Initiator<Http<'_>, Activity>,
    state: &mut Activity,
    mut exchange: Exchange,
    buffer: Vec<u8>,
    size: u64,
)
    ensures takes { Takes exchange (came_in size buffer) buffer state.old state.new io.old io.new }
    ensures grant { io.new.granted ≡ io.old.granted }
    ensures kept { io.new.kept ≡ io.old.kept }
{
    match exchange
        .connection
        .feed(came_in(&buffer, size), &mut exchange.answers)
    {
        Err(_) => part(io, exchange.link),
        Ok(()) => go_on(io, state, exchange, buffer),
    }
}

/// Likewise, or the end, or an error.
pub(crate) fn came(
    io: &mut Initiator<Http<'_>, Activity>,
    state: &mut Activity,
    exchange: Exchange,
    code: Code,
    size: u64,
    buffer: Option<Vec<u8>>,
)
    ensures hears { HearsUnless state.old.over exchange code size buffer state.old state.new io.old io.new }
    ensures grant { io.new.granted ≡ io.old.granted }
    ensures kept { io.new.kept ≡ io.old.kept }
{
    if state.over {
        return;
    }
    match (code, buffer) {
        (Code::Ok, Some(buffer)) => take(io, state, exchange, buffer, size),
        _ => part(io, exchange.link),
    }
}

/// More is read, and the next head has its time from now on.
fn read_next(
    io: &mut Initiator<Http<'_>, Activity>,
    state: &mut Activity,
    link: Link,
    connection: Connection,
    reading: Vec<u8>,
    mut answers: Vec<u8>,
    now: u64,
)
    ensures reads { ReadsNext link connection reading now state.old state.new io.old io.new }
    ensures grant { io.new.granted ≡ io.old.granted }
    ensures kept { io.new.kept ≡ io.old.kept }
{
    answers.clear();
    state.until = until(now, link.idle);
    state.begun = connection.has_begun();
    let exchange = Exchange {
        link,
        connection,
        answers,
    };
    read(io, exchange, reading);
}

/// All answers are written: more is read, unless the last one closes.
pub(crate) fn written(
    io: &mut Initiator<Http<'_>, Activity>,
    state: &mut Activity,
    link: Link,
    connection: Connection,
    reading: Vec<u8>,
    code: Code,
    buffer: Option<Vec<u8>>,
    now: u64,
)
    ensures reads { ReadsOn link connection reading code buffer now state.old state.new io.old io.new }
    ensures grant { io.new.granted ≡ io.old.granted }
    ensures kept { io.new.kept ≡ io.old.kept }
{
    match (code, buffer) {
        (Code::Ok, Some(answers)) => {
            if connection.is_closed() {
                part(io, link);
            } else {
                read_next(io, state, link, connection, reading, answers, now);
            }
        }
        _ => part(io, link),
    }
}

/// The answer to a client that is too slow.
fn late(alloc: Global) -> Result<Vec<u8>, NoMemory>
    ensures { IfOk result (λ answer. answer.items ≡ printed (refused status.RequestTimeout)) }
{
    let mut answer = Vec::new(alloc);
    Answer::refusal(Status::RequestTimeout).write(&mut answer)?;
    Ok(answer)
}

/// A client whose head doesn't come whole in time is told so, and watched until it has taken that.
fn tell_late(io: &mut Initiator<Http<'_>, Activity>, state: &mut Activity, link: Link, now: u64)
    ensures tells { Tells link now state.old state.new io.old io.new }
    ensures grant { io.new.granted ≡ io.old.granted }
    ensures kept { io.new.kept ≡ io.old.kept }
{
    match late(link.alloc) {
        Err(_) => part(io, link),
        Ok(answer) => {
            let at = until(now, link.idle);
            *state = Activity {
                until: at,
                begun: false,
                over: true,
            };
            watch(io, link, at);
            write_last(io, link, answer);
        }
    }
}

/// Its timer has expired: a connection in use is watched on.
pub(crate) fn wait_on(
    io: &mut Initiator<Http<'_>, Activity>,
    state: &mut Activity,
    link: Link,
    code: Code,
    now: u64,
)
    ensures waits { WaitsOn link code now state.old state.new io.old io.new }
    ensures grant { io.new.granted ≡ io.old.granted }
    ensures kept { io.new.kept ≡ io.old.kept }
{
    match code {
        Code::Ok => {
            if now < state.until {
                watch(io, link, state.until);
            } else if state.begun {
                tell_late(io, state, link, now);
            } else {
                part(io, link);
            }
        }
        _ => {}
    }
}
