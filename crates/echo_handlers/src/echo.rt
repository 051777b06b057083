ghost use Rattle.std.specs.Prelude.{◌≡◌};
ghost use Rattle.echo_handlers.specs.declared.echo.Echo.TheVariants as echo;
ghost use Rattle.io_handlers.specs.Initiated.{MayInitiate, called};
ghost use Rattle.echo_handlers.specs.Echoed.{Accepts, AcceptsIf, AcceptsNext, Answers, Begins, BeginsIf, GoesOn, MayEcho, Reads, ReadsOn, Rests, StartsIf, WaitsOn, Watches, accepting, closed, heard, idling, lane_of, left, linked, most, parted, reading, resting, set, until, writing};

use asio_types::Code;
use io_handlers::{Completion, Full, FullTransfer, Handler, Initiator};
use io_rules::{Lane, Name};
use std::alloc::Global;

/// How many bytes one read takes at most.
const MOST: usize = 4096;

/// So many nanoseconds after an accept failed the next one is initiated.
const PAUSE: u64 = 100_000_000;

/// What the handlers of a connection share, on its strand.
#[derive(Drop)]
pub struct Activity {
    /// Until this time of the context's clock the connection is kept though nothing comes.
    pub until: u64,
}

/// What connections are served with.
#[derive(Clone, Copy)]
pub struct Service {
    pub alloc: Global,
    /// What accepts them.
    pub listener: Name,
    /// A timer of that listener's own: where an accept fails, the next one waits for it.
    pub timer: Name,
    /// For so many nanoseconds nothing may come before a connection is closed.
    pub idle: u64,
}

/// A connection.
#[derive(Clone, Copy)]
pub struct Link {
    /// Its stream.
    pub stream: Name,
    /// The timer that watches it.
    pub timer: Name,
    /// The strand on which its handlers execute.
    pub strand: Name,
    /// For so many nanoseconds nothing may come before it is closed.
    pub idle: u64,
}

/// What the server does when an operation has completed.
#[derive(Drop)]
pub enum Echo {
    /// A connection was accepted, or that failed.
    Accepted { service: Service },
    /// An accept failed, and its listener's timer has expired.
    Rested { service: Service },
    /// Bytes came.
    Came { link: Link },
    /// All of them are written back.
    Written { link: Link },
    /// Its timer has expired, or is destroyed.
    Idle { link: Link },
}

/// The time that is so many nanoseconds later.
fn until(now: u64, idle: u64) -> u64
    ensures { result ≡ until now idle }
{
    now.saturating_add(idle)
}

/// Where the handlers of a connection execute.
fn lane_of(link: Link) -> Lane
    ensures { result ≡ lane_of link }
{
    Lane::Strand(link.strand)
}

/// A connection that is served so.
fn link_of(service: Service, stream: Name, timer: Name, strand: Name) -> Link
    ensures { result ≡ linked service stream timer strand }
{
    Link {
        stream,
        timer,
        strand,
        idle: service.idle,
    }
}

/// Closes a stream.
fn close(io: &mut Initiator<Echo, Activity>, stream: Name)
    ensures closed { io.new ≡ closed stream io.old }
    ensures grant { io.new.granted ≡ io.old.granted }
    ensures kept { io.new.kept ≡ io.old.kept }
{
    let _closed = io.close(stream);
}

/// Frees a strand.
fn free(io: &mut Initiator<Echo, Activity>, strand: Name)
    ensures freed { io.new ≡ left strand io.old }
    ensures grant { io.new.granted ≡ io.old.granted }
    ensures kept { io.new.kept ≡ io.old.kept }
{
    let _freed = io.free_strand(strand);
}

/// Closes a connection, destroys its timer, and frees its strand.
fn part(io: &mut Initiator<Echo, Activity>, link: Link)
    ensures parted { io.new ≡ parted link io.old }
    ensures grant { io.new.granted ≡ io.old.granted }
    ensures kept { io.new.kept ≡ io.old.kept }
{
    close(io, link.stream);
    let _freed = io.free_timer(link.timer);
    free(io, link.strand);
}

/// Reads into this buffer; closes the connection where no place is left.
fn read(io: &mut Initiator<Echo, Activity>, link: Link, buffer: Vec<u8>)
    ensures reads { GoesOn link (reading link buffer) io.old io.new }
    ensures grant { io.new.granted ≡ io.old.granted }
    ensures kept { io.new.kept ≡ io.old.kept }
{
    match io.read_some(lane_of(link), link.stream, buffer, Echo::Came { link }) {
        Ok(()) => {}
        Err(
            FullTransfer {
                buffer: _,
                handler: _,
            },
        ) => part(io, link),
    }
}

/// Writes the first so many bytes of this buffer. Likewise.
fn write(io: &mut Initiator<Echo, Activity>, link: Link, buffer: Vec<u8>, size: u64)
    ensures writes { GoesOn link (writing link size buffer) io.old io.new }
    ensures grant { io.new.granted ≡ io.old.granted }
    ensures kept { io.new.kept ≡ io.old.kept }
{
    match io.write_all(
        lane_of(link),
        link.stream,
        buffer,
        size,
        Echo::Written { link },
    ) {
        Ok(()) => {}
        Err(
            FullTransfer {
                buffer: _,
                handler: _,
            },
        ) => part(io, link),
    }
}

/// Waits for the timer of a connection. Likewise.
fn wait(io: &mut Initiator<Echo, Activity>, link: Link)
    ensures waits { GoesOn link (idling link) io.old io.new }
    ensures grant { io.new.granted ≡ io.old.granted }
    ensures kept { io.new.kept ≡ io.old.kept }
{
    match io.wait(link.timer, lane_of(link), Echo::Idle { link }) {
        Ok(()) => {}
        Err(Full(_)) => part(io, link),
    }
}

/// A timer expires at this time.
fn set(io: &mut Initiator<Echo, Activity>, timer: Name, at: u64)
    ensures set { io.new ≡ set timer at io.old }
    ensures grant { io.new.granted ≡ io.old.granted }
    ensures kept { io.new.kept ≡ io.old.kept }
{
    let _set = io.expires_at(timer, at);
}

/// That of a connection does, and is waited for.
fn watch(io: &mut Initiator<Echo, Activity>, link: Link, at: u64)
    ensures watches { Watches link at io.old io.new }
    ensures grant { io.new.granted ≡ io.old.granted }
    ensures kept { io.new.kept ≡ io.old.kept }
{
    set(io, link.timer, at);
    wait(io, link);
}

/// The first read of a connection; closes it where there is no memory for its buffer.
fn read_first(io: &mut Initiator<Echo, Activity>, alloc: Global, link: Link)
    ensures reads { Reads link io.old io.new }
    ensures grant { io.new.granted ≡ io.old.granted }
    ensures kept { io.new.kept ≡ io.old.kept }
{
    match vec![in alloc; 0; MOST] {
        Err(_) => part(io, link),
        Ok(buffer) => read(io, link, buffer),
    }
}

/// A connection that has a strand is watched, and its first bytes are read; it is closed where no timer is
/// left.
fn start(io: &mut Initiator<Echo, Activity>, service: Service, stream: Name, strand: Name, now: u64)
    ensures starts { StartsIf service stream strand now io.old io.new }
    ensures grant { io.new.granted ≡ io.old.granted }
    ensures kept { io.new.kept ≡ io.old.kept }
{
    match io.make_timer() {
        None => {
            close(io, stream);
            free(io, strand);
        }
        Some(timer) => {
            let link = link_of(service, stream, timer, strand);
            watch(io, link, until(now, service.idle));
            read_first(io, service.alloc, link);
        }
    }
}

/// A new connection starts on a strand of its own; it is closed where none is left.
fn begin(io: &mut Initiator<Echo, Activity>, service: Service, stream: Name, now: u64)
    ensures begins { Begins service stream now io.old io.new }
    ensures grant { io.new.granted ≡ io.old.granted }
    ensures kept { io.new.kept ≡ io.old.kept }
{
    match io.make_strand(Activity { until: 0 }) {
        Err(Full(_)) => close(io, stream),
        Ok(strand) => start(io, service, stream, strand, now),
    }
}

/// Likewise of what was accepted, if anything was.
fn begin_if(io: &mut Initiator<Echo, Activity>, service: Service, made: Option<Name>, now: u64)
    ensures begins { BeginsIf service made now io.old io.new }
    ensures grant { io.new.granted ≡ io.old.granted }
    ensures kept { io.new.kept ≡ io.old.kept }
{
    match made {
        None => {}
        Some(stream) => begin(io, service, stream, now),
    }
}

/// Accepts the next connection.
fn accept(io: &mut Initiator<Echo, Activity>, service: Service)
    ensures next { AcceptsNext service io.old io.new }
    ensures grant { io.new.granted ≡ io.old.granted }
    ensures kept { io.new.kept ≡ io.old.kept }
{
    match io.accept(Lane::Own, service.listener, Echo::Accepted { service }) {
        Ok(()) => {}
        Err(Full(_)) => {}
    }
}

/// The next connection, and then this one.
fn take_turn(io: &mut Initiator<Echo, Activity>, service: Service, made: Option<Name>, now: u64)
    ensures accepts { Accepts service made now io.old io.new }
    ensures grant { io.new.granted ≡ io.old.granted }
    ensures kept { io.new.kept ≡ io.old.kept }
{
    accept(io, service);
    begin_if(io, service, made, now);
}

/// Waits for a while before the next connection is accepted.
fn rest(io: &mut Initiator<Echo, Activity>, service: Service, now: u64)
    ensures rests { Rests service now io.old io.new }
    ensures grant { io.new.granted ≡ io.old.granted }
    ensures kept { io.new.kept ≡ io.old.kept }
{
    set(io, service.timer, until(now, PAUSE));
    match io.wait(service.timer, Lane::Own, Echo::Rested { service }) {
        Ok(()) => {}
        Err(Full(_)) => {}
    }
}

/// The next connection and this one; where that failed the next one waits, and a listener that is closed
/// accepts no more.
fn accept_if(
    io: &mut Initiator<Echo, Activity>,
    service: Service,
    code: Code,
    made: Option<Name>,
    now: u64,
)
    ensures accepts { AcceptsIf service code made now io.old io.new }
    ensures grant { io.new.granted ≡ io.old.granted }
    ensures kept { io.new.kept ≡ io.old.kept }
{
    match code {
        Code::Ok => take_turn(io, service, made, now),
        Code::Aborted => {}
        Code::Bad => {}
        _ => rest(io, service, now),
    }
}

/// What came goes back; at the end or an error the connection is closed.
fn answer(
    io: &mut Initiator<Echo, Activity>,
    link: Link,
    code: Code,
    size: u64,
    buffer: Option<Vec<u8>>,
)
    ensures answers { Answers link code size buffer io.old io.new }
    ensures grant { io.new.granted ≡ io.old.granted }
    ensures kept { io.new.kept ≡ io.old.kept }
{
    match (code, buffer) {
        (Code::Ok, Some(buffer)) => write(io, link, buffer, size),
        _ => part(io, link),
    }
}

/// All of it is written: more is read. Likewise.
fn read_on(io: &mut Initiator<Echo, Activity>, link: Link, code: Code, buffer: Option<Vec<u8>>)
    ensures reads { ReadsOn link code buffer io.old io.new }
    ensures grant { io.new.granted ≡ io.old.granted }
    ensures kept { io.new.kept ≡ io.old.kept }
{
    match (code, buffer) {
        (Code::Ok, Some(buffer)) => read(io, link, buffer),
        _ => part(io, link),
    }
}

/// Closes a connection whose timer has expired, or waits again where it is kept for longer.
fn wait_on(io: &mut Initiator<Echo, Activity>, link: Link, code: Code, now: u64, kept: u64)
    ensures waits { WaitsOn link code now kept io.old io.new }
    ensures grant { io.new.granted ≡ io.old.granted }
    ensures kept { io.new.kept ≡ io.old.kept }
{
    match code {
        Code::Ok => {
            if now < kept {
                watch(io, link, kept);
            } else {
                part(io, link);
            }
        }
        _ => {}
    }
}

impl Echo {
    /// Until when its connection is kept, which was this time before.
    fn heard(&self, code: Code, now: u64, kept: u64) -> u64
        ensures { result ≡ heard self.now code now kept }
    {
        match (self, code) {
            (Echo::Came { link }, Code::Ok) => until(now, link.idle),
            _ => kept,
        }
    }

    /// What it does, where its connection is kept until this time.
    fn perform(self, done: Completion, kept: u64, io: &mut Initiator<Echo, Activity>)
        ensures may { MayEcho kept self done io.old io.new }
        ensures grant { io.new.granted ≡ io.old.granted }
        ensures kept { io.new.kept ≡ io.old.kept }
    {
        let Completion {
            code,
            size,
            buffer,
            made,
            now,
        } = done;
        match self {
            Echo::Accepted { service } => accept_if(io, service, code, made, now),
            Echo::Rested { service } => accept(io, service),
            Echo::Came { link } => answer(io, link, code, size, buffer),
            Echo::Written { link } => read_on(io, link, code, buffer),
            Echo::Idle { link } => wait_on(io, link, code, now, kept),
        }
    }
}

impl Handler for Echo {
    type State = Activity;

    ghost marks = { λ _. record { run = 1; drop = 0 } };

    ghost may = { λ handler done old new io later.
        (new.until ≡ heard handler done.code done.now old.until) × MayEcho old.until handler done io later };

    ghost may_free = { MayEcho 0 };

    fn call(
        self,
        done: Completion,
        state: &mut Activity,
        io: &mut Initiator<Echo, Activity>,
    ) -> u64 {
        let kept = state.until;
        state.until = self.heard(done.code, done.now, kept);
        self.perform(done, kept, io);
        1
    }

    fn call_free(self, done: Completion, io: &mut Initiator<Echo, Activity>) -> u64 {
        self.perform(done, 0, io);
        1
    }

    fn discard(self) -> u64 {
        let _unused = self;
        0
    }

    fn retire(state: Activity) {
        let _unused = state;
    }
}
