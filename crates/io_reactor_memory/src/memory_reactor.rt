ghost use Rattle.std.specs.Prelude.{◌≡◌, true, Some, IfOk};
ghost use Rattle.io_reactor.specs.Answers.{MayAccept};
ghost use Rattle.io_reactor.specs.Peer.{IsNew};
ghost use Rattle.io_reactor_memory.specs.Playing.{IsConnectOf, IsListenerOf, Plays, visits_left};

use crate::memory_socket::MemorySocket;
use crate::place_edges::PlaceEdges;
use crate::script::{PollTurn, Script};
use asio_types::{Failed, NoMemory};
use io_reactor::{Accepted, Edges, Linked, Reactor, Transferred};
use io_rules::Name;
use std::alloc::Global;
use std::marker::Model;
use std::net::SocketAddr;
use std::sync::Wait;
use std::sync::atomic::{AtomicU64, Ordering};
use std::thread;

/// A reactor in memory that plays a script, and tells its bytes. Any number of threads may use it. It
/// reports an edge behind each call that would have to wait or moved fewer bytes than were asked for,
/// where more comes; once it said that a side is closed, it says nothing more of it.
///
/// Contracts see the script. It never waits. A `poll` that finds nothing lets its timeout pass on the clock, unless it was woken.
pub struct MemoryReactor<'s> {
    alloc: Global,
    script: &'s Script,
    /// How many listeners and connects were asked for, and how often the clock was read.
    listened: AtomicU64,
    connected: AtomicU64,
    read: AtomicU64,
    /// How many nanoseconds were waited for.
    waited: AtomicU64,
    /// Whether the next wait is ended: 1.
    woken: AtomicU64,
    places: Vec<PlaceEdges>,
}

impl<'s> Model for MemoryReactor<'s> {
    ghost use Rattle.io_reactor_memory.specs.declared.script.Script.{Script};

    ghost Value = { Script };

    ghost view = { λ r. r.script.now };
}

/// Its poll.
pub struct MemoryPoll<'s> {
    turns: &'s [PollTurn],
    faults: u64,
}

fn places_of(alloc: Global, most: u32) -> Result<Vec<PlaceEdges>, NoMemory> {
    let mut places = Vec::with_capacity(alloc, most as usize)?;
    for place in 0..most {
        places.push(PlaceEdges::at(place))?;
    }
    Ok(places)
}

impl<'s> MemoryReactor<'s> {
    /// A reactor and its poll, which play this script for names at so many places. Takes memory for the
    /// places; a socket takes memory for what its peer takes.
    pub fn make(
        alloc: Global,
        script: &'s Script,
        places: u32,
    ) -> Result<(MemoryReactor<'s>, MemoryPoll<'s>), NoMemory>
        ensures { IfOk result (λ made. made.0 ≡ script.now) }
    {
        let reactor = MemoryReactor {
            alloc,
            script,
            listened: AtomicU64::new(0),
            connected: AtomicU64::new(0),
            read: AtomicU64::new(0),
            waited: AtomicU64::new(0),
            woken: AtomicU64::new(0),
            places: places_of(alloc, places)?,
        };
        let poll = MemoryPoll {
            turns: script.polls.as_slice(),
            faults: 0,
        };
        Ok((reactor, poll))
    }

    fn place(&self, name: Name) -> Option<&PlaceEdges> {
        self.places.get(name.place as usize)
    }

    fn put_read(&self, socket: &mut MemorySocket<'s>)
        ensures { socket.new ≡ socket.old }
    {
        let name = socket.name();
        if let Some(place) = self.place(name) {
            place.put_read(socket.read_edge(), name.generation);
        }
    }

    fn put_write(&self, socket: &mut MemorySocket<'s>)
        ensures { socket.new ≡ socket.old }
    {
        let name = socket.name();
        if let Some(place) = self.place(name) {
            place.put_write(socket.write_edge(), name.generation);
        }
    }

    fn put_accept(&self, listener: &MemorySocket<'s>) {
        let name = listener.name();
        if let Some(place) = self.place(name) {
            place.put_read(listener.accept_edge(), name.generation);
        }
    }

    fn put_link(&self, socket: &MemorySocket<'s>) {
        let name = socket.name();
        if let Some(place) = self.place(name) {
            place.put_write(socket.link_edge(), name.generation);
        }
    }

    /// What the clock reads in the script.
    fn reading(&self) -> u64 {
        let clock = self.script.clock.as_slice();
        let at = self.read.fetch_add(1, Ordering::SeqCst);
        match (clock.get(at as usize), clock.last()) {
            (Some(reading), _) => *reading,
            (None, Some(last)) => *last,
            (None, None) => 0,
        }
    }

    /// Nothing was found: the timeout passes, unless a wake ends the wait.
    fn pass(&self, timeout: Option<u64>) {
        if self.woken.swap(0, Ordering::SeqCst) == 0 {
            let passes = timeout.unwrap_or(0);
            let waited = self.waited.load(Ordering::SeqCst);
            self.waited
                .store(waited.saturating_add(passes), Ordering::SeqCst);
            thread::yield_now();
        }
    }

    fn report(&self, edges: &mut Edges) {
        for place in &self.places {
            place.report(edges);
        }
    }
}

impl<'s> MemoryPoll<'s> {
    /// The next turn of its script.
    fn next(&mut self) -> PollTurn
        ensures { self.new.faults ≡ self.old.faults }
    {
        match self.turns.split_first() {
            Some((turn, others)) => {
                self.turns = others;
                *turn
            }
            None => PollTurn::Plain,
        }
    }
}

/// Whether a call is worth repeating only once an edge has come.
fn is_short(answer: Transferred, asked: usize) -> bool {
    match answer {
        Transferred::WouldBlock => true,
        Transferred::Bytes(count) => count < asked,
        Transferred::Failed(_) => false,
    }
}

impl<'s> Reactor for MemoryReactor<'s> {
    type Socket = MemorySocket<'s>;

    type Poll = MemoryPoll<'s>;

    ghost tells = { λ r. true };

    ghost name_of = { λ s. s.name };

    ghost told = { λ s. Some s.peer };

    ghost faults = { λ p. p.faults };

    /// The next reading of the script, and what was waited for.
    fn now(&self) -> u64 {
        self.reading()
            .saturating_add(self.waited.load(Ordering::SeqCst))
    }

    fn wake(&self) {
        self.woken.store(1, Ordering::SeqCst);
    }

    /// Fails where the script says so, or has no further listener.
    fn listen(&self, address: SocketAddr, name: Name) -> Result<MemorySocket<'s>, Failed>
        ensures named { IfOk result (λ socket. socket.name ≡ name) }
        ensures told_new { IfOk result (λ socket. IsNew true (Some socket.peer)) }
        ensures plays { IfOk result (IsListenerOf self.now.listeners.items) }
    {
        let at = self.listened.fetch_add(1, Ordering::SeqCst);
        match self.script.listeners.get(at as usize) {
            Some(Some(visits)) => Ok(MemorySocket::listener(
                self.alloc,
                name,
                address,
                visits.as_slice(),
            )),
            _ => Err(Failed),
        }
    }

    /// Fails where the script says so, or has no further connect, and for want of memory.
    fn connect(&self, _address: SocketAddr, name: Name) -> Result<MemorySocket<'s>, Failed>
        ensures named { IfOk result (λ socket. socket.name ≡ name) }
        ensures told_new { IfOk result (λ socket. IsNew true (Some socket.peer)) }
        ensures plays { IfOk result (IsConnectOf self.now.connects.items) }
    {
        let at = self.connected.fetch_add(1, Ordering::SeqCst);
        match self.script.connects.get(at as usize) {
            Some(Some(script)) => match MemorySocket::connecting(self.alloc, name, script) {
                Ok(socket) => Ok(socket),
                Err(NoMemory) => Err(Failed),
            },
            _ => Err(Failed),
        }
    }

    /// The address that a listener was made on.
    fn local_endpoint(&self, socket: &MemorySocket<'s>) -> Option<SocketAddr> {
        socket.local_endpoint()
    }

    /// What the next visit of the listener says. `Reset` also for want of memory.
    fn accept(&self, listener: &mut MemorySocket<'s>, name: Name) -> Accepted<MemorySocket<'s>>
        ensures made { MayAccept
            (λ socket. (socket.name ≡ name) × IsNew true (Some socket.peer)) result }
        ensures plays { Plays listener.old.visits result }
        ensures left { listener.new.visits ≡ visits_left listener.old.visits }
        ensures name { listener.new.name ≡ listener.old.name }
        ensures told_same { listener.new.peer ≡ listener.old.peer }
    {
        let gave = listener.accept(self.alloc, name);
        if let Accepted::WouldBlock = &gave {
            self.put_accept(listener);
        }
        gave
    }

    fn linked(&self, socket: &mut MemorySocket<'s>) -> Linked {
        let answer = socket.linked();
        if let Linked::WouldBlock = answer {
            self.put_link(socket);
        }
        answer
    }

    fn read_some(&self, socket: &mut MemorySocket<'s>, buf: &mut [u8]) -> Transferred {
        let answer = socket.read(buf);
        if is_short(answer, buf.len()) {
            self.put_read(socket);
        }
        answer
    }

    fn write_some(&self, socket: &mut MemorySocket<'s>, bytes: &[u8]) -> Transferred {
        let answer = socket.write(bytes);
        if is_short(answer, bytes.len()) {
            self.put_write(socket);
        }
        answer
    }

    fn shutdown(&self, socket: &mut MemorySocket<'s>) {
        socket.shut();
    }

    fn no_delay(&self, _socket: &mut MemorySocket<'s>, _on: bool) {}

    /// What was written is told by the script from then on.
    fn close(&self, socket: MemorySocket<'s>) {
        socket.close();
    }

    /// Fails exactly where the script says so.
    fn poll<R: Wait>(
        &self,
        _rt: &R,
        poll: &mut MemoryPoll<'s>,
        timeout: Option<u64>,
        edges: &mut Edges,
    ) -> Result<(), Failed> {
        edges.clear();
        match poll.next() {
            PollTurn::Plain => {}
            PollTurn::Reports(edge) => edges.push_reserved(edge),
            PollTurn::Fails => {
                poll.faults = poll.faults.saturating_add(1);
                return Err(Failed);
            }
        }
        self.report(edges);
        if edges.as_slice().is_empty() {
            self.pass(timeout);
        }
        Ok(())
    }

    fn finish(self, poll: MemoryPoll<'s>) {
        let MemoryPoll {
            turns: _,
            faults: _,
        } = poll;
        let MemoryReactor {
            alloc: _,
            script: _,
            listened: _,
            connected: _,
            read: _,
            waited: _,
            woken: _,
            places: _,
        } = self;
    }
}
