ghost use Rattle.std.specs.Prelude.{◌≡◌, ◌<◌, vec_capacity, vec_len};
ghost use Rattle.io_context.specs.Sleeping.{is_any_listed};

use crate::calls::CallLists;
use crate::system_call::{Answer, SystemCall, blocked, close};
use asio_types::NoMemory;
use io_handlers::{Handler, Staging, Touched};
use io_history::{HistoryTable, Named};
use io_reactor::{Edge, Reactor, Readiness};
use io_rules::{Gave, Name, Side};
use io_scheduler::{Attempt, Scheduler};
use io_sockets::{Held, Outcome, Sockets, Stand, Turn, WaitType};
use std::alloc::Global;

/// So many sockets are looked at before handlers.
const MANY_LISTED: usize = 16;

/// Sockets that are to be closed with the lock free.
pub(crate) struct Leaving<S> {
    pub(crate) socket: Option<S>,
    pub(crate) made: Option<S>,
    pub(crate) left: Option<S>,
}

/// Those that are to be closed, if there are any.
fn left_of<S>(socket: Option<S>, made: Option<S>, left: Option<S>) -> Option<Leaving<S>> {
    match (socket, made, left) {
        (None, None, None) => None,
        (socket, made, left) => Some(Leaving { socket, made, left }),
    }
}

/// The sockets of a context, of which each is here, or with one worker.
pub(crate) struct SocketSet<S> {
    pub(crate) sockets: Sockets<S>,
    /// How many places there are.
    pub(crate) places: u32,
    /// Whether an accept waits for a free place.
    pub(crate) starved: bool,
    /// For the system calls that workers make.
    pub(crate) lists: CallLists<S>,
}

/// Closes sockets, if there are any.
pub(crate) fn close_those<W: Reactor>(reactor: &W, leaving: Option<Leaving<W::Socket>>) {
    match leaving {
        None => {}
        Some(leaving) => {
            let Leaving { socket, made, left } = leaving;
            close(reactor, socket);
            close(reactor, made);
            close(reactor, left);
        }
    }
}

/// Whether a name was kept for what an accept makes, and it made nothing.
fn is_unused(reserved: Option<Name>, gave: Gave) -> bool {
    reserved.is_some() && !matches!(gave, Gave::Made)
}

impl<S> SocketSet<S> {
    /// So many places without sockets. Takes memory for all of them; `NoMemory` where it is refused.
    pub(crate) fn make<W: Reactor<Socket = S>>(
        alloc: Global,
        places: u32,
        reactor: &W,
    ) -> Result<SocketSet<S>, NoMemory> {
        let lists = CallLists::make(alloc, reactor)?;
        match Sockets::make(alloc, places) {
            Ok(sockets) => Ok(SocketSet {
                sockets,
                places,
                starved: false,
                lists,
            }),
            Err(refused) => {
                lists.close(reactor);
                Err(refused)
            }
        }
    }

    /// Closes all that are here, and gives the memory back.
    pub(crate) fn close_all<W: Reactor<Socket = S>>(self, reactor: &W) {
        let SocketSet {
            sockets,
            places: _,
            starved: _,
            lists,
        } = self;
        lists.close(reactor);
        let mut stands = sockets.into_stands();
        'stands: while let Some(stand) = stands.pop() {
            let Stand {
                generation: _,
                held,
                reads: _,
                writes: _,
            } = stand;
            match held {
                Held::Here(Some(socket)) => reactor.close(socket),
                Held::Here(None) => {}
                Held::Gone => {}
                Held::Out { side: _, closed: _ } => {}
            }
        }
        stands.destroy_empty();
    }

    /// Whether one is to be looked at.
    pub(crate) fn is_any_listed(&self) -> bool
        ensures { result ≡ is_any_listed self.now }
    {
        self.sockets.turns() > 0
    }

    /// Whether so many are to be looked at that this comes before handlers.
    pub(crate) fn are_many_listed(&self) -> bool {
        self.sockets.turns() >= MANY_LISTED
    }

    /// One is to be looked at.
    pub(crate) fn list(&mut self, place: u32, wait: WaitType) {
        if self.sockets.has_place(place) {
            self.sockets.list(place, wait);
        }
    }

    /// The socket of this name is here, if one is waited for; what is to be closed comes out.
    pub(crate) fn add(&mut self, name: Name, socket: S) -> Option<Leaving<S>> {
        let left = self.sockets.renew(name);
        let made = self.note(name, socket);
        left_of(None, made, left)
    }

    /// The socket of this name is here; it comes out where it isn't waited for.
    fn note(&mut self, name: Name, socket: S) -> Option<S> {
        if self.sockets.is_awaited(name) {
            self.sockets.note(name, socket);
            None
        } else {
            Some(socket)
        }
    }

    /// What edges of a socket are noted; it is to be looked at.
    fn note_edge(&mut self, name: Name, wait: WaitType, readiness: Readiness) {
        match readiness {
            Readiness::Same => {}
            Readiness::Ready => self.sockets.edge(name, wait, false),
            Readiness::Closed => self.sockets.edge(name, wait, true),
        }
    }

    /// What a wait has found is noted.
    pub(crate) fn note_edges(&mut self, edges: &[Edge]) {
        for edge in edges {
            self.note_edge(edge.name, WaitType::Read, edge.read);
            self.note_edge(edge.name, WaitType::Write, edge.write);
        }
    }

    /// A worker takes a socket for a system call.
    fn take(&mut self, attempt: Attempt) -> SystemCall<S> {
        let left = match attempt.reserved {
            None => None,
            Some(name) => self.sockets.renew(name),
        };
        let socket = if self.sockets.may_be_taken(attempt.stream) {
            self.sockets.take(attempt.stream, attempt.side)
        } else {
            None
        };
        SystemCall {
            attempt,
            socket,
            left,
            answer: blocked(),
        }
    }

    /// A worker brings a socket back; one that isn't waited for comes out.
    fn give_back(&mut self, place: u32, socket: Option<S>, outcome: Outcome) -> Option<S> {
        if self.sockets.is_out(place) {
            self.sockets.put_back(place, socket, outcome)
        } else {
            socket
        }
    }

    /// What an accept made is here under the name that was kept for it; what isn't waited for comes out.
    fn note_made(&mut self, reserved: Option<Name>, made: Option<S>) -> Option<S> {
        let Some(name) = reserved else {
            return made;
        };
        match made {
            None => self.sockets.remove(name.place),
            Some(socket) => self.note(name, socket),
        }
    }

    /// Listeners whose accepts waited for a free place are to be looked at.
    pub(crate) fn list_listeners<H: Handler, C: Named>(&mut self, scheduler: &Scheduler<H, C>) {
        if !self.starved {
            return;
        }
        self.starved = false;
        for place in 0..self.places {
            if scheduler.has_listener(scheduler.stream_name(place)) {
                self.list(place, WaitType::Read);
            }
        }
    }

    /// What a handler staged for streams is to be looked at.
    pub(crate) fn touch<H: Handler>(&mut self, staging: &Staging<H, H::State>) -> bool {
        let mut closed = false;
        for index in 0..staging.calls() {
            match staging.touched(index) {
                None => {}
                Some(Touched::Read(name)) => self.list(name.place, WaitType::Read),
                Some(Touched::Write(name)) => self.list(name.place, WaitType::Write),
                Some(Touched::Closed(name)) => {
                    self.list(name.place, WaitType::Read);
                    closed = true;
                }
            }
        }
        closed
    }

    /// A system call of a side is to be made, if one is worth trying and may begin.
    fn call_on<H: Handler, C: Named>(
        &mut self,
        scheduler: &mut Scheduler<H, C>,
        table: &HistoryTable,
        name: Name,
        side: Side,
        calls: &mut Vec<SystemCall<S>>,
    )
        requires table { table.now ≡ C.table }
        requires room { vec_len calls.old < vec_capacity calls.old }
    {
        if !self.sockets.may_be_taken(name) || !self.sockets.is_ready(name, side) {
            return;
        }
        match scheduler.attempt(table, name, side) {
            None => self.starved = self.starved || scheduler.has_listener(name),
            Some(attempt) => calls.push_reserved(self.take(attempt)),
        }
    }

    /// A system call of a socket that was listed is to be made, if one may be. The socket comes out where its
    /// stream is gone, to be closed.
    fn look_at<H: Handler, C: Named>(
        &mut self,
        scheduler: &mut Scheduler<H, C>,
        table: &HistoryTable,
        turn: Turn,
        calls: &mut Vec<SystemCall<S>>,
    ) -> Option<S>
        requires table { table.now ≡ C.table }
        requires room { vec_len calls.old < vec_capacity calls.old }
    {
        let name = scheduler.stream_name(turn.place);
        if scheduler.has_stream(name) {
            let side = match turn.wait {
                WaitType::Read => Side::Read,
                WaitType::Write => Side::Write,
            };
            self.call_on(scheduler, table, name, side, calls);
            return None;
        }
        if self.sockets.has_socket(turn.place) {
            self.sockets.remove(turn.place)
        } else {
            None
        }
    }

    /// System calls of sockets that are listed are to be made, as far as there is room. The first socket comes
    /// out whose stream is gone, to be closed.
    pub(crate) fn look<H: Handler, C: Named>(
        &mut self,
        scheduler: &mut Scheduler<H, C>,
        table: &HistoryTable,
        calls: &mut Vec<SystemCall<S>>,
    ) -> Option<S>
        requires { table.now ≡ C.table }
    {
        if scheduler.is_stopped() {
            return None;
        }
        for _ in 0..self.sockets.turns() {
            if calls.len() >= calls.capacity() {
                return None;
            }
            let turn = self.sockets.next()?;
            match self.look_at(scheduler, table, turn, calls) {
                None => {}
                Some(socket) => return Some(socket),
            }
        }
        None
    }

    /// A system call has returned: what it gave is noted, and its socket is here again. What is to be closed
    /// comes out.
    fn put_back<H: Handler, C: Named>(
        &mut self,
        scheduler: &mut Scheduler<H, C>,
        table: &HistoryTable,
        returned: SystemCall<S>,
    ) -> Option<Leaving<S>>
        requires { table.now ≡ C.table }
    {
        let SystemCall {
            attempt,
            socket,
            left,
            answer,
        } = returned;
        let Answer {
            gave,
            outcome,
            made,
        } = answer;
        let name = attempt.stream;
        let reserved = attempt.reserved;
        if scheduler.back(table, attempt, gave).is_err() {
            return left_of(socket, made, left);
        }
        let made = self.note_made(reserved, made);
        let socket = self.give_back(name.place, socket, outcome);
        if !scheduler.has_stream(name) || is_unused(reserved, gave) {
            self.list_listeners(scheduler);
        }
        left_of(socket, made, left)
    }

    /// System calls have returned. What is to be closed comes out, with those that are still to be taken.
    pub(crate) fn put_all_back<H: Handler, C: Named>(
        &mut self,
        scheduler: &mut Scheduler<H, C>,
        table: &HistoryTable,
        calls: Vec<SystemCall<S>>,
    ) -> Option<(Leaving<S>, Vec<SystemCall<S>>)>
        requires { table.now ≡ C.table }
    {
        let mut calls = calls;
        'calls: while let Some(call) = calls.pop() {
            match self.put_back(scheduler, table, call) {
                None => {}
                Some(leaving) => return Some((leaving, calls)),
            }
        }
        self.lists.give(calls);
        None
    }
}
