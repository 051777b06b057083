ghost use Rattle.std.specs.Prelude.{◌≡◌, ◌==◌, ◌&&◌, not, true};
ghost use Rattle.std.specs.Option.{is_some};
ghost use Rattle.io_sockets.specs.declared.stand.Held.TheVariants as held;
ghost use Rattle.io_sockets.specs.Ready.{wait_of};
ghost use Rattle.io_sockets.specs.Stands.{closed, edge_at, held_back, is_awaited, is_gone, is_in, is_out, left_back, no_stand, noted, opened, out_for, readiness_of, removed, returned, socket_in, taken, with_readiness};

use crate::readiness::{Outcome, Readiness};
use crate::turn::WaitType;
use io_rules::{Name, Side};

/// Where a socket is.
pub enum Held<S> {
    /// Nothing is there.
    Gone,
    /// Here, or not made yet.
    Here(Option<S>),
    /// With a worker, for a system call of this side; it may have been closed meanwhile.
    Out { side: Side, closed: bool },
}

/// A place for a socket.
pub struct Stand<S> {
    /// The generation of its name.
    pub generation: u32,
    /// Where the socket is.
    pub held: Held<S>,
    /// What is known of its reads, and of a listener's accepts.
    pub reads: Readiness,
    /// What is known of its writes, and of its connect.
    pub writes: Readiness,
}

/// As what a system call of this side waits.
pub(crate) fn wait_of(side: Side) -> WaitType
    ensures { result ≡ wait_of side }
{
    match side {
        Side::Read => WaitType::Read,
        Side::Write | Side::Connect => WaitType::Write,
    }
}

impl<S> Stand<S> {
    /// A place where nothing is.
    pub(crate) fn empty() -> Stand<S>
        ensures { result ≡ no_stand }
    {
        Stand {
            generation: 0,
            held: Held::Gone,
            reads: Readiness::idle(),
            writes: Readiness::idle(),
        }
    }

    /// Where the socket is becomes this; where it was comes out.
    fn swap(&mut self, to: Held<S>) -> Held<S>
        ensures stand { self.new ≡ record self.old { held = to } }
        ensures was { result ≡ self.old.held }
    {
        std::mem::replace(&mut self.held, to)
    }

    /// What is known of the calls of this kind.
    pub(crate) fn readiness(&self, wait: WaitType) -> Readiness
        ensures { result ≡ readiness_of wait self.now }
    {
        match wait {
            WaitType::Read => self.reads,
            WaitType::Write => self.writes,
        }
    }

    /// This is known of the calls of this kind.
    fn set_readiness(&mut self, wait: WaitType, to: Readiness)
        ensures { self.new ≡ with_readiness wait to self.old }
    {
        match wait {
            WaitType::Read => self.reads = to,
            WaitType::Write => self.writes = to,
        }
    }

    /// Whether nothing is there.
    pub(crate) fn is_gone(&self) -> bool
        ensures { result ≡ is_gone self.now.held }
    {
        match &self.held {
            Held::Gone => true,
            _ => false,
        }
    }

    /// Whether something is there under a name of this generation.
    pub(crate) fn is_known(&self, generation: u32) -> bool
        ensures { result ≡ ((self.now.generation == generation) && not (is_gone self.now.held)) }
    {
        self.generation == generation && !self.is_gone()
    }

    /// Whether the socket is here, or waited for.
    pub(crate) fn is_in(&self) -> bool
        ensures { result ≡ is_in self.now.held }
    {
        match &self.held {
            Held::Here(_) => true,
            _ => false,
        }
    }

    /// Whether its socket comes later.
    pub(crate) fn is_awaited(&self) -> bool
        ensures { result ≡ is_awaited self.now.held }
    {
        match &self.held {
            Held::Here(None) => true,
            _ => false,
        }
    }

    /// Whether a worker has the socket.
    pub(crate) fn is_out(&self) -> bool
        ensures { result ≡ is_out self.now.held }
    {
        match &self.held {
            Held::Out { side: _, closed: _ } => true,
            _ => false,
        }
    }

    /// Whether a socket is here.
    pub(crate) fn has_socket(&self) -> bool
        ensures { result ≡ is_some (socket_in self.now.held) }
    {
        match &self.held {
            Held::Here(Some(_)) => true,
            _ => false,
        }
    }

    /// Nothing is there any more; a socket that was here comes out.
    pub(crate) fn remove(&mut self) -> Option<S>
        ensures socket { result ≡ socket_in self.old.held }
        ensures removed { self.new ≡ removed self.old }
    {
        match self.swap(Held::Gone) {
            Held::Here(socket) => socket,
            Held::Gone => None,
            Held::Out { side: _, closed: _ } => None,
        }
    }

    /// The place gets a name; nothing was there.
    pub(crate) fn open(&mut self, generation: u32)
        requires { is_gone self.old.held ≡ true }
        ensures { self.new ≡ opened generation }
    {
        let was = self.swap(Held::Here(None));
        let Held::Gone = was else { unreachable!() };
        self.generation = generation;
        self.reads = Readiness::fresh();
        self.writes = Readiness::fresh();
    }

    /// The socket is here that was waited for.
    pub(crate) fn note(&mut self, socket: S)
        requires { is_awaited self.old.held ≡ true }
        ensures { self.new ≡ noted socket self.old }
    {
        let was = self.swap(Held::Here(Some(socket)));
        let Held::Here(before) = was else {
            unreachable!()
        };
        match before {
            None => {}
            Some(_) => unreachable!(),
        }
        self.reads = self.reads.made_ready();
        self.writes = self.writes.made_ready();
    }

    /// A worker takes the socket.
    pub(crate) fn take(&mut self, side: Side) -> Option<S>
        requires { is_in self.old.held ≡ true }
        ensures socket { result ≡ socket_in self.old.held }
        ensures taken { self.new ≡ taken side self.old }
    {
        self.reads = self.reads.watched();
        self.writes = self.writes.watched();
        let out = Held::Out {
            side,
            closed: false,
        };
        let was = self.swap(out);
        let Held::Here(socket) = was else {
            unreachable!()
        };
        socket
    }

    /// For which side a worker has it, and whether it was closed meanwhile.
    fn out(&self) -> Option<(Side, bool)>
        ensures { result ≡ out_for self.now.held }
    {
        match &self.held {
            Held::Out { side, closed } => Some((*side, *closed)),
            _ => None,
        }
    }

    /// A worker has it no longer; what has to be closed comes out.
    pub(crate) fn give_back(&mut self, socket: Option<S>, outcome: Outcome) -> Option<S>
        requires { is_out self.old.held ≡ true }
        ensures left { result ≡ left_back socket self.old.held }
        ensures back { self.new ≡ returned socket outcome self.old }
    {
        let Some((side, closed)) = self.out() else {
            unreachable!()
        };
        let wait = wait_of(side);
        let tried = self.readiness(wait).tried(outcome);
        self.set_readiness(wait, tried);
        if closed {
            self.leave();
            return socket;
        }
        self.stay(socket);
        None
    }

    /// Nothing is there any more; a worker had what was.
    fn leave(&mut self)
        requires { is_out self.old.held ≡ true }
        ensures { self.new ≡ record self.old { held = held.Gone } }
    {
        let was = self.swap(Held::Gone);
        let Held::Out { side: _, closed: _ } = was else {
            unreachable!()
        };
    }

    /// It is here again; a worker had it.
    fn stay(&mut self, socket: Option<S>)
        requires { is_out self.old.held ≡ true }
        ensures { self.new ≡ record self.old { held = held.Here socket } }
    {
        let was = self.swap(Held::Here(socket));
        let Held::Out { side: _, closed: _ } = was else {
            unreachable!()
        };
    }

    /// It is closed, at once or when it is back; a socket that is here comes out.
    pub(crate) fn close(&mut self) -> Option<S>
        ensures socket { result ≡ socket_in self.old.held }
        ensures closed { self.new ≡ closed self.old }
    {
        let to = match self.out() {
            Some((side, _)) => Held::Out { side, closed: true },
            None => Held::Gone,
        };
        let was = self.swap(to);
        match was {
            Held::Here(socket) => socket,
            Held::Gone => None,
            Held::Out { side: _, closed: _ } => None,
        }
    }

    /// An edge came for the calls of this kind.
    pub(crate) fn edge(&mut self, wait: WaitType, ended: bool)
        ensures { self.new ≡ edge_at wait ended self.old }
    {
        let edged = self.readiness(wait).edged(ended);
        self.set_readiness(wait, edged);
    }

    /// Nothing is there.
    pub(crate) fn destroy(self)
        requires { is_gone self.held ≡ true }
    {
        let Stand {
            generation: _,
            held,
            reads: _,
            writes: _,
        } = self;
        let Held::Gone = held else { unreachable!() };
    }
}
