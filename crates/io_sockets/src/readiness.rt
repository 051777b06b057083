ghost use Rattle.std.specs.Prelude.{◌≡◌};
ghost use Rattle.io_sockets.specs.Ready.{edged, made_ready, new_readiness, not_ready, tried, watched};

/// How a system call on a socket went.
#[derive(Clone, Copy)]
pub enum Outcome {
    /// It would block: nothing moved.
    Blocked,
    /// It moved some bytes, and fewer than were asked for.
    Short,
    /// It did all that was asked for.
    Whole,
    /// The end of the stream, or an error.
    Ended,
}

/// What is known of one kind of system calls on a socket.
#[derive(Clone, Copy)]
pub struct Readiness {
    /// Whether one is worth trying.
    pub ready: bool,
    /// Whether an edge said that this way is closed or failed.
    pub ended: bool,
    /// Whether an edge came since a worker took the socket.
    pub again: bool,
}

impl Readiness {
    /// That of a place without a socket.
    pub(crate) fn idle() -> Readiness
        ensures { result ≡ not_ready }
    {
        Readiness {
            ready: false,
            ended: false,
            again: false,
        }
    }

    /// That of a new socket.
    pub(crate) fn fresh() -> Readiness
        ensures { result ≡ new_readiness }
    {
        Readiness {
            ready: true,
            ended: false,
            again: false,
        }
    }

    /// The socket is here, whatever edges said before.
    pub(crate) fn made_ready(self) -> Readiness
        ensures { result ≡ made_ready self }
    {
        Readiness {
            ready: true,
            ended: self.ended,
            again: self.again,
        }
    }

    /// A worker takes the socket.
    pub(crate) fn watched(self) -> Readiness
        ensures { result ≡ watched self }
    {
        Readiness {
            ready: self.ready,
            ended: self.ended,
            again: false,
        }
    }

    /// An edge came, perhaps of an end.
    pub(crate) fn edged(self, ended: bool) -> Readiness
        ensures { result ≡ edged ended self }
    {
        Readiness {
            ready: true,
            ended: self.ended || ended,
            again: true,
        }
    }

    /// A system call of this kind is back.
    pub(crate) fn tried(self, outcome: Outcome) -> Readiness
        ensures { result ≡ tried outcome self }
    {
        let ready = match outcome {
            Outcome::Blocked => self.again,
            Outcome::Short => self.again || self.ended,
            Outcome::Whole | Outcome::Ended => self.ready,
        };
        Readiness {
            ready,
            ended: self.ended,
            again: self.again,
        }
    }
}
