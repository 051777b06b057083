ghost use Rattle.std.specs.Prelude.{◌≡◌};
ghost use Rattle.http_handlers.specs.Serving.{MayServe, MayServeFree};

use crate::accepting::{accepted, paused};
use crate::connection::Connection;
use crate::serving::{Activity, Link, Service, begin, came, part, wait_on, written};
use io_handlers::{Completion, Handler, Initiator};
use io_rules::Name;

/// A connection that is read from.
#[derive(Drop)]
pub struct Exchange {
    pub link: Link,
    pub connection: Connection,
    /// A buffer for answers.
    pub answers: Vec<u8>,
}

/// What the server does when an operation has completed.
#[derive(Drop)]
pub enum Http<'a> {
    /// A connection was accepted.
    Accepted {
        service: Service<'a>,
    },
    /// An accept failed, and the pause behind it is over.
    Paused {
        service: Service<'a>,
        timer: Name,
    },
    /// A connection begins, on its strand.
    Begins {
        service: Service<'a>,
        stream: Name,
    },
    /// Bytes came.
    Came {
        exchange: Exchange,
    },
    /// All answers to them are written; the buffer for what comes is kept.
    Written {
        link: Link,
        connection: Connection,
        reading: Vec<u8>,
    },
    /// The client was told that it is too slow.
    Refused {
        link: Link,
    },
    /// Its timer has expired, or is destroyed.
    Idle {
        link: Link,
    },
}

impl<'a> Http<'a> {
    /// What it does, on a strand with this state.
    fn perform(self, done: Completion, state: &mut Activity, io: &mut Initiator<Http<'a>, Activity>)
        ensures may { MayServe self.entry done state.old state.new io.old io.new }
        ensures grant { io.new.granted ≡ io.old.granted }
        ensures kept { io.new.kept ≡ io.old.kept }
    {
        let Completion {
            code,
            size,
            buffer,
            made,
            now,
        } = done;
        match self {
            Http::Accepted { service } => accepted(io, service, code, made, now),
            Http::Paused { service, timer } => paused(io, service, timer),
            Http::Begins { service, stream } => begin(io, state, service, stream, now),
            Http::Came { exchange } => came(io, state, exchange, code, size, buffer),
            Http::Written {
                link,
                connection,
                reading,
            } => written(io, state, link, connection, reading, code, buffer, now),
            Http::Refused { link } => part(io, link),
            Http::Idle { link } => wait_on(io, state, link, code, now),
        }
    }
}

impl<'a> Handler for Http<'a> {
    type State = Activity;

    ghost marks = { λ _. record { run = 1; drop = 0 } };

    ghost may = { MayServe };

    ghost may_free = { MayServeFree };

    fn call(
        self,
        done: Completion,
        state: &mut Activity,
        io: &mut Initiator<Http<'a>, Activity>,
    ) -> u64 {
        self.perform(done, state, io);
        1
    }

    fn call_free(self, done: Completion, io: &mut Initiator<Http<'a>, Activity>) -> u64 {
        let mut state = Activity {
            until: 0,
            begun: false,
            over: false,
        };
        self.perform(done, &mut state, io);
        1
    }

    fn discard(self) -> u64 {
        let _unused = self;
        0
    }

    fn retire(state: Activity) {
        let _unused = state;
    }
}
