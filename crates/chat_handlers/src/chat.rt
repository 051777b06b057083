ghost use Rattle.std.specs.Prelude.{◌≡◌};
ghost use Rattle.chat_handlers.specs.Chats.{MayRead};
ghost use Rattle.chat_handlers.specs.Serving.{MayServe};

use crate::accepting::{Service, accept, accept_if};
use crate::link::{Link, close, part};
use crate::reading::{Caller, Speaker, came, met};
use crate::room::Room;
use crate::serving::{join, leave, say, written};
use crate::watching::wait_on;
use io_handlers::{Completion, Handler, Initiator};
use io_rules::Name;

/// What the server does when an operation has completed.
#[derive(Drop)]
pub enum Chat {
    /// A connection was accepted, or that failed.
    Accepted {
        service: Service,
    },
    /// An accept failed, and its listener's timer has expired.
    Rested {
        service: Service,
    },
    /// Bytes of its first line came.
    Met {
        caller: Caller,
    },
    /// It asks the room on whose strand this executes, by this word; with what it says.
    Joins {
        word: Vec<u8>,
        speaker: Speaker,
        buffer: Vec<u8>,
        text: Vec<u8>,
    },
    /// Bytes came from a member.
    Came {
        speaker: Speaker,
    },
    /// It says this text in its room.
    Says {
        speaker: Speaker,
        buffer: Vec<u8>,
        text: Vec<u8>,
    },
    /// It leaves its room.
    Leaves {
        speaker: Speaker,
    },
    /// A text is written to a member of this room.
    Written {
        room: Name,
        stream: Name,
    },
    /// A client's timer has expired, or is destroyed; this room looks for the client.
    Idle {
        room: Name,
        link: Link,
    },
    /// A client was told why it is let go.
    Refused {
        link: Link,
    },
}

impl Handler for Chat {
    type State = Room;

    ghost marks = { λ _. record { run = 1; drop = 0 } };

    ghost may = { MayServe };

    ghost may_free = { MayRead };

    fn call(self, done: Completion, state: &mut Room, io: &mut Initiator<Chat, Room>) -> u64 {
        match self {
            Chat::Joins {
                word,
                speaker,
                buffer,
                text,
            } => join(io, state, word, speaker, buffer, text, done.now),
            Chat::Says {
                speaker,
                buffer,
                text,
            } => say(io, state, speaker, buffer, text),
            Chat::Leaves { speaker } => leave(io, state, speaker),
            Chat::Written { room: _, stream } => written(io, state, stream, done.code, done.now),
            Chat::Idle { room, link } => wait_on(io, state, room, link, done.code, done.now),
            other => other.perform(done, io),
        }
        1
    }

    fn call_free(self, done: Completion, io: &mut Initiator<Chat, Room>) -> u64 {
        self.perform(done, io);
        1
    }

    fn discard(self) -> u64 {
        let _unused = self;
        0
    }

    fn retire(state: Room) {
        let _unused = state;
    }
}

impl Chat {
    /// What it does on no strand.
    fn perform(self, done: Completion, io: &mut Initiator<Chat, Room>)
        ensures may { MayRead self done io.old io.new }
        ensures grant { io.new.granted ≡ io.old.granted }
        ensures kept { io.new.kept ≡ io.old.kept }
    {
        let Completion {
            code,
            size,
            buffer,
            made,
            now,
        } = done;
        match self {
            Chat::Accepted { service } => accept_if(io, service, code, made, now),
            Chat::Rested { service } => accept(io, service),
            Chat::Met { caller } => met(io, caller, code, size, buffer),
            Chat::Came { speaker } => came(io, speaker, code, size, buffer),
            Chat::Joins {
                word: _,
                speaker,
                buffer: _,
                text: _,
            } => part(io, speaker.link),
            Chat::Says {
                speaker,
                buffer: _,
                text: _,
            } => part(io, speaker.link),
            Chat::Leaves { speaker } => part(io, speaker.link),
            Chat::Written { room: _, stream } => close(io, stream),
            Chat::Idle { room: _, link } => part(io, link),
            Chat::Refused { link } => part(io, link),
        }
    }
}
