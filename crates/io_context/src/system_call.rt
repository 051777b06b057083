ghost use Rattle.std.specs.Prelude.{◌≡◌};

use asio_types::Code;
use io_reactor::{Accepted, Linked, Reactor, Transferred};
use io_rules::{Gave, Operation};
use io_scheduler::Attempt;
use io_sockets::Outcome;

/// A system call that a worker makes with the lock free, the socket for it, and what came of it.
pub(crate) struct SystemCall<S> {
    pub(crate) attempt: Attempt,
    /// None where it isn't made yet.
    pub(crate) socket: Option<S>,
    /// One that is to be closed before.
    pub(crate) left: Option<S>,
    /// That it would block, until it is made.
    pub(crate) answer: Answer<S>,
}

/// What a system call answered.
pub(crate) struct Answer<S> {
    pub(crate) gave: Gave,
    pub(crate) outcome: Outcome,
    /// The socket of a connection that it accepted.
    pub(crate) made: Option<S>,
}

/// It would block.
pub(crate) fn blocked<S>() -> Answer<S> {
    Answer {
        gave: Gave::WouldBlock,
        outcome: Outcome::Blocked,
        made: None,
    }
}

/// It failed.
fn failed<S>(code: Code) -> Answer<S> {
    Answer {
        gave: Gave::Failed { code },
        outcome: Outcome::Ended,
        made: None,
    }
}

/// What a read or a write answered that asked for so many bytes.
fn answer_of<S>(transferred: Transferred, asked: usize) -> Answer<S> {
    match transferred {
        Transferred::WouldBlock => blocked(),
        Transferred::Bytes(size) => {
            let outcome = if size < asked {
                Outcome::Short
            } else {
                Outcome::Whole
            };
            Answer {
                gave: Gave::Moved { size: size as u64 },
                outcome,
                made: None,
            }
        }
        Transferred::Failed(code) => failed(code),
    }
}

/// Reads into what of a buffer is still to be filled.
fn read<W: Reactor>(
    reactor: &W,
    socket: &mut W::Socket,
    buffer: &mut Option<Vec<u8>>,
    moved: u64,
    size: u64,
) -> Answer<W::Socket> {
    let Some(bytes) = buffer else {
        return failed(Code::Reset);
    };
    let from = moved as usize;
    let to = size as usize;
    if from >= to || to > bytes.len() {
        return failed(Code::Reset);
    }
    let transferred = reactor.read_some(socket, &mut bytes.as_mut_slice()[from..to]);
    answer_of(transferred, to - from)
}

/// Writes what of a buffer is still to be written.
fn write<W: Reactor>(
    reactor: &W,
    socket: &mut W::Socket,
    buffer: &Option<Vec<u8>>,
    moved: u64,
    size: u64,
) -> Answer<W::Socket> {
    let Some(bytes) = buffer else {
        return failed(Code::Reset);
    };
    let from = moved as usize;
    let to = size as usize;
    if from >= to || to > bytes.len() {
        return failed(Code::Reset);
    }
    let transferred = reactor.write_some(socket, &bytes.as_slice()[from..to]);
    answer_of(transferred, to - from)
}

/// Accepts a connection under the name that was kept for it.
fn accept<W: Reactor>(reactor: &W, socket: &mut W::Socket, attempt: &Attempt) -> Answer<W::Socket> {
    let Some(name) = attempt.reserved else {
        return blocked();
    };
    match reactor.accept(socket, name) {
        Accepted::WouldBlock => blocked(),
        Accepted::Made(stream) => Answer {
            gave: Gave::Made,
            outcome: Outcome::Whole,
            made: Some(stream),
        },
        Accepted::Failed(code) => failed(code),
    }
}

/// Asks how a connect went.
fn link<W: Reactor>(reactor: &W, socket: &mut W::Socket) -> Answer<W::Socket> {
    match reactor.linked(socket) {
        Linked::WouldBlock => blocked(),
        Linked::Linked => Answer {
            gave: Gave::Linked,
            outcome: Outcome::Whole,
            made: None,
        },
        Linked::Failed(code) => failed(code),
    }
}

/// Makes the system call of an attempt.
fn call_for<W: Reactor>(
    reactor: &W,
    socket: &mut W::Socket,
    attempt: &mut Attempt,
) -> Answer<W::Socket> {
    let moved = attempt.moved;
    match attempt.kind {
        Operation::ReadSome { stream: _, size } | Operation::ReadAll { stream: _, size } => {
            read(reactor, socket, &mut attempt.buffer, moved, size)
        }
        Operation::WriteSome { stream: _, size } | Operation::WriteAll { stream: _, size } => {
            write(reactor, socket, &attempt.buffer, moved, size)
        }
        Operation::Accept { listener: _ } => accept(reactor, socket, attempt),
        Operation::Connect { stream: _ } => link(reactor, socket),
        _ => blocked(),
    }
}

/// Closes a socket, if there is one.
pub(crate) fn close<W: Reactor>(reactor: &W, socket: Option<W::Socket>) {
    match socket {
        None => {}
        Some(socket) => reactor.close(socket),
    }
}

/// What a system call answers becomes this.
fn set_answer<W: Reactor>(reactor: &W, answer: &mut Answer<W::Socket>, to: Answer<W::Socket>) {
    let Answer {
        gave: _,
        outcome: _,
        made,
    } = std::mem::replace(answer, to);
    close(reactor, made);
}

/// Makes a system call.
fn make<W: Reactor>(reactor: &W, call: &mut SystemCall<W::Socket>) {
    close(reactor, call.left.take());
    match &mut call.socket {
        None => {}
        Some(socket) => {
            let answer = call_for(reactor, socket, &mut call.attempt);
            set_answer(reactor, &mut call.answer, answer);
        }
    }
}

/// Makes these, in order.
pub(crate) fn make_all<W: Reactor>(reactor: &W, calls: &mut Vec<SystemCall<W::Socket>>) {
    for call in calls.iter_mut() {
        make(reactor, call);
    }
}

/// Closes the sockets of a system call.
pub(crate) fn close_call<W: Reactor>(reactor: &W, call: SystemCall<W::Socket>) {
    let SystemCall {
        attempt: _,
        socket,
        left,
        answer,
    } = call;
    let Answer {
        gave: _,
        outcome: _,
        made,
    } = answer;
    close(reactor, socket);
    close(reactor, left);
    close(reactor, made);
}
