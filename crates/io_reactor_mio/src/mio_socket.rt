ghost use Rattle.std.specs.Prelude.{◌≡◌, ◌<◌, false, length, IsTrue};
ghost use Rattle.io_reactor.specs.Answers.{MayLink, MayRead, MayWrite};
ghost use Rattle.io_reactor_mio.specs.Gave.{KeepsReset, saw_reset};

use crate::gave::{read_gave, write_gave};
use asio_types::Code;
use io_reactor::{Linked, Transferred};
use io_rules::Name;
use mio::Registry;
use mio::net::{TcpListener, TcpStream};
use std::io::{ErrorKind, Read, Write};
use std::marker::Model;
use std::net::{Shutdown, SocketAddr};

/// How often a call that a signal interrupted is made again; then it is as if the connection was gone.
const MOST_INTERRUPTIONS: u32 = 1000;

/// A socket of the system's.
pub(crate) enum End {
    Listener(TcpListener),
    Stream(TcpStream),
}

/// A connection or a listener whose calls never wait. The system tells a reset once; a socket keeps it,
/// and answers `Reset` at each later end and broken pipe. Contracts see its name, and whether a reset
/// was told.
pub struct MioSocket {
    name: Name,
    end: End,
    was_reset: bool,
}

impl Model for MioSocket {
    ghost use Rattle.io_reactor_mio.specs.Gave.{Ended};

    ghost Value = { Ended };

    ghost view = { λ s. record { name = s.name; was_reset = s.was_reset } };
}

fn receive(stream: &mut TcpStream, buf: &mut [u8], was_reset: bool) -> Transferred
    requires { 0 < length buf.old }
    ensures within { MayRead (length buf.old) result }
    ensures reset { KeepsReset was_reset result }
{
    for _ in 0..MOST_INTERRUPTIONS {
        let gave = stream.read(buf);
        if let Some(answer) = read_gave(gave, buf.len(), was_reset) {
            return answer;
        }
    }
    Transferred::Failed(Code::Reset)
}

fn send(stream: &mut TcpStream, bytes: &[u8], was_reset: bool) -> Transferred
    requires { 0 < length bytes.now }
    ensures within { MayWrite (length bytes.now) result }
    ensures reset { KeepsReset was_reset result }
{
    for _ in 0..MOST_INTERRUPTIONS {
        let gave = stream.write(bytes);
        if let Some(answer) = write_gave(gave, bytes.len(), was_reset) {
            return answer;
        }
    }
    Transferred::Failed(Code::Reset)
}

/// Where a connect failed, the system tells it once; where neither an error nor an address is told, it
/// is under way.
fn link_of(stream: &TcpStream) -> Linked
    ensures { MayLink result }
{
    let Ok(None) = stream.take_error() else {
        return Linked::Failed(Code::Reset);
    };
    match stream.peer_addr() {
        Ok(_) => Linked::Linked,
        Err(error) => match error.kind() {
            ErrorKind::NotConnected => Linked::WouldBlock,
            _ => Linked::Failed(Code::Reset),
        },
    }
}

impl MioSocket {
    /// No reset was told.
    pub(crate) fn of(name: Name, end: End) -> MioSocket
        ensures name { result.name ≡ name }
        ensures reset { result.was_reset ≡ false }
    {
        MioSocket {
            name,
            end,
            was_reset: false,
        }
    }

    pub(crate) fn end(&self) -> &End {
        &self.end
    }

    /// Keeps that an answer tells a reset.
    fn keep(&mut self, answer: Transferred) -> Transferred
        ensures same { result ≡ answer }
        ensures name { self.new.name ≡ self.old.name }
        ensures reset { self.new.was_reset ≡ saw_reset self.old.was_reset answer }
    {
        if let Transferred::Failed(Code::Reset) = answer {
            self.was_reset = true;
        }
        answer
    }

    pub(crate) fn read(&mut self, buf: &mut [u8]) -> Transferred
        requires { 0 < length buf.old }
        ensures within { MayRead (length buf.old) result }
        ensures kept { KeepsReset self.old.was_reset result }
        ensures name { self.new.name ≡ self.old.name }
        ensures reset { self.new.was_reset ≡ saw_reset self.old.was_reset result }
    {
        let answer = match &mut self.end {
            End::Listener(_) => Transferred::Failed(Code::Reset),
            End::Stream(stream) => receive(stream, buf, self.was_reset),
        };
        self.keep(answer)
    }

    pub(crate) fn write(&mut self, bytes: &[u8]) -> Transferred
        requires { 0 < length bytes.now }
        ensures within { MayWrite (length bytes.now) result }
        ensures kept { KeepsReset self.old.was_reset result }
        ensures name { self.new.name ≡ self.old.name }
        ensures reset { self.new.was_reset ≡ saw_reset self.old.was_reset result }
    {
        let answer = match &mut self.end {
            End::Listener(_) => Transferred::Failed(Code::Reset),
            End::Stream(stream) => send(stream, bytes, self.was_reset),
        };
        self.keep(answer)
    }

    /// How a connect went; one that failed is kept as a reset.
    pub(crate) fn linked(&mut self) -> Linked
        ensures within { MayLink result }
        ensures name { self.new.name ≡ self.old.name }
        ensures kept { IsTrue self.old.was_reset → IsTrue self.new.was_reset }
    {
        if self.was_reset {
            return Linked::Failed(Code::Reset);
        }
        let answer = match &self.end {
            End::Listener(_) => Linked::Failed(Code::Reset),
            End::Stream(stream) => link_of(stream),
        };
        self.was_reset = matches!(&answer, Linked::Failed(_));
        answer
    }

    /// Errors are told by later writes.
    pub(crate) fn shut(&self) {
        if let End::Stream(stream) = &self.end {
            let _ = stream.shutdown(Shutdown::Write);
        }
    }

    /// A refusal has no effect.
    pub(crate) fn no_delay(&self, on: bool) {
        if let End::Stream(stream) = &self.end {
            let _ = stream.set_nodelay(on);
        }
    }

    pub(crate) fn local_endpoint(&self) -> Option<SocketAddr> {
        match &self.end {
            End::Listener(listener) => listener.local_addr().ok(),
            End::Stream(stream) => stream.local_addr().ok(),
        }
    }

    /// It is registered no more, and closed.
    pub(crate) fn close(self, registry: &Registry) {
        let MioSocket {
            name: _,
            end,
            was_reset: _,
        } = self;
        match end {
            End::Listener(listener) => {
                let mut listener = listener;
                let _ = registry.deregister(&mut listener);
            }
            End::Stream(stream) => {
                let mut stream = stream;
                let _ = registry.deregister(&mut stream);
            }
        }
    }
}
