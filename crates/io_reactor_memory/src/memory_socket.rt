ghost use Rattle.std.specs.Prelude.{◌≡◌, ◌<◌, Some, [], length, take, IfOk};
ghost use Rattle.io_reactor.specs.Answers.{MayAccept, MayLink, MayRead, MayWrite, count_of};
ghost use Rattle.io_reactor.specs.Peer.{first_piece, link_answer, peer_asked, peer_read, peer_shut, peer_written, read_answer, write_answer};
ghost use Rattle.io_reactor_memory.specs.Playing.{Plays, peer_begun, refusing, visits_left};

use crate::reads::Reads;
use crate::script::{ConnectScript, LinkEnd, PeerScript, ReadEnd, Visit};
use crate::writes::Writes;
use asio_types::{Code, NoMemory};
use io_reactor::{Accepted, Linked, Readiness, Transferred};
use io_rules::Name;
use std::alloc::Global;
use std::marker::Model;
use std::net::SocketAddr;
use std::sync::OnceLock;

/// A socket of a reactor in memory. Contracts see its name, what its peer does and took, and what a
/// listener accepts.
pub struct MemorySocket<'s> {
    name: Name,
    address: Option<SocketAddr>,
    /// What accepts give, at a listener.
    visits: Option<&'s [Visit]>,
    linking: u32,
    link: LinkEnd,
    reads: Reads<'s>,
    writes: Writes<'s>,
    /// Where what was taken is put in the end.
    kept: Option<&'s OnceLock<Vec<u8>>>,
}

impl<'s> Model for MemorySocket<'s> {
    ghost use Rattle.std.specs.Option.{option_map};
    ghost use Rattle.io_reactor_memory.specs.Ends.{link_of, read_error, write_error};
    ghost use Rattle.io_reactor_memory.specs.Playing.{Played};
    ghost use Rattle.io_reactor_memory.specs.Sides.{sends_of};

    ghost Value = { Played };

    ghost view = { λ s. record {
      name = s.name;
      visits = option_map (λ visits. visits.now) s.visits;
      peer = record {
        sends = sends_of s.reads;
        sends_end = read_error s.reads.end;
        takes = s.writes.takes;
        takes_end = write_error s.writes.end;
        took = s.writes.took;
        linking = s.linking;
        link = link_of s.link;
      };
    } };
}

impl<'s> MemorySocket<'s> {
    /// A listener.
    pub(crate) fn listener(
        alloc: Global,
        name: Name,
        address: SocketAddr,
        visits: &'s [Visit],
    ) -> MemorySocket<'s>
        ensures name { result.name ≡ name }
        ensures visits { result.visits ≡ Some visits.now }
        ensures peer { result.peer ≡ refusing }
    {
        MemorySocket {
            name,
            address: Some(address),
            visits: Some(visits),
            linking: 0,
            link: LinkEnd::Refused,
            reads: Reads::of(&[], ReadEnd::Reset),
            writes: Writes::none(alloc),
            kept: None,
        }
    }

    /// A connection to a peer that does this, once it is made so. Takes the memory for all that the peer
    /// takes.
    fn of(
        alloc: Global,
        name: Name,
        linking: u32,
        link: LinkEnd,
        script: &'s PeerScript,
    ) -> Result<MemorySocket<'s>, NoMemory>
        ensures name { IfOk result (λ socket. socket.name ≡ name) }
        ensures peer { IfOk result (λ socket. socket.peer ≡ peer_begun linking link script.now) }
    {
        let writes = Writes::make(alloc, script.takes.as_slice(), script.takes_end)?;
        Ok(MemorySocket {
            name,
            address: None,
            visits: None,
            linking,
            link,
            reads: Reads::of(script.sends.as_slice(), script.sends_end),
            writes,
            kept: Some(&script.took),
        })
    }

    /// A connection that is made by a connect.
    pub(crate) fn connecting(
        alloc: Global,
        name: Name,
        script: &'s ConnectScript,
    ) -> Result<MemorySocket<'s>, NoMemory>
        ensures name { IfOk result (λ socket. socket.name ≡ name) }
        ensures peer { IfOk result (λ socket.
            socket.peer ≡ peer_begun script.now.linking script.now.link script.now.peer) }
    {
        MemorySocket::of(alloc, name, script.linking, script.link, &script.peer)
    }

    pub(crate) fn name(&self) -> Name
        ensures { result ≡ self.now.name }
    {
        self.name
    }

    pub(crate) fn local_endpoint(&self) -> Option<SocketAddr> {
        self.address
    }

    /// What an accept gives, under this name.
    pub(crate) fn accept(&mut self, alloc: Global, name: Name) -> Accepted<MemorySocket<'s>>
        ensures made { MayAccept
            (λ socket. (socket.name ≡ name) × (socket.peer.took ≡ [])) result }
        ensures plays { Plays self.old.visits result }
        ensures left { self.new.visits ≡ visits_left self.old.visits }
        ensures name { self.new.name ≡ self.old.name }
        ensures peer { self.new.peer ≡ self.old.peer }
    {
        let Some(visits) = self.visits else {
            return Accepted::Failed(Code::Reset);
        };
        let Some((visit, others)) = visits.split_first() else {
            return Accepted::WouldBlock;
        };
        self.visits = Some(others);
        match visit {
            Visit::Later => Accepted::WouldBlock,
            Visit::Fails => Accepted::Failed(Code::Reset),
            Visit::Comes(peer) => match MemorySocket::of(alloc, name, 0, LinkEnd::Linked, peer) {
                Ok(socket) => Accepted::Made(socket),
                Err(NoMemory) => Accepted::Failed(Code::Reset),
            },
        }
    }

    /// Whether accepts have more to give.
    pub(crate) fn accept_edge(&self) -> Readiness {
        match self.visits {
            Some(visits) if !visits.is_empty() => Readiness::Ready,
            _ => Readiness::Same,
        }
    }

    pub(crate) fn linked(&mut self) -> Linked
        ensures answer { result ≡ link_answer self.old.peer }
        ensures within { MayLink result }
        ensures name { self.new.name ≡ self.old.name }
        ensures peer { self.new.peer ≡ peer_asked self.old.peer }
    {
        match self.linking.checked_sub(1) {
            Some(left) => {
                self.linking = left;
                Linked::WouldBlock
            }
            None => self.link.answer(),
        }
    }

    /// Whether a connect goes on.
    pub(crate) fn link_edge(&self) -> Readiness {
        if self.linking == 0 && self.link == LinkEnd::Never {
            Readiness::Same
        } else {
            Readiness::Ready
        }
    }

    pub(crate) fn read(&mut self, buf: &mut [u8]) -> Transferred
        requires { 0 < length buf.old }
        ensures answer { result ≡ read_answer (length buf.old) self.old.peer }
        ensures within { MayRead (length buf.old) result }
        ensures bytes { take (count_of result) buf.new
            ≡ take (count_of result) (first_piece self.old.peer.sends) }
        ensures name { self.new.name ≡ self.old.name }
        ensures peer { self.new.peer ≡ peer_read (count_of result) self.old.peer }
    {
        self.reads.read(buf)
    }

    pub(crate) fn read_edge(&mut self) -> Readiness
        ensures { self.new ≡ self.old }
    {
        self.reads.edge()
    }

    pub(crate) fn write(&mut self, bytes: &[u8]) -> Transferred
        requires { 0 < length bytes.now }
        ensures answer { result ≡ write_answer (length bytes.now) self.old.peer }
        ensures within { MayWrite (length bytes.now) result }
        ensures name { self.new.name ≡ self.old.name }
        ensures peer { self.new.peer ≡ peer_written bytes.now (count_of result) self.old.peer }
    {
        self.writes.write(bytes)
    }

    pub(crate) fn write_edge(&mut self) -> Readiness
        ensures { self.new ≡ self.old }
    {
        self.writes.edge()
    }

    pub(crate) fn shut(&mut self)
        ensures name { self.new.name ≡ self.old.name }
        ensures peer { self.new.peer ≡ peer_shut self.old.peer }
    {
        self.writes.shut();
    }

    /// What was written so far.
    pub fn took(&self) -> &[u8]
        ensures { result.now ≡ self.now.peer.took }
    {
        self.writes.took()
    }

    /// What was written is put where its script has it.
    pub(crate) fn close(self) {
        let MemorySocket {
            name: _,
            address: _,
            visits: _,
            linking: _,
            link: _,
            reads: _,
            writes,
            kept,
        } = self;
        let took = writes.into_took();
        if let Some(kept) = kept {
            match kept.try_set(took) {
                Ok(_) | Err(_) => {}
            }
        }
    }
}
