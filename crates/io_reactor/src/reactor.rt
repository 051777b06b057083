ghost use Rattle.std.specs.Prelude.{◌≡◌, ◌<◌, ◌≤◌, ℕ, Bool, Option, [], length, take, IfOk, IfSome, OnErr};
ghost use Rattle.std.specs.Option.{option_map};
ghost use Rattle.asio_types.specs.Faults.{CountsFaults};
ghost use Rattle.io_rules.specs.declared.name.Name.{Name};
ghost use Rattle.io_reactor.specs.Answers.{MayAccept, MayLink, MayRead, MayWrite, count_of};
ghost use Rattle.io_reactor.specs.Peer.{IsNew, Peer, first_piece, link_answer, peer_asked, peer_read, peer_shut, peer_written, read_answer, write_answer};

use crate::answer::{Accepted, Linked, Transferred};
use crate::edges::Edges;
use asio_types::Failed;
use io_rules::Name;
use std::net::SocketAddr;
use std::sync::Wait;

/// What an io_context waits for: a clock, and sockets (Asio reference, Overview, "The Proactor Design
/// Pattern: Concurrency Without Threads").
///
/// All workers share it. A socket is with who calls it, one worker at a time, and so is the poll, of
/// which there is one. Neither can be dropped: `close` and `finish` spend them. No call but `poll`
/// waits, and none takes a buffer of no byte. What is made is registered under a name, and what
/// becomes ready of it is reported under this name by `poll`, once: a call that would have to wait,
/// and no edge since, means that an edge is still to come. That it comes is no promise of a clause. Of
/// a connection accepts are of no use, and all else of a listener: such a call moves nothing, and
/// answers an error or `WouldBlock`.
///
/// A reactor may tell its bytes: then each of its sockets tells what comes from its peer and hasn't
/// been read, in which pieces, whether the end or an error comes behind it, for how much there is
/// room, and what was written; and each answer follows from that.
pub trait Reactor: Sized {
    /// A connection (`basic_stream_socket`), or a listener (`basic_socket_acceptor`).
    type Socket;

    /// The right to wait.
    type Poll;

    /// Whether its sockets tell their bytes.
    ghost tells: { Self → Bool };

    /// What a socket was made under.
    ghost name_of: { Self.Socket → Name };

    /// What a socket tells of its peer, if it does.
    ghost told: { Self.Socket → Option Peer };

    /// How often waiting has failed.
    ghost faults: { Self.Poll → ℕ };

    /// The clock, in nanoseconds since the reactor was made. It may stand still, and fall.
    fn now(&self) -> u64;

    /// Ends the wait of `poll` that is under way, and else the next one.
    fn wake(&self);

    /// A listener on this address (`basic_socket_acceptor::listen`). Fails where the system refuses.
    fn listen(&self, address: SocketAddr, name: Name) -> Result<Self::Socket, Failed>
        ensures named { IfOk result (λ socket. name_of socket ≡ name) }
        ensures told_new { IfOk result (λ socket. IsNew (tells self.now) (told socket)) };

    /// A socket that begins to connect to this address (`async_connect`); `linked` tells how it went.
    /// Fails where the system refuses.
    fn connect(&self, address: SocketAddr, name: Name) -> Result<Self::Socket, Failed>
        ensures named { IfOk result (λ socket. name_of socket ≡ name) }
        ensures told_new { IfOk result (λ socket. IsNew (tells self.now) (told socket)) };

    /// The address of a socket at this end (`local_endpoint`); `None` where the system tells none.
    fn local_endpoint(&self, socket: &Self::Socket) -> Option<SocketAddr>;

    /// The next connection that waits at a listener, under this name (`async_accept`). The answer is
    /// `WouldBlock` where none waits, and `Reset` where it fails.
    fn accept(&self, listener: &mut Self::Socket, name: Name) -> Accepted<Self::Socket>
        ensures made { MayAccept
            (λ socket. (name_of socket ≡ name) × IsNew (tells self.now) (told socket)) result }
        ensures name { name_of listener.new ≡ name_of listener.old }
        ensures told_same { told listener.new ≡ told listener.old };

    /// How a connect went: not known yet, connected, or `Reset` (`async_connect`).
    fn linked(&self, socket: &mut Self::Socket) -> Linked
        ensures within { MayLink result }
        ensures name { name_of socket.new ≡ name_of socket.old }
        ensures told_answer { IfSome (told socket.old) (λ peer. result ≡ link_answer peer) }
        ensures told_asked { told socket.new ≡ option_map peer_asked (told socket.old) };

    /// Gives bytes that have come (`read_some`): at least one, and at most the buffer's length; what
    /// the buffer has behind them is left open. Where none is there, the answer is `Eof` at the end,
    /// `Reset` where the connection is gone, and else `WouldBlock`.
    fn read_some(&self, socket: &mut Self::Socket, buf: &mut [u8]) -> Transferred
        requires room { 0 < length buf.old }
        ensures within { MayRead (length buf.old) result }
        ensures name { name_of socket.new ≡ name_of socket.old }
        ensures told_answer { IfSome (told socket.old)
            (λ peer. result ≡ read_answer (length buf.old) peer) }
        ensures told_bytes { IfSome (told socket.old) (λ peer.
            take (count_of result) buf.new ≡ take (count_of result) (first_piece peer.sends)) }
        ensures told_read { told socket.new
            ≡ option_map (peer_read (count_of result)) (told socket.old) };

    /// Takes bytes for the peer (`write_some`): the first ones, at least one. Where there is no room,
    /// the answer is `Broken` where the peer takes nothing more, `Reset` where the connection is gone,
    /// and else `WouldBlock`.
    fn write_some(&self, socket: &mut Self::Socket, bytes: &[u8]) -> Transferred
        requires some { 0 < length bytes.now }
        ensures within { MayWrite (length bytes.now) result }
        ensures name { name_of socket.new ≡ name_of socket.old }
        ensures told_answer { IfSome (told socket.old)
            (λ peer. result ≡ write_answer (length bytes.now) peer) }
        ensures told_written { told socket.new
            ≡ option_map (peer_written bytes.now (count_of result)) (told socket.old) };

    /// Sends nothing more (`basic_socket::shutdown` with `shutdown_send`): later writes fail.
    fn shutdown(&self, socket: &mut Self::Socket)
        ensures name { name_of socket.new ≡ name_of socket.old }
        ensures told_shut { told socket.new ≡ option_map peer_shut (told socket.old) };

    /// Whether small pieces are sent at once (`ip::tcp::no_delay`).
    fn no_delay(&self, socket: &mut Self::Socket, on: bool)
        ensures name { name_of socket.new ≡ name_of socket.old }
        ensures told_same { told socket.new ≡ told socket.old };

    /// Closes a socket (`basic_socket::close`). An edge that came before may still be reported.
    fn close(&self, socket: Self::Socket);

    /// Waits till something becomes ready, `wake` is called, or so many nanoseconds have passed; with
    /// no timeout it may wait without end, and it may end early. Then the edges are those that were
    /// found. A failure is counted, and then there are none.
    fn poll<R: Wait>(
        &self,
        rt: &R,
        poll: &mut Self::Poll,
        timeout: Option<u64>,
        edges: &mut Edges,
    ) -> Result<(), Failed>
        ensures failed { OnErr result (edges.new ≡ []) }
        ensures counts { CountsFaults result (faults poll.old) (faults poll.new) }
        ensures later { faults poll.old ≤ faults poll.new };

    /// Ends it. Its sockets are closed before.
    fn finish(self, poll: Self::Poll);
}
