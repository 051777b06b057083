ghost use Rattle.std.specs.Prelude.{◌≡◌, ◌∷◌, IfErr, IfOk, None};
ghost use Rattle.io_rules.specs.declared.control.Control.TheVariants as control;
ghost use Rattle.io_rules.specs.declared.event.Event.TheVariants as event;
ghost use Rattle.io_rules.specs.declared.name.Kind.TheVariants as kind;
ghost use Rattle.io_rules.specs.declared.operation.Operation.TheVariants as operation;
ghost use Rattle.io_context.specs.Refused.{TransferWasRefused};
ghost use Rattle.io_context.specs.Transferred.{closed_by, transferred};
ghost use Rattle.io_scheduler.specs.Posted.{posting};

use crate::context::Context;
use crate::refused::Refused;
use crate::sockets::close_those;
use asio_types::Failed;
use io_handlers::Handler;
use io_history::Named;
use io_reactor::Reactor;
use io_rules::{Lane, Name, Operation};
use io_scheduler::{Receipt, Section, Transfer};
use io_sockets::WaitType;
use std::net::SocketAddr;
use std::sync::Wait;

/// A listener that was made.
#[derive(Drop)]
pub struct Listening<C: Named> {
    /// Its name.
    pub listener: Name,
    /// Where it listens; none where the system doesn't tell.
    pub address: Option<SocketAddr>,
    /// The critical section in which it was made.
    pub section: Section<C>,
}

impl<H: Handler, C: Named, W: Reactor> Context<H, C, W> {
    /// Makes a listener on this address (`basic_socket_acceptor`). Fails where no place for one is free, or the
    /// system refuses; then there is none.
    pub fn listen<R: Wait>(&self, rt: &R, address: SocketAddr) -> Result<Listening<C>, Failed>
        ensures { IfOk result (λ made. made.section.after
            ≡ event.Changed None (control.Make kind.Listener made.listener) ∷ made.section.before) }
    {
        let mut shared = self.shared.lock(rt);
        let (made, wake) = shared.make_listener(&self.table);
        drop(shared);
        self.wake(wake);
        let Some((listener, section)) = made else {
            return Err(Failed);
        };
        match self.reactor.listen(address, listener) {
            Ok(socket) => {
                let address = self.reactor.local_endpoint(&socket);
                self.add_socket(rt, listener, socket);
                Ok(Listening {
                    listener,
                    address,
                    section,
                })
            }
            Err(failed) => {
                let _section = self.close(rt, listener);
                Err(failed)
            }
        }
    }

    /// The socket of a name is here.
    fn add_socket<R: Wait>(&self, rt: &R, name: Name, socket: W::Socket) {
        let mut shared = self.shared.lock(rt);
        let (left, wake) = shared.add_socket(name, socket);
        drop(shared);
        self.wake(wake);
        close_those(&self.reactor, left);
    }

    /// Accepts a connection (`basic_socket_acceptor::async_accept`): the handler is ready once there is one,
    /// and its completion has the name of the connection's stream. Refused where the strand or the listener is
    /// gone, or no place is free: then it comes back.
    pub fn accept<R: Wait>(
        &self,
        rt: &R,
        lane: Lane,
        listener: Name,
        handler: H,
    ) -> Result<Receipt<C>, Refused<H, C>>
        ensures called { IfOk result (λ receipt. receipt.section.after ≡ transferred C.limits receipt.op
            (posting lane (operation.Accept listener) (H.marks handler)) receipt.section.before) }
        ensures refused { IfErr result (λ refused.
            TransferWasRefused C.limits lane (operation.Accept listener) refused.why refused.section.after) }
        ensures nothing { IfErr result (λ refused. refused.section.after ≡ refused.section.before) }
        ensures back { IfErr result (λ refused. refused.back ≡ handler) }
    {
        let transfer = Transfer {
            lane,
            kind: Operation::Accept { listener },
            buffer: None,
            handler,
        };
        let mut shared = self.shared.lock(rt);
        let (called, wake) = shared.transfer(&self.table, transfer, listener.place, WaitType::Read);
        drop(shared);
        self.wake(wake);
        match called {
            Ok(receipt) => Ok(receipt),
            Err(refused) => {
                let Refused { back, why, section } = refused;
                let Transfer {
                    lane: _,
                    kind: _,
                    buffer: _,
                    handler: back,
                } = back;
                Err(Refused { back, why, section })
            }
        }
    }

    /// Closes a stream or a listener (`basic_socket::close`): what is pending on it completes with
    /// operation_aborted, in order of acceptance, but for an operation whose system call is under way, which
    /// completes when that returns. No effect where its name is gone.
    pub fn close<R: Wait>(&self, rt: &R, name: Name) -> Section<C>
        ensures { result.after ≡ closed_by C.limits name result.before }
    {
        let mut shared = self.shared.lock(rt);
        let (section, wake) = shared.close(&self.table, name);
        drop(shared);
        self.wake(wake);
        section
    }
}
