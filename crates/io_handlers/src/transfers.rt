ghost use Rattle.std.specs.Prelude.{◌≡◌, if◌then◌else◌, length, min, nat_lt, true, IfErr, None, OnErr, OnOk, Some};
ghost use Rattle.io_rules.specs.declared.control.Control.TheVariants as control;
ghost use Rattle.io_rules.specs.declared.name.Kind.TheVariants as kind;
ghost use Rattle.io_rules.specs.declared.operation.Operation.TheVariants as operation;
ghost use Rattle.io_handlers.specs.Initiated.{MayInitiate, called, changed, initiating, is_transfer, transferring};

use crate::initiator::Initiator;
use crate::staged::{Full, FullTransfer, Initiating};
use io_rules::{Control, Kind, Lane, Name, Operation};

impl<H, S> Initiator<H, S> {
    /// `basic_stream_socket::async_read_some`: a handler that is ready once some bytes have come, at most as
    /// many as this buffer holds, or the peer has ended. Where the stream or the strand is gone by then, it
    /// completes at once with bad_descriptor, without a strand where that one is gone. `FullTransfer` gives
    /// handler and buffer back where no place or no room is left, and then nothing has changed.
    pub fn read_some(
        &mut self,
        lane: Lane,
        stream: Name,
        buffer: Vec<u8>,
        handler: H,
    ) -> Result<(), FullTransfer<H>>
        ensures may { OnOk result (MayInitiate self.old) }
        ensures called { OnOk result (self.new ≡ called
            (transferring lane (operation.ReadSome stream (length buffer.items)) (Some buffer) handler) self.old) }
        ensures full { OnErr result (¬ MayInitiate self.old) }
        ensures same { OnErr result (self.new ≡ self.old) }
        ensures back { IfErr result (λ full. full ≡ record { buffer = buffer; handler = handler }) }
    {
        let size = buffer.len() as u64;
        let kind = Operation::ReadSome { stream, size };
        self.transfer(lane, kind, buffer, handler)
    }

    /// `basic_stream_socket::async_write_some`: a handler that is ready once some bytes of this buffer are
    /// written. Likewise.
    pub fn write_some(
        &mut self,
        lane: Lane,
        stream: Name,
        buffer: Vec<u8>,
        handler: H,
    ) -> Result<(), FullTransfer<H>>
        ensures may { OnOk result (MayInitiate self.old) }
        ensures called { OnOk result (self.new ≡ called
            (transferring lane (operation.WriteSome stream (length buffer.items)) (Some buffer) handler) self.old) }
        ensures full { OnErr result (¬ MayInitiate self.old) }
        ensures same { OnErr result (self.new ≡ self.old) }
        ensures back { IfErr result (λ full. full ≡ record { buffer = buffer; handler = handler }) }
    {
        let size = buffer.len() as u64;
        let kind = Operation::WriteSome { stream, size };
        self.transfer(lane, kind, buffer, handler)
    }

    /// `async_write`: a handler that is ready once the first so many bytes of this buffer are written, or all
    /// where it has fewer. Likewise.
    pub fn write_all(
        &mut self,
        lane: Lane,
        stream: Name,
        buffer: Vec<u8>,
        size: u64,
        handler: H,
    ) -> Result<(), FullTransfer<H>>
        ensures may { OnOk result (MayInitiate self.old) }
        ensures called { OnOk result (self.new ≡ called
            (transferring lane (operation.WriteAll stream (min size (length buffer.items))) (Some buffer) handler)
            self.old) }
        ensures full { OnErr result (¬ MayInitiate self.old) }
        ensures same { OnErr result (self.new ≡ self.old) }
        ensures back { IfErr result (λ full. full ≡ record { buffer = buffer; handler = handler }) }
    {
        let size = size.min(buffer.len() as u64);
        let kind = Operation::WriteAll { stream, size };
        self.transfer(lane, kind, buffer, handler)
    }

    /// `basic_socket_acceptor::async_accept`: a handler that is ready once a connection is accepted, whose
    /// completion has the name of its stream. Likewise, and `Full` gives the handler back.
    pub fn accept(&mut self, lane: Lane, listener: Name, handler: H) -> Result<(), Full<H>>
        ensures may { OnOk result (MayInitiate self.old) }
        ensures called { OnOk result
            (self.new ≡ called (initiating lane (operation.Accept listener) handler) self.old) }
        ensures full { OnErr result (¬ MayInitiate self.old) }
        ensures same { OnErr result (self.new ≡ self.old) }
        ensures back { IfErr result (λ full. full.0 ≡ handler) }
    {
        let kind = Operation::Accept { listener };
        self.staging.initiate(Initiating {
            lane,
            binding: None,
            kind,
            buffer: None,
            handler,
        })
    }

    /// `basic_socket::close`: closes a stream, whose name is gone then. What is pending on it completes with
    /// operation_aborted, or with what a system call gave that was under way; no effect where its name is gone.
    /// Answers whether there was room for the call, and where not nothing has changed.
    pub fn close(&mut self, stream: Name) -> bool
        ensures room { result ≡ nat_lt 0 self.old.room }
        ensures changed { self.new ≡ (if result then changed (control.Free kind.Stream stream) self.old else self.old) }
    {
        self.staging.change(Control::Free {
            kind: Kind::Stream,
            name: stream,
        })
    }

    /// `basic_socket_acceptor::close`: likewise a listener.
    pub fn close_listener(&mut self, listener: Name) -> bool
        ensures room { result ≡ nat_lt 0 self.old.room }
        ensures changed { self.new ≡ (if result then changed (control.Free kind.Listener listener) self.old else self.old) }
    {
        self.staging.change(Control::Free {
            kind: Kind::Listener,
            name: listener,
        })
    }

    /// A read or a write, with its buffer.
    fn transfer(
        &mut self,
        lane: Lane,
        kind: Operation,
        buffer: Vec<u8>,
        handler: H,
    ) -> Result<(), FullTransfer<H>>
        requires { is_transfer kind ≡ true }
        ensures may { OnOk result (MayInitiate self.old) }
        ensures called { OnOk result (self.new ≡ called (transferring lane kind (Some buffer) handler) self.old) }
        ensures full { OnErr result (¬ MayInitiate self.old) }
        ensures same { OnErr result (self.new ≡ self.old) }
        ensures back { IfErr result (λ full. full ≡ record { buffer = buffer; handler = handler }) }
    {
        if self.staging.is_full() {
            return Err(FullTransfer { buffer, handler });
        }
        self.staging.stage(Initiating {
            lane,
            binding: None,
            kind,
            buffer: Some(buffer),
            handler,
        });
        Ok(())
    }
}
