ghost use Rattle.std.specs.Prelude.{◌≡◌, true};
ghost use Rattle.io_rules.specs.Operations.{at, is_accept, target_of};
ghost use Rattle.io_handlers.specs.Initiated.{is_transfer};
ghost use Rattle.io_scheduler.specs.Transferred.{settled_now};

use asio_types::Code;
use io_rules::{Name, Operation, Side};

/// The side of a stream or of a listener that an operation is one of.
#[derive(Clone, Copy)]
pub(crate) struct Target {
    pub(crate) stream: Name,
    pub(crate) side: Side,
}

/// The side that an operation is one of.
pub(crate) fn target_of(kind: Operation) -> Target
    requires { is_transfer kind ≡ true }
    ensures { target_of kind ≡ at result.stream result.side }
{
    match kind {
        Operation::WriteSome { stream, size: _ } | Operation::WriteAll { stream, size: _ } => {
            Target {
                stream,
                side: Side::Write,
            }
        }
        Operation::ReadSome { stream, size: _ } => Target {
            stream,
            side: Side::Read,
        },
        Operation::Accept { listener } => Target {
            stream: listener,
            side: Side::Read,
        },
        _ => unreachable!(),
    }
}

/// Whether it is one on a stream or a listener.
pub(crate) fn is_transfer(kind: Operation) -> bool
    ensures { result ≡ is_transfer kind }
{
    matches!(
        kind,
        Operation::ReadSome { stream: _, size: _ }
            | Operation::WriteSome { stream: _, size: _ }
            | Operation::WriteAll { stream: _, size: _ }
            | Operation::Accept { listener: _ }
    )
}

/// Whether it is an accept.
pub(crate) fn is_accept(kind: Operation) -> bool
    ensures { result ≡ is_accept kind }
{
    matches!(kind, Operation::Accept { listener: _ })
}

/// How the first operation of a side completes at once, if it does: where there is no connection, or it has
/// an empty buffer.
pub(crate) fn settled_now(linked: bool, kind: Operation) -> Option<Code>
    requires { is_transfer kind ≡ true }
    ensures { result ≡ settled_now linked kind }
{
    match kind {
        Operation::Accept { listener: _ } => None,
        Operation::ReadSome { stream: _, size }
        | Operation::WriteSome { stream: _, size }
        | Operation::WriteAll { stream: _, size } => {
            if !linked {
                Some(Code::Bad)
            } else if size == 0 {
                Some(Code::Ok)
            } else {
                None
            }
        }
        _ => unreachable!(),
    }
}
