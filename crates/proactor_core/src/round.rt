ghost use Rattle.std.specs.Prelude.{◌≡◌};
ghost use Rattle.proactor_core.specs.Round.{round_of};

use asio_types::Code;
use composed_ops::MachineStep;

/// What one call for an operation on a stream leaves.
#[derive(Clone, Copy, Debug, PartialEq, Eq)]
pub(crate) enum StreamRound {
    /// It is asked again.
    GoesOn,
    /// Nothing is there for it now.
    Stays,
    /// It completes with this code and size.
    Completes { code: Code, size: u32 },
}

/// What a step of its machine says.
pub(crate) fn round_of(step: MachineStep) -> StreamRound
    ensures { result ≡ round_of step }
{
    match step {
        MachineStep::Again => StreamRound::GoesOn,
        MachineStep::Done { code, size } => StreamRound::Completes { code, size },
    }
}
