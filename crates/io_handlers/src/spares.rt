ghost use Rattle.std.specs.Prelude.{◌≡◌};
ghost use Rattle.io_rules.specs.Spares.{no_spares, without_spare};
ghost use Rattle.io_handlers.specs.Initiated.{left_by, spares_made};

use crate::staged::Staged;
use io_rules::{Control, Kind, Spares};

/// No name.
pub(crate) fn no_spares() -> Spares
    ensures { result ≡ no_spares }
{
    Spares {
        strand: None,
        timer: None,
        slot: None,
        stream: None,
    }
}

/// Without the one of this kind.
pub fn without_spare(kind: Kind, spares: Spares) -> Spares
    ensures { result ≡ without_spare kind spares }
{
    let mut left = spares;
    match kind {
        Kind::Strand => left.strand = None,
        Kind::Timer => left.timer = None,
        Kind::Slot => left.slot = None,
        Kind::Stream | Kind::Listener => left.stream = None,
    }
    left
}

/// The names that are left behind a change.
fn spares_made(change: Control, spares: Spares) -> Spares
    ensures { result ≡ spares_made change spares }
{
    match change {
        Control::Make { kind, name: _ } => without_spare(kind, spares),
        _ => spares,
    }
}

/// The names that are left behind a call.
pub(crate) fn left_by<H, S>(call: &Staged<H, S>, kept: Spares) -> Spares
    ensures { result ≡ left_by call.now kept }
{
    match call {
        Staged::Changed(change) => spares_made(*change, kept),
        Staged::MadeStrand { name: _, state: _ } => without_spare(Kind::Strand, kept),
        _ => kept,
    }
}
