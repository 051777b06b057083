ghost use Rattle.std.specs.Prelude.{◌≡◌};
ghost use Rattle.order_report.specs.declared.unreported.Unreported.TheVariants as unreported;

use asio_types::{Failed, NoMemory};

/// Why a report was given up.
#[derive(Clone, Copy)]
pub(crate) enum Unreported {
    /// The sink failed.
    Failed,
    /// Memory was asked for and not given.
    NoMemory,
}

impl From<Failed> for Unreported {
    ghost from_gives = { λ _ e. e ≡ unreported.Failed };

    fn from(_e: Failed) -> Unreported {
        Unreported::Failed
    }
}

impl From<NoMemory> for Unreported {
    ghost from_gives = { λ _ e. e ≡ unreported.NoMemory };

    fn from(_e: NoMemory) -> Unreported {
        Unreported::NoMemory
    }
}
