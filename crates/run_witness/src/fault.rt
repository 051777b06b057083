use run_check::{NoRoom, Refusal};

/// Why an order isn't judged.
#[derive(Clone, Copy, Debug, PartialEq, Eq)]
pub enum Fault {
    /// A line of the run breaks a rule.
    Illegal,
    /// Memory was refused, or a count would pass 2^64.
    NoRoom,
}

impl From<NoRoom> for Fault {
    ghost use Rattle.std.specs.Prelude.{◌≡◌};
    ghost use Rattle.run_witness.specs.declared.fault.Fault.{Fault};

    ghost from_gives = { λ _ fault. fault ≡ Fault.NoRoom };

    fn from(_error: NoRoom) -> Self {
        Fault::NoRoom
    }
}

impl From<Refusal> for Fault {
    ghost use Rattle.std.specs.Prelude.{◌≡◌};
    ghost use Rattle.run_witness.specs.Faults.{fault_of};

    ghost from_gives = { λ refusal fault. fault ≡ fault_of refusal };

    fn from(refusal: Refusal) -> Self {
        match refusal {
            Refusal::Broken { .. } => Fault::Illegal,
            Refusal::NoRoom => Fault::NoRoom,
        }
    }
}
