//! The steps of seats, as an atomic table takes them.
use crate::named::Happening;
use crate::view::View;
use atomic_table::{Join, Play, Split, TableRule};
use io_rules::Limits;
use std::marker::PhantomData;

/// There is one legal history, which its keeper knows; what others were told is a part of it, and each
/// operation that is claimed executes, and is claimed once.
pub(crate) struct Legal;

impl TableRule<u64, View, Limits> for Legal {
    ghost use Rattle.io_history.specs.Rule.{Kept, first_keeper};

    ghost holds = { λ _. Kept };

    ghost first = { first_keeper };
}

/// The keeper notes an event.
pub(crate) struct Notes<B: Happening> {
    of: PhantomData<B>,
}

impl<B: Happening> Play<u64, View> for Notes<B> {
    ghost use Rattle.io_history.specs.Steps.{Noted};

    ghost then = { Noted B.event };
}

/// The keeper learns what the rule says of it.
pub(crate) struct Learns;

impl Play<u64, View> for Learns {
    ghost use Rattle.io_history.specs.Steps.{Learnt};

    ghost then = { Learnt };
}

/// What the keeper holds goes to a claim, with what it knows.
pub(crate) struct Claims;

impl Split<View> for Claims {
    ghost use Rattle.io_history.specs.Steps.{claim_of, without_claim};

    ghost left = { without_claim };

    ghost right = { claim_of };
}

/// What the keeper knows goes to a witness too.
pub(crate) struct Tells;

impl Split<View> for Tells {
    ghost use Rattle.io_history.specs.Steps.{same_view, witness_of};

    ghost left = { same_view };

    ghost right = { witness_of };
}

/// The keeper takes in what another seat was told and holds.
pub(crate) struct TakesIn;

impl Join<View> for TakesIn {
    ghost use Rattle.io_history.specs.Steps.{joined, nobody};

    ghost both = { joined };

    ghost spent = { nobody };
}
