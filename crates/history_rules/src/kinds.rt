ghost use Rattle.std.specs.Prelude.{◌≡◌};
ghost use Rattle.history_rules.specs.Kinds.{is_act, is_posting, is_control};
ghost use Rattle.session_script.specs.Script.{is_stop, parent_of};
ghost use Rattle.session_script.specs.Lanes.{is_inline, lane_of};

use asio_types::{ActNo, Class, Lane, OpNo};
use session_script::{Act, Script};

/// Whether an act is a posting.
pub fn is_posting(act: &Act) -> bool
    ensures { result ≡ is_posting act.now }
{
    matches!(
        act,
        Act::Post { .. } | Act::Defer { .. } | Act::Dispatch { .. }
    )
}

/// Whether an act changes what the reactor has to do, and has no handler.
pub fn is_control(act: &Act) -> bool
    ensures { result ≡ is_control act.now }
{
    matches!(
        act,
        Act::Expires { .. }
            | Act::ExpiresAt { .. }
            | Act::Cancel { .. }
            | Act::CancelOne { .. }
            | Act::Emit { .. }
            | Act::Close { .. }
            | Act::Release { .. }
    )
}

/// Whether an act is a stop; a number that no act has is none.
pub fn is_stop_act(script: &Script, a: ActNo) -> bool
    ensures { result ≡ is_act is_stop script.now a }
{
    a < script.acts() && matches!(script.act(a), Act::Stop)
}

/// Whether an act executes inside its call; a number that no act has doesn't.
pub fn is_inline(script: &Script, a: ActNo) -> bool
    ensures { result ≡ is_inline script.now a }
{
    a < script.acts() && script.is_inline(a)
}

/// Where an act stands; a number that no act has counts to `open`.
pub fn place_of(script: &Script, a: ActNo) -> Option<(OpNo, Class)>
    ensures { result ≡ parent_of script.now a }
{
    if a < script.acts() {
        script.parent_of(a)
    } else {
        None
    }
}

/// The lane of an act; a number that no act has counts to the reactor's.
#[tactic(auto, using(crate::proofs::LaneLemmas::lane_of_past))]
pub fn lane_at(script: &Script, a: ActNo) -> Lane
    ensures { result ≡ lane_of script.now a }
{
    if a < script.acts() {
        script.lane_of(a)
    } else {
        Lane::Reactor
    }
}
