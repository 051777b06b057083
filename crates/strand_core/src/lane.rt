ghost use Rattle.std.specs.Prelude.{◌≡◌, ◌<◌, length};
ghost use Rattle.strand_core.specs.Hands.{is_op_of, is_of_lane, same_lane};

use asio_types::{ActNo, Lane};
use session_script::Script;

/// Whether two lanes are the same.
fn same_lane(a: Lane, b: Lane) -> bool
    ensures { result ≡ same_lane a b }
{
    match (a, b) {
        (Lane::Strand(a), Lane::Strand(b)) => a == b,
        (Lane::Own(a), Lane::Own(b)) => a == b,
        (Lane::Reactor, Lane::Reactor) => true,
        (Lane::Strand(_), _) | (Lane::Own(_), _) | (Lane::Reactor, _) => false,
    }
}

/// Whether an act is an operation of a lane.
fn is_of_lane(script: &Script, lane: Lane, a: ActNo) -> bool
    requires { a < length script.now.acts }
    ensures { result ≡ is_of_lane script.now lane a }
{
    script.is_op(a) && same_lane(script.lane_of(a), lane)
}

/// Whether an act is an operation of this lane, or of any where none is named.
pub(crate) fn is_of(script: &Script, lane: Option<Lane>, a: ActNo) -> bool
    requires { a < length script.now.acts }
    ensures { result ≡ is_op_of script.now lane a }
{
    match lane {
        Some(lane) => is_of_lane(script, lane, a),
        None => script.is_op(a),
    }
}
