ghost use Rattle.std.specs.Prelude.{◌≡◌};
ghost use Rattle.strand_core.specs.Placing.{IsPlacingOf, place_of};

use asio_types::OpNo;
use lane_map::LaneMap;
use session_script::Script;

/// Which operations have a place in a rack of handlers, and where.
#[derive(Clone, Copy)]
pub(crate) enum Placing<'a> {
    /// All of a script, each at its number.
    ByNumber,
    /// Those of one lane of a map, each at its rank there.
    ByRank { lanes: &'a LaneMap<'a>, lane: u32 },
}

/// The place of an operation's handler, at constant cost.
pub(crate) fn place_of(script: &Script, placing: Placing<'_>, op: OpNo) -> Option<u32>
    requires { IsPlacingOf script.now placing }
    ensures { result ≡ place_of script.now placing.entry op }
{
    match placing {
        Placing::ByNumber => Some(op),
        Placing::ByRank { lanes, lane } => {
            if op < script.acts() && script.is_op(op) && lanes.home(op) == lane {
                Some(lanes.rank(op))
            } else {
                None
            }
        }
    }
}
