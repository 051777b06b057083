ghost use Rattle.std.specs.Prelude.{◌≡◌, ℕ, ◌<◌, true};
ghost use Rattle.lane_map.specs.LaneNumbers.{home_lane, reactor_lane};
ghost use Rattle.session_script.specs.Script.{is_op};

use lane_map::{lanes_have_cells, lanes_have_their_numbers};
use session_script::{Script, parents_come_first};

/// An operation executes on another lane than the reactor's.
pub fn operations_have_lanes(script: &Script)
    ensures { (n : ℕ) → is_op script.now n ≡ true →
        home_lane script.now n < reactor_lane script.now }
{
    parents_come_first(script);
    lanes_have_their_numbers(script);
    lanes_have_cells(script);
}
