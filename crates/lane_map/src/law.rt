ghost use Rattle.std.specs.Prelude.{◌≡◌, ℕ, ◌<◌, ◌+◌, true, length, slice_get, Some};
ghost use Rattle.session_script.specs.Lanes.{lane_of};
ghost use Rattle.session_script.specs.Script.{ScriptModel};
ghost use Rattle.lane_map.specs.LaneNumbers.{asked_lane, cells_of, home_lane, is_op_on, lane_list, operations_on, rank_of, reactor_lane};

use session_script::{Script, acts_fit, parents_come_first};

/// The lanes are those of the strands, the private places and the reactor, and each act has one of
/// them.
pub(crate) fn lanes_are_numbered(script: &Script)
    ensures count { length (lane_list script.now) ≡ reactor_lane script.now + 1 }
    ensures within { (n : ℕ) → n < length script.now.acts →
        home_lane script.now n < reactor_lane script.now + 1 }
{
    parents_come_first(script);
    acts_fit(script);
}

/// The number of an act's lane is where the lane stands in the list of all. So two acts have one
/// number exactly where they have one lane.
pub fn lanes_have_their_numbers(script: &Script)
    ensures { (n : ℕ) → n < length script.now.acts →
        slice_get (lane_list script.now) (home_lane script.now n) ≡ Some (lane_of script.now n) }
{
    parents_come_first(script);
    acts_fit(script);
}

/// The lane that the call of an act asks, and the lane where its handler executes, are among those
/// that have cells.
pub fn lanes_have_cells(script: &Script)
    ensures count { length (cells_of script.now) ≡ length (lane_list script.now) }
    ensures asked { (n : ℕ) → n < length script.now.acts →
        asked_lane script.now n < length (cells_of script.now) }
    ensures home { (n : ℕ) → n < length script.now.acts →
        home_lane script.now n < length (cells_of script.now) }
{
    lanes_are_numbered(script);
}

/// Within a lane the ranks of operations rise with their numbers, and are below their count. So
/// what a lane keeps for each of its operations stands in a list of that length, in the order of
/// their numbers.
pub fn ranks_rise()
    ensures rise { (script : ScriptModel) (at m n : ℕ) → m < n → is_op_on script at m ≡ true →
        is_op_on script at n ≡ true → rank_of script m < rank_of script n }
    ensures fit { (script : ScriptModel) (at n : ℕ) → is_op_on script at n ≡ true →
        rank_of script n < operations_on script at }
{}
