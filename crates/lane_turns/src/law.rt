ghost use Rattle.std.specs.Prelude.{◌≡◌, ◌^◌, ◌<◌, length};
ghost use Rattle.lane_map.specs.LaneNumbers.{cells_of};
ghost use Rattle.lane_turns.specs.Posting.{FitsClock};

use lane_clock::LaneClock;
use lane_map::lanes_have_cells;
use session_script::{Script, scripts_are_well_formed};

/// A clock with the cells of a script's lanes fits the script: each act asks a lane with cells.
pub fn clock_fits(clock: &LaneClock, script: &Script)
    requires cells { clock.now.plan.cells ≡ cells_of script.now }
    ensures { FitsClock script.now clock.now }
{
    scripts_are_well_formed(script);
    lanes_have_cells(script);
}

/// No script has so many rounds that their number wouldn't fit.
pub fn rounds_are_few(script: &Script)
    ensures { length script.now.rounds < 2 ^ 32 }
{
    scripts_are_well_formed(script);
}
