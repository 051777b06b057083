//! The workers' room for the calls of an execution.
ghost use Rattle.std.specs.Prelude.{◌≤◌, IfOk};
ghost use Rattle.lane_turns.specs.Polling.{most_made};
ghost use Rattle.lane_context.specs.SessionRooms.{AreCallRooms};

use asio_types::NoMemory;
use session_script::Script;
use std::alloc::Global;
use strand_core::Posted;

/// As many calls as no execution of the script makes more: each handler's begin and end, and of each
/// act its call, its return and its stop.
fn calls_at_most(script: &Script) -> usize
    ensures { most_made script.now ≤ result }
{
    5 * script.acts() as usize
}

/// Room for the calls of an execution, of each of so many workers.
pub(crate) fn call_rooms(
    alloc: Global,
    script: &Script,
    workers: u32,
) -> Result<Vec<Vec<Posted>>, NoMemory>
    ensures { IfOk result (λ rooms. AreCallRooms script.now workers rooms.items) }
{
    let most = calls_at_most(script);
    let mut rooms = Vec::with_capacity(alloc, workers as usize)?;
    for _ in 0..workers {
        rooms.push_reserved(Vec::with_capacity(alloc, most)?);
    }
    Ok(rooms)
}
