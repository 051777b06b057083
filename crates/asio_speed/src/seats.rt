ghost use Rattle.std.specs.Prelude.{◌≡◌, [], All, IfOk};
ghost use Rattle.lane_clock.specs.Seats.{own};

use asio_types::NoMemory;
use lane_clock::{LaneSeat, SeatList};
use std::alloc::Global;

/// The seats that are left, at most so many.
#[tactic(auto, using(lane_clock::proofs::SeatLemmas::new_own))]
pub(crate) fn seats_of(
    alloc: Global,
    mut list: SeatList,
    count: u32,
) -> Result<Vec<LaneSeat>, NoMemory>
    ensures new { IfOk result (λ seats.
        All (λ seat. (seat.clock ≡ list.clock) × (own seat ≡ [])) seats.items) }
{
    let mut seats = Vec::with_capacity(alloc, count as usize)?;
    for _ in 0..count {
        let Some(seat) = list.next() else { break };
        seats.push(seat)?;
    }
    Ok(seats)
}
