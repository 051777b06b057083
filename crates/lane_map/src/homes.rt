ghost use Rattle.std.specs.Prelude.{◌≡◌, ◌<◌, ◌≤◌, length, map, IfOk};
ghost use Rattle.std.specs.List.{range_with_len};
ghost use Rattle.session_script.specs.Limits.{most_acts};
ghost use Rattle.lane_map.specs.LaneNumbers.{has_own_lane, home_lane, is_own, own_number, passing_before, reactor_lane};

use asio_types::{ActNo, Lane, NoMemory};
use session_script::{Script, acts_fit, parents_come_first};
use std::alloc::Global;

/// Whether a lane is the private place of this act.
fn is_own(a: ActNo, lane: Lane) -> bool
    ensures { result ≡ is_own a lane }
{
    match lane {
        Lane::Own(op) => op == a,
        Lane::Strand(_) | Lane::Reactor => false,
    }
}

/// How many operations have a private place.
pub(crate) fn own_lanes(script: &Script) -> u32
    ensures count { result ≡ passing_before (has_own_lane script.now) (length script.now.acts) }
    ensures few { result ≤ most_acts }
{
    let mut own = 0;
    for a in 0..script.acts() {
        if is_own(a, script.lane_of(a)) {
            own += 1;
        }
    }
    own
}

/// The number of an act's lane, where `homes` are those of the acts before it, `own` is the number
/// of the next private place, and `reactor` that of the reactor's lane.
fn home_in(script: &Script, homes: &[u32], a: ActNo, own: u32, reactor: u32) -> u32
    requires within { a < length script.now.acts }
    requires homes { homes.now ≡ map (home_lane script.now) (range_with_len 0 a) }
    requires own { own ≡ own_number script.now a }
    requires reactor { reactor ≡ reactor_lane script.now }
    ensures { result ≡ home_lane script.now a }
{
    parents_come_first(script);
    acts_fit(script);
    match script.lane_of(a) {
        Lane::Strand(strand) => strand as u32,
        Lane::Own(op) => { if op == a { own } else { homes[op as usize] } }
        Lane::Reactor => reactor,
    }
}

/// Of each act the number of its lane.
pub(crate) fn homes(alloc: Global, script: &Script) -> Result<Vec<u32>, NoMemory>
    ensures { IfOk result (λ homes.
        homes.items ≡ map (home_lane script.now) (range_with_len 0 (length script.now.acts))) }
{
    let mut own = script.strands() as u32;
    let reactor = own + own_lanes(script);
    let mut homes = Vec::with_capacity(alloc, script.acts() as usize)?;
    for a in 0..script.acts() {
        let home = home_in(script, homes.as_slice(), a, own, reactor);
        homes.push_reserved(home);
        if is_own(a, script.lane_of(a)) {
            own += 1;
        }
    }
    Ok(homes)
}
