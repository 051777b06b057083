ghost use Rattle.std.specs.Prelude.{◌≡◌, ◌+◌, ◌^◌, ◌<◌, ℕ, length, map, IfOk};
ghost use Rattle.std.specs.List.{range_with_len};
ghost use Rattle.lane_map.specs.LaneNumbers.{act_passes, asks_reactor, cells_on, has_cell, home_lane, operations_on, passing_before, rank_of, reactor_lane};

use asio_types::{ActNo, NoMemory};
use session_script::{Act, Script};
use std::alloc::Global;

/// Whether an act is an asynchronous operation or a control act.
fn asks_reactor(act: &Act) -> bool
    ensures { result ≡ asks_reactor act.now }
{
    match act {
        Act::Post { .. } | Act::Defer { .. } | Act::Dispatch { .. } | Act::Stop => false,
        Act::Wait { .. } | Act::ReadSome { .. } | Act::ReadAll { .. } | Act::Until { .. } => true,
        Act::WriteSome { .. } | Act::WriteAll { .. } | Act::Expires { .. } => true,
        Act::ExpiresAt { .. } | Act::Cancel { .. } | Act::CancelOne { .. } => true,
        Act::Emit { .. } | Act::Close { .. } | Act::Release { .. } => true,
    }
}

/// How many acts are asynchronous operations or control acts.
fn requests(script: &Script) -> u32
    ensures { result
        ≡ passing_before (act_passes asks_reactor script.now) (length script.now.acts) }
{
    let mut requests = 0;
    for a in 0..script.acts() {
        if asks_reactor(script.act(a)) {
            requests += 1;
        }
    }
    requests
}

/// Whether an act is an operation that doesn't execute inside its call.
fn has_cell(script: &Script, a: ActNo) -> bool
    requires { a < length script.now.acts }
    ensures { result ≡ has_cell script.now a }
{
    script.is_op(a) && !script.is_inline(a)
}

/// How many cells each of these lanes has, of which the last is the reactor's, where `home` is of
/// each act the number of its lane.
pub(crate) fn cells(
    alloc: Global,
    script: &Script,
    home: &[u32],
    reactor: u32,
) -> Result<Vec<u32>, NoMemory>
    requires homes { home.now
        ≡ map (home_lane script.now) (range_with_len 0 (length script.now.acts)) }
    requires within { (n : ℕ) → n < length script.now.acts → home_lane script.now n < reactor + 1 }
    requires last { reactor ≡ reactor_lane script.now }
    requires few { reactor + 1 < 2 ^ 32 }
    ensures { IfOk result (λ cells.
        cells.items ≡ map (cells_on script.now) (range_with_len 0 (reactor + 1))) }
{
    let mut cells = vec![in alloc; 0u32; reactor as usize + 1]?;
    for a in 0..script.acts() {
        if has_cell(script, a) {
            cells[home[a as usize] as usize] += 1;
        }
    }
    cells[reactor as usize] = requests(script);
    Ok(cells)
}

/// What is counted lane by lane, from the first act on.
pub(crate) struct Ranking {
    /// Of each act how many operations of its lane have a smaller number.
    pub(crate) rank: Vec<u32>,
    /// Of each lane how many operations it has.
    pub(crate) operations: Vec<u32>,
}

/// The ranks of all acts in their lanes, where `home` is of each act the number of its lane.
pub(crate) fn ranks(
    alloc: Global,
    script: &Script,
    home: &[u32],
    lanes: u32,
) -> Result<Ranking, NoMemory>
    requires homes { home.now
        ≡ map (home_lane script.now) (range_with_len 0 (length script.now.acts)) }
    requires within { (n : ℕ) → n < length script.now.acts → home_lane script.now n < lanes }
    ensures ranks { IfOk result (λ ranks.
        ranks.rank.items ≡ map (rank_of script.now) (range_with_len 0 (length script.now.acts))) }
    ensures operations { IfOk result (λ ranks.
        ranks.operations.items ≡ map (operations_on script.now) (range_with_len 0 lanes)) }
{
    let mut operations = vec![in alloc; 0u32; lanes as usize]?;
    let mut rank = Vec::with_capacity(alloc, home.len())?;
    for a in 0..script.acts() {
        let lane = home[a as usize] as usize;
        rank.push_reserved(operations[lane]);
        if script.is_op(a) {
            operations[lane] += 1;
        }
    }
    Ok(Ranking { rank, operations })
}
