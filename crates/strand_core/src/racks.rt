ghost use Rattle.std.specs.Prelude.{◌≡◌, ◌<◌, ℕ, [], get_or, length, map, replicate, slice_get, slice_set, true, None, Some, IsSome, IfOk};
ghost use Rattle.std.specs.List.{range_with_len};
ghost use Rattle.op_handlers.specs.Rack.{handler_at, handlers_in};
ghost use Rattle.session_script.specs.Script.{is_op};
ghost use Rattle.lane_map.specs.LaneNumbers.{is_op_on, lane_list, operations_on};
ghost use Rattle.strand_core.specs.Hands.{in_list, left_at, taken_at};
ghost use Rattle.strand_core.specs.Placing.{spread};

use asio_types::{ActNo, NoMemory};
use lane_map::{LaneMap, lanes_have_their_numbers};
use op_handlers::{CompletionHandler, Rack};
use session_script::Script;
use std::alloc::Global;

/// A rack of so many numbers with nothing at any.
pub(crate) fn empty_rack<H>(alloc: Global, count: u32) -> Result<Rack<H>, NoMemory>
    ensures { IfOk result (λ rack. handlers_in rack ≡ replicate count None) }
{
    let mut slots = Vec::with_capacity(alloc, count as usize)?;
    for _ in 0..count {
        slots.push_reserved(None);
    }
    Ok(Rack::of(slots))
}

/// Moves a handler from its number in one rack to a place in another, where nothing is.
pub(crate) fn move_handler<H>(from: &mut Rack<H>, a: ActNo, to: &mut Rack<H>, place: u32)
    requires there { IsSome (handler_at from.old a) }
    requires free { slice_get (handlers_in to.old) place ≡ Some None }
    ensures taken { handlers_in from.new ≡ slice_set (handlers_in from.old) a None }
    ensures put { handlers_in to.new
        ≡ slice_set (handlers_in to.old) place (handler_at from.old a) }
{
    match from.take(a) {
        Some(handler) => to.put(place, handler),
        None => unreachable!(),
    }
}

/// Discards all handlers of some racks.
pub(crate) fn discard_racks<H: CompletionHandler>(racks: Vec<Rack<H>>) {
    let mut rest = racks.into_iter();
    while let Some(rack) = rest.next() {
        rack.discard_all();
    }
    rest.destroy_empty();
}

/// A rack for each lane, of as many numbers as it has operations, with nothing at any.
pub(crate) fn empty_racks<H: CompletionHandler>(
    alloc: Global,
    lanes: &LaneMap<'_>,
) -> Result<Vec<Rack<H>>, NoMemory>
    ensures { IfOk result (λ racks.
        map handlers_in racks.items
        ≡ map (λ lane. replicate (operations_on lanes.now lane) None)
        (range_with_len 0 (length (lane_list lanes.now)))) }
{
    let mut racks = Vec::with_capacity(alloc, lanes.lanes() as usize)?;
    for lane in 0..lanes.lanes() {
        match empty_rack(alloc, lanes.operations(lane)) {
            Ok(rack) => racks.push_reserved(rack),
            Err(fault) => {
                discard_racks(racks);
                return Err(fault);
            }
        }
    }
    Ok(racks)
}

/// Moves the handlers of all operations out of a rack, each to the rack of its lane and there to
/// its rank. It looks at each act once.
pub(crate) fn filled_racks<H>(
    script: &Script,
    lanes: &LaneMap<'_>,
    from: &mut Rack<H>,
    racks: Vec<Rack<H>>,
) -> Vec<Rack<H>>
    requires lanes { lanes.now ≡ script.now }
    requires there { (n : ℕ) → is_op script.now n ≡ true → IsSome (handler_at from.old n) }
    requires empty { map handlers_in racks.items
        ≡ map (λ lane. replicate (operations_on lanes.now lane) None)
        (range_with_len 0 (length (lane_list lanes.now))) }
    ensures size { length result.items ≡ length racks.items }
    ensures sizes { (lane : ℕ) → lane < length racks.items →
        length (get_or (map handlers_in result.items) lane []) ≡ operations_on script.now lane }
    ensures held { (lane n : ℕ) → lane < length racks.items →
        in_list (spread (is_op_on script.now lane) (length script.now.acts)
        (get_or (map handlers_in result.items) lane [])) n
        ≡ taken_at (is_op_on script.now lane n) (handler_at from.old n) }
    ensures left { (n : ℕ) →
        handler_at from.new n ≡ left_at (is_op script.now n) (handler_at from.old n) }
    ensures count { length (handlers_in from.new) ≡ length (handlers_in from.old) }
{
    lanes_have_their_numbers(script);
    let mut racks = racks;
    for a in 0..script.acts() {
        if script.is_op(a) {
            let lane = &mut racks[lanes.home(a) as usize];
            move_handler(from, a, lane, lanes.rank(a));
        }
    }
    racks
}
