ghost use Rattle.std.specs.Prelude.{◌≡◌, ◌↔◌, ◌<◌, ℕ, ◌≤◌, ◌^◌, [], get_or, length, map, true, None, Some, IsSome, IsTrue, IfOk, IfErr, IfSome, slice_get, slice_set, vec_capacity};
ghost use Rattle.std.specs.List.{range_with_len};
ghost use Rattle.std.specs.Option.{option_map};
ghost use Rattle.op_handlers.specs.Rack.{drop_marks, handler_at, handlers_in};
ghost use Rattle.session_script.specs.Script.{is_op};
ghost use Rattle.lane_map.specs.LaneNumbers.{is_op_on, lane_list, operations_on};
ghost use Rattle.strand_core.specs.Hands.{CallerIsGone, HasInlineOf, KeepsInline, held_at, is_of_lane, is_op_of, left_at, or_other, taken_at};
ghost use Rattle.strand_core.specs.Placing.{spread};

use crate::lane::is_of;
use crate::placing::{Placing, place_of};
use crate::racks::{discard_racks, empty_rack, empty_racks, filled_racks, move_handler};
use asio_types::{Lane, NoMemory, OpNo};
use lane_map::LaneMap;
use op_handlers::{CompletionHandler, Handler, Rack};
use session_script::{Script, parents_come_first};
use std::alloc::Global;
use std::marker::Model;

/// The handlers of the operations of one lane of a script, or of all lanes, each found by its
/// number at constant cost. With the handler of an operation they hold those of all operations that
/// execute inside it. They must be spent or given back (Asio reference, "Requirements on
/// asynchronous operations": a handler is called at most once, or destroyed).
///
/// Contracts see the script, and at each number a handler or nothing.
pub struct Hands<'a, H = Handler> {
    script: &'a Script,
    placing: Placing<'a>,
    // at each place the handler, where it is held
    held: Rack<H>,
}

impl<'a, H> Model for Hands<'a, H> {
    ghost use Rattle.std.specs.Prelude.{◌≡◌, length};
    ghost use Rattle.op_handlers.specs.Rack.{handlers_in};
    ghost use Rattle.lane_map.specs.LaneNumbers.{passing_before};
    ghost use Rattle.strand_core.specs.Hands.{Held, KeepsInline};
    ghost use Rattle.strand_core.specs.Placing.{IsPlacingOf, has_place, spread};

    ghost Value = { Held H };

    ghost view = { λ h. record {
      script = h.script.now;
      handlers = spread (has_place h.script.now h.placing) (length h.script.now.acts)
          (handlers_in h.held);
    } };

    ghost invariant = { λ h. record {
      placed : IsPlacingOf h.script.now h.placing;
      size : length (handlers_in h.held)
          ≡ passing_before (has_place h.script.now h.placing) (length h.script.now.acts);
      keeps : KeepsInline h.script.now
          (spread (has_place h.script.now h.placing) (length h.script.now.acts)
          (handlers_in h.held));
    } };
}

/// The hands of each lane, by these racks of their handlers. `hands` has room for them.
fn hands_of_racks<'a, H>(
    script: &'a Script,
    lanes: &'a LaneMap<'a>,
    racks: Vec<Rack<H>>,
    hands: Vec<Hands<'a, H>>,
) -> Vec<Hands<'a, H>>
    requires lanes { lanes.now ≡ script.now }
    requires none { hands.items ≡ [] }
    requires room { length racks.items ≤ vec_capacity hands }
    requires few { length racks.items < 2 ^ 32 }
    requires sizes { (lane : ℕ) → lane < length racks.items →
        length (get_or (map handlers_in racks.items) lane []) ≡ operations_on script.now lane }
    requires keeps { (lane : ℕ) → lane < length racks.items →
        KeepsInline script.now
        (spread (is_op_on script.now lane) (length script.now.acts)
        (get_or (map handlers_in racks.items) lane [])) }
    ensures { result.items ≡ map (λ lane. record {
      script = script.now;
      handlers = spread (is_op_on script.now lane) (length script.now.acts)
          (get_or (map handlers_in racks.items) lane []);
    }) (range_with_len 0 (length racks.items)) }
{
    let mut hands = hands;
    let mut rest = racks.into_iter();
    let mut lane = 0;
    while let Some(held) = rest.next() {
        let placing = Placing::ByRank { lanes, lane };
        hands.push_reserved(Hands {
            script,
            placing,
            held,
        });
        lane += 1;
    }
    rest.destroy_empty();
    hands
}

impl<'a, H> Hands<'a, H> {
    /// Takes the handlers of the operations of a lane out of the rack, and leaves the others. Takes
    /// memory in proportion to the acts, and looks at each once; where the memory is refused, the
    /// rack is as before. Those of all lanes are taken by `of_lanes`.
    pub fn of_lane(
        alloc: Global,
        script: &'a Script,
        lane: Lane,
        rack: &mut Rack<H>,
    ) -> Result<Hands<'a, H>, NoMemory>
        requires { (n : ℕ) → is_of_lane script.now lane n ≡ true → IsSome (handler_at rack.old n) }
        ensures script { IfOk result (λ hands. hands.script ≡ script.now) }
        ensures held { IfOk result (λ hands. (n : ℕ) →
            held_at hands n ≡ taken_at (is_of_lane script.now lane n) (handler_at rack.old n)) }
        ensures left { IfOk result (λ hands.
            (n : ℕ) →
            handler_at rack.new n
            ≡ left_at (is_of_lane script.now lane n) (handler_at rack.old n)) }
        ensures count { IfOk result
            (λ hands. length (handlers_in rack.new) ≡ length (handlers_in rack.old)) }
        ensures refused { IfErr result (λ fault. rack.new ≡ rack.old) }
    {
        Hands::of_operations(alloc, script, Some(lane), rack)
    }

    /// Takes the handlers of all operations of a script out of the rack. Takes memory in proportion
    /// to the acts, and looks at each once; where the memory is refused, the rack is as before.
    pub fn of_script(
        alloc: Global,
        script: &'a Script,
        rack: &mut Rack<H>,
    ) -> Result<Hands<'a, H>, NoMemory>
        requires { (n : ℕ) → is_op script.now n ≡ true → IsSome (handler_at rack.old n) }
        ensures script { IfOk result (λ hands. hands.script ≡ script.now) }
        ensures held { IfOk result (λ hands. (n : ℕ) →
            held_at hands n ≡ taken_at (is_op script.now n) (handler_at rack.old n)) }
        ensures left { IfOk result (λ hands. (n : ℕ) →
            handler_at rack.new n ≡ left_at (is_op script.now n) (handler_at rack.old n)) }
        ensures count { IfOk result
            (λ hands. length (handlers_in rack.new) ≡ length (handlers_in rack.old)) }
        ensures refused { IfErr result (λ fault. rack.new ≡ rack.old) }
    {
        Hands::of_operations(alloc, script, None, rack)
    }

    /// Takes the handlers of the operations of this lane, or of all where none is named.
    fn of_operations(
        alloc: Global,
        script: &'a Script,
        lane: Option<Lane>,
        rack: &mut Rack<H>,
    ) -> Result<Hands<'a, H>, NoMemory>
        requires { (n : ℕ) → is_op_of script.now lane n ≡ true → IsSome (handler_at rack.old n) }
        ensures script { IfOk result (λ hands. hands.script ≡ script.now) }
        ensures held { IfOk result (λ hands. (n : ℕ) →
            held_at hands n ≡ taken_at (is_op_of script.now lane n) (handler_at rack.old n)) }
        ensures left { IfOk result (λ hands. (n : ℕ) →
            handler_at rack.new n ≡ left_at (is_op_of script.now lane n) (handler_at rack.old n)) }
        ensures count { IfOk result
            (λ hands. length (handlers_in rack.new) ≡ length (handlers_in rack.old)) }
        ensures refused { IfErr result (λ fault. rack.new ≡ rack.old) }
    {
        parents_come_first(script);
        let mut held = empty_rack(alloc, script.acts())?;
        for a in 0..script.acts() {
            if is_of(script, lane, a) {
                move_handler(rack, a, &mut held, a);
            }
        }
        Ok(Hands {
            script,
            placing: Placing::ByNumber,
            held,
        })
    }

    /// Whether the handler of an operation is held.
    pub fn holds(&self, op: OpNo) -> bool
        ensures { IsTrue result ↔ IsSome (held_at self.now op) }
    {
        match place_of(self.script, self.placing, op) {
            Some(place) => self.held.holds(place),
            None => false,
        }
    }

    /// With the handler of an operation those of all that execute inside it are held.
    pub fn keeps_inline(&self)
        ensures { KeepsInline self.now.script self.now.handlers }
    {
        let _script = self.script;
    }

    /// Takes the handler of an operation: `None` exactly where it isn't held.
    pub(crate) fn take(&mut self, op: OpNo) -> Option<H>
        requires { CallerIsGone self.old op }
        ensures taken { result ≡ held_at self.old op }
        ensures after { self.new.handlers ≡ slice_set self.old.handlers op None }
        ensures script { self.new.script ≡ self.old.script }
        ensures within { IsSome result → op < length self.old.script.acts }
        ensures inside { IsSome result → HasInlineOf self.new.script self.new.handlers op }
    {
        parents_come_first(self.script);
        match place_of(self.script, self.placing, op) {
            Some(place) => self.held.take(place),
            None => None,
        }
    }
}

impl<'a, H: CompletionHandler> Hands<'a, H> {
    /// Takes the handlers of all operations of a script out of the rack, and gives the hands of
    /// each lane, by its number. Takes memory in proportion to the operations and the
    /// lanes, and looks at each act once; where the memory is refused, the rack is as before.
    pub fn of_lanes(
        alloc: Global,
        script: &'a Script,
        lanes: &'a LaneMap<'a>,
        rack: &mut Rack<H>,
    ) -> Result<Vec<Hands<'a, H>>, NoMemory>
        requires lanes { lanes.now ≡ script.now }
        requires there { (n : ℕ) → is_op script.now n ≡ true → IsSome (handler_at rack.old n) }
        ensures number { IfOk result
            (λ hands. length hands.items ≡ length (lane_list script.now)) }
        ensures script { IfOk result (λ hands. (lane : ℕ) →
            IfSome (slice_get hands.items lane) (λ own. own.script ≡ script.now)) }
        ensures held { IfOk result (λ hands. (lane n : ℕ) →
            IfSome (slice_get hands.items lane) (λ own. held_at own n
            ≡ taken_at (is_op_on script.now lane n) (handler_at rack.old n))) }
        ensures left { IfOk result (λ hands. (n : ℕ) →
            handler_at rack.new n ≡ left_at (is_op script.now n) (handler_at rack.old n)) }
        ensures count { IfOk result
            (λ hands. length (handlers_in rack.new) ≡ length (handlers_in rack.old)) }
        ensures refused { IfErr result (λ fault. rack.new ≡ rack.old) }
    {
        parents_come_first(script);
        let racks = empty_racks(alloc, lanes)?;
        let hands = match Vec::with_capacity(alloc, lanes.lanes() as usize) {
            Ok(hands) => hands,
            Err(_) => {
                discard_racks(racks);
                return Err(NoMemory);
            }
        };
        let racks = filled_racks(script, lanes, rack, racks);
        Ok(hands_of_racks(script, lanes, racks, hands))
    }

    /// Puts the handlers back into the rack, which has nothing at their numbers. Takes no memory,
    /// and looks at each act.
    pub fn give_back(self, rack: &mut Rack<H>)
        requires { (n : ℕ) → IsSome (held_at self n) →
            slice_get (handlers_in rack.old) n ≡ Some None }
        ensures put { (n : ℕ) →
            handler_at rack.new n ≡ or_other (held_at self.entry n) (handler_at rack.old n) }
        ensures count { length (handlers_in rack.new) ≡ length (handlers_in rack.old) }
    {
        let script = self.script;
        let mut hands = self;
        parents_come_first(script);
        for n in 0..script.acts() {
            if let Some(handler) = hands.take(n) {
                rack.put(n, handler);
            }
        }
        hands.discard_all();
    }

    /// Discards the handler of an operation, and answers its drop mark: `None` exactly where it
    /// isn't held. Where the operation executes inside another one, that one's handler is gone.
    pub fn discard(mut self, op: OpNo) -> (Hands<'a, H>, Option<u64>)
        requires { CallerIsGone self op }
        ensures mark { result.1
            ≡ option_map (λ handler. (H.marks handler).drop) (held_at self.entry op) }
        ensures after { result.0.handlers ≡ slice_set self.entry.handlers op None }
        ensures script { result.0.script ≡ self.entry.script }
    {
        let mark = match self.take(op) {
            Some(handler) => Some(handler.discard()),
            None => None,
        };
        (self, mark)
    }

    /// Discards the handlers that are left, in rising number, and executes none. Answers the sum of
    /// the drop marks, which discarding alone tells.
    pub fn discard_all(self) -> u128
        ensures marks { result ≡ drop_marks H.marks self.entry.handlers }
        ensures few { result ≤ 2 ^ 96 }
    {
        let Hands {
            script: _,
            placing: _,
            held: rest,
        } = self;
        rest.discard_all()
    }
}
