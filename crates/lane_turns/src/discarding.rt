//! The handlers that are left when a session is over are destroyed.
ghost use Rattle.std.specs.Prelude.{◌≡◌, ◌+◌, ◌*◌, ◌^◌, ◌<◌, ◌≤◌, All, None, IfSome, IsSome, IsTrue, false, true, length, map, slice_index_or, slice_set, unwrap_or, vec_capacity, if◌then◌else◌};
ghost use Rattle.std.specs.List.{flat_map};
ghost use Rattle.std.specs.Option.{option_map};
ghost use Rattle.lane_map.specs.LaneNumbers.{home_lane, reactor_lane};
ghost use Rattle.session_script.specs.Script.{is_op};
ghost use Rattle.strand_core.specs.Hands.{CallerIsGone};
ghost use Rattle.lane_logs.specs.Drops.{drops_of, untouched_mark, untouched_marks};
ghost use Rattle.lane_logs.specs.Labels.{events_in};
ghost use Rattle.lane_logs.specs.LaneLog.{has_begun};
ghost use Rattle.lane_turns.specs.Discarding.{HoldsNone, IsDiscarding, held_on, without};

use crate::op_lanes::operations_have_lanes;
use crate::seeing::SeenActs;
use asio_types::{Event, OpNo};
use lane_logs::{LaneSession, LogEntry};
use lane_map::LaneMap;
use op_handlers::CompletionHandler;
use session_script::{Script, parents_come_first};
use strand_core::Hands;

// Destroys the handler of an operation, if its lane holds it, and answers the drop mark.
fn discard_on<'a, H: CompletionHandler>(
    hands: &mut [Option<Hands<'a, H>>],
    lane: u32,
    op: OpNo,
) -> Option<u64>
    requires lane { lane < length hands.old }
    requires gone { IfSome (slice_index_or hands.old lane None) (λ own. CallerIsGone own op) }
    ensures mark { result
        ≡ option_map (λ handler. (H.marks handler).drop) (held_on hands.old lane op) }
    ensures after { hands.new
        ≡ slice_set hands.old lane (without op (slice_index_or hands.old lane None)) }
{
    let slot = &mut hands[lane as usize];
    match slot.take() {
        Some(own) => {
            let (own, mark) = own.discard(op);
            match slot.replace(own) {
                Some(other) => {
                    other.discard_all();
                }
                None => {}
            }
            mark
        }
        None => None,
    }
}

/// What is told of the handlers that are left when a session is over: the drops of those whose
/// operations were initiated, and the sum of the drop marks of all others that never ran.
pub struct Discarded {
    pub drops: Vec<Event>,
    pub let_go: u128,
}

// The drop mark that was told of an operation whose handler never began; 0 of any other.
fn unbegun_mark(seen: &SeenActs<'_>, op: OpNo, mark: Option<u64>) -> u64
    requires { op < seen.now.acts }
    ensures { result ≡ (if has_begun op seen.now.events then 0 else unwrap_or mark 0) }
{
    if seen.has_begun(op) {
        return 0;
    }
    mark.unwrap_or(0)
}

// Destroys the handler of an operation, and notes its drop where it was called and never began; of one
// that was never called it answers the drop mark.
fn discard_next<'a, H: CompletionHandler, N: LaneSession>(
    script: &'a Script,
    map: &LaneMap<'a>,
    hands: &mut [Option<Hands<'a, H>>],
    seen: &SeenActs<'_>,
    drops: &mut Vec<Event>,
    op: OpNo,
) -> u64
    requires script { script.now ≡ N.names.script }
    requires map { map.now ≡ script.now }
    requires act { op < length script.now.acts }
    requires seen { seen.now.acts ≡ length script.now.acts }
    requires room { op < vec_capacity drops.old }
    requires so_far { IsDiscarding N.names H.marks seen.now.events op hands.old drops.old.items }
    ensures so_far { IsDiscarding N.names H.marks seen.now.events (op + 1) hands.new
        drops.new.items }
    ensures capacity { vec_capacity drops.new ≡ vec_capacity drops.old }
    ensures let_go { result ≡ untouched_mark N.names seen.now.events op }
{
    parents_come_first(script);
    operations_have_lanes(script);
    if !script.is_op(op) {
        return 0;
    }
    let mark = discard_on(hands, map.home(op), op);
    if !seen.is_left(op) {
        return unbegun_mark(seen, op, mark);
    }
    if let Some(mark) = mark {
        drops.push_reserved(Event::Dropped { op, mark });
        return 0;
    }
    0
}

// Destroys all handlers that are left, by rising number of the operation. Notes the drops of those that
// the logs have called and that never began, for which there is room, and answers the sum of the drop
// marks of those that they haven't called.
fn discard_each<'a, H: CompletionHandler, N: LaneSession>(
    script: &'a Script,
    map: &LaneMap<'a>,
    hands: &mut [Option<Hands<'a, H>>],
    seen: &SeenActs<'_>,
    drops: &mut Vec<Event>,
) -> u128
    requires script { script.now ≡ N.names.script }
    requires map { map.now ≡ script.now }
    requires seen { seen.now.acts ≡ length script.now.acts }
    requires room { length script.now.acts ≤ vec_capacity drops.old }
    requires first { IsDiscarding N.names H.marks seen.now.events 0 hands.old drops.old.items }
    ensures drops { drops.new.items ≡ drops_of N.names seen.now.events }
    ensures let_go { result
        ≡ untouched_marks N.names seen.now.events (length N.names.script.acts) }
    ensures few { result < 2 ^ 96 }
{
    let mut let_go: u128 = 0;
    for op in 0..script.acts() {
        let_go += discard_next::<H, N>(script, map, hands, seen, drops, op) as u128;
    }
    let_go
}

/// Destroys all handlers that are left, by rising number of the operation, and answers the drops of
/// those that the logs have called and that never began, and the sum of the drop marks of those that
/// they haven't called. `drops` is the room for the drops.
pub fn discard_all<'a, H: CompletionHandler, N: LaneSession>(
    script: &'a Script,
    map: &LaneMap<'a>,
    mut hands: Vec<Option<Hands<'a, H>>>,
    seen: &SeenActs<'_>,
    mut drops: Vec<Event>,
) -> Discarded
    requires script { script.now ≡ N.names.script }
    requires map { map.now ≡ script.now }
    requires seen { seen.now.acts ≡ length script.now.acts }
    requires room { length script.now.acts ≤ vec_capacity drops }
    requires first { IsDiscarding N.names H.marks seen.now.events 0 hands.items drops.items }
    ensures drops { result.drops.items ≡ drops_of N.names seen.now.events }
    ensures let_go { result.let_go
        ≡ untouched_marks N.names seen.now.events (length N.names.script.acts) }
    ensures few { result.let_go < 2 ^ 96 }
{
    let let_go = discard_each::<H, N>(script, map, hands.as_mut_slice(), seen, &mut drops);
    discard_none_left(hands);
    Discarded { drops, let_go }
}

// Whether the handler of an operation is held on its lane.
fn is_held<H>(script: &Script, map: &LaneMap<'_>, hands: &[Option<Hands<'_, H>>], op: OpNo) -> bool
    requires map { map.now ≡ script.now }
    requires act { op < length script.now.acts }
    requires count { length hands.now ≡ reactor_lane script.now }
    ensures { is_op script.now op ≡ true → IsSome (held_on hands.now (home_lane script.now op) op) →
        IsTrue result }
{
    operations_have_lanes(script);
    if !script.is_op(op) {
        return false;
    }
    match &hands[map.home(op) as usize] {
        Some(own) => own.holds(op),
        None => false,
    }
}

// Whether no handler is held on any lane.
fn holds_none<H>(script: &Script, map: &LaneMap<'_>, hands: &[Option<Hands<'_, H>>]) -> bool
    requires map { map.now ≡ script.now }
    requires count { length hands.now ≡ reactor_lane script.now }
    ensures { IsTrue result → HoldsNone script.now hands.now }
{
    for op in 0..script.acts() {
        if is_held(script, map, hands, op) {
            return false;
        }
    }
    true
}

/// The drops of the operations that the logs have called and that never began, and the sum of the drop
/// marks of those that they haven't called. Where no handler is left, there are none, and nothing is
/// looked for in the logs. `called` and `begun` are the room for a mark for each act,
/// and `drops` for the drops.
pub fn discard_left<'a, H: CompletionHandler, N: LaneSession>(
    script: &'a Script,
    lanes: &LaneMap<'a>,
    hands: Vec<Option<Hands<'a, H>>>,
    logs: &[Vec<LogEntry>],
    called: Vec<bool>,
    begun: Vec<bool>,
    drops: Vec<Event>,
) -> Discarded
    requires script { script.now ≡ N.names.script }
    requires lanes { lanes.now ≡ script.now }
    requires none_called { All (λ is. is ≡ false) called.items }
    requires none_begun { All (λ is. is ≡ false) begun.items }
    requires calls { length called.items ≡ length script.now.acts }
    requires begins { length begun.items ≡ length script.now.acts }
    requires room { length script.now.acts ≤ vec_capacity drops }
    requires first { IsDiscarding N.names H.marks
        (flat_map events_in (map (λ log. log.items) logs.now)) 0 hands.items drops.items }
    ensures drops { result.drops.items
        ≡ drops_of N.names (flat_map events_in (map (λ log. log.items) logs.now)) }
    ensures let_go { result.let_go ≡ untouched_marks N.names
        (flat_map events_in (map (λ log. log.items) logs.now)) (length N.names.script.acts) }
    ensures few { result.let_go < 2 ^ 96 }
{
    if holds_none(script, lanes, hands.as_slice()) {
        discard_none_left(hands);
        return Discarded { drops, let_go: 0 };
    }
    let seen = SeenActs::in_logs(logs, called, begun);
    discard_all::<H, N>(script, lanes, hands, &seen, drops)
}

// Lets go of hands that hold nothing any more.
fn discard_none_left<H: CompletionHandler>(hands: Vec<Option<Hands<'_, H>>>) {
    let mut rest = hands.into_iter();
    while let Some(hands) = rest.next() {
        if let Some(own) = hands {
            own.discard_all();
        }
    }
    rest.destroy_empty();
}
