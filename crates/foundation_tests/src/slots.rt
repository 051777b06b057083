//! What an emit on a slot reaches.

ghost use Rattle.std.specs.Prelude.{◌≡◌, ◌<◌, length};

use asio_types::{NoMemory, OpNo, SlotNo, Types};
use cancel_slots::CancelSlots;

/// What is asked of a slot, with the bits of the types, and what it answers.
#[derive(Clone, Copy)]
enum Step {
    Connect(OpNo, u8),
    Clear(OpNo, bool),
    Emit(u8, Option<OpNo>),
    Connected(Option<OpNo>),
}

/// Whether the slot answers so.
fn is_so(slots: &mut CancelSlots, slot: SlotNo, step: Step) -> Option<bool>
    requires { slot < length slots.old }
    ensures { length slots.new ≡ length slots.old }
{
    match step {
        Step::Connect(op, types) => {
            slots.connect(slot, op, Types::of(types)?);
            Some(true)
        }
        Step::Clear(op, was_there) => Some(slots.clear_if(slot, op) == was_there),
        Step::Emit(types, op) => Some(slots.chosen(slot, Types::of(types)?) == op),
        Step::Connected(op) => Some(slots.connected(slot) == op),
    }
}

const TERMINAL: u8 = 1;

const TOTAL: u8 = 4;

/// Terminal and partial.
const BOTH: u8 = 3;

const ALL: u8 = 7;

const STEPS: &[(SlotNo, Step)] = &[
    (0, Step::Connected(None)),
    (0, Step::Clear(5, false)),
    // a wait on slot 0, and a composed read on slot 2, which total alone doesn't reach
    (0, Step::Connect(5, ALL)),
    (2, Step::Connect(6, BOTH)),
    (1, Step::Connected(None)),
    (2, Step::Emit(TOTAL, None)),
    (2, Step::Emit(TERMINAL, Some(6))),
    (0, Step::Emit(TOTAL, Some(5))),
    (1, Step::Emit(ALL, None)),
    // the latest operation replaces the one that was there, whose completion leaves the slot
    // alone
    (0, Step::Connect(7, TERMINAL)),
    (0, Step::Emit(TOTAL, None)),
    (0, Step::Clear(5, false)),
    (0, Step::Emit(BOTH, Some(7))),
    (0, Step::Clear(7, true)),
    (0, Step::Connected(None)),
    (2, Step::Connected(Some(6))),
];

#[test]
fn a_slot_holds_the_latest_operation_until_it_completes(rt: HostRuntime) -> Result<(), NoMemory> {
    let mut slots = CancelSlots::with_room(rt.alloc(), 3)?;
    for (at, (slot, step)) in STEPS.iter().enumerate() {
        assert!(rt; *slot < 3);
        assert_eq!(rt; is_so(&mut slots, *slot, *step), Some(true), "at step {at}");
    }
    Ok(())
}
