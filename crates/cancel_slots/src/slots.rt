ghost use Rattle.std.specs.Prelude.{◌≡◌, ◌≢◌, ℕ, ◌<◌, ◌↔◌, length, replicate, slice_set, IfOk, IsTrue, IsSomeAnd, bit_and};
ghost use Rattle.std.specs.Bool.{OnTrue, OnFalse};
ghost use Rattle.std.specs.Option.{option_map};
ghost use Rattle.cancel_slots.specs.Slots.{connection_of, chosen_by, IsSameBut};

use crate::connection::Connection;
use asio_types::{NoMemory, OpNo, SlotNo, Types};
use std::alloc::Global;
use std::marker::Model;

/// The slots of a session (Asio reference, `cancellation_slot`; Overview, "Per-Operation
/// Cancellation"), numbered from 0. Contracts see the list that has for each slot what is connected
/// to it, if anything is. Every call but `with_room` takes constant time and no memory.
#[derive(Drop)]
pub struct CancelSlots {
    // at the number of each slot what is connected to it, if anything is
    slots: Vec<Option<Connection>>,
}

impl Model for CancelSlots {
    ghost use Rattle.std.specs.Prelude.{List, Option};
    ghost use Rattle.cancel_slots.specs.declared.connection.Connection.{Connection};

    ghost Value = { List (Option Connection) };

    ghost view = { λ s. s.slots.items };
}

impl CancelSlots {
    /// So many slots, with nothing connected. Takes memory for all of them; `NoMemory` where it is
    /// refused.
    pub fn with_room(alloc: Global, slots: u8) -> Result<CancelSlots, NoMemory>
        ensures { IfOk result (λ made. made ≡ replicate slots None) }
    {
        let slots = vec![in alloc; None; slots as usize]?;
        Ok(CancelSlots { slots })
    }

    /// Connects an operation to a slot, where it replaces what was there: from now on an emit on
    /// that slot reaches this operation, if it emits one of the types
    /// (`cancellation_slot::assign`). An operation with a filter is connected with the types that
    /// it supports and its filter has.
    pub fn connect(&mut self, slot: SlotNo, op: OpNo, supported: Types)
        requires { slot < length self.old }
        ensures slots { self.new
            ≡ slice_set self.old slot (Some (record { op = op; supported = supported })) }
        ensures others { IsSameBut slot self.old self.new }
    {
        self.slots[slot as usize] = Some(Connection { op, supported });
    }

    /// Empties a slot if that operation is still connected to it, as where the operation completes
    /// (`cancellation_slot::clear`). True exactly where it was; a slot that another operation has
    /// taken stays.
    pub fn clear_if(&mut self, slot: SlotNo, op: OpNo) -> bool
        requires { slot < length self.old }
        ensures there { IsTrue result
            ↔ IsSomeAnd (connection_of self.old slot) (λ there. there.op ≡ op) }
        ensures cleared { OnTrue result (self.new ≡ slice_set self.old slot None) }
        ensures unchanged { OnFalse result (self.new ≡ self.old) }
        ensures others { IsSameBut slot self.old self.new }
    {
        if self.connected(slot) == Some(op) {
            self.slots[slot as usize] = None;
            true
        } else {
            false
        }
    }

    /// The operation that is connected to a slot (`cancellation_slot::has_handler`), or `None`
    /// where none is.
    pub fn connected(&self, slot: SlotNo) -> Option<OpNo>
        requires { slot < length self.now }
        ensures { result ≡ option_map (λ there. there.op) (connection_of self.now slot) }
    {
        self.slots[slot as usize].map(|there| there.op)
    }

    /// The operation that an emit of these types on a slot cancels (`cancellation_signal::emit`);
    /// `None` exactly where nothing is connected or none of the emitted types reaches what is. It
    /// stays connected.
    pub fn chosen(&self, slot: SlotNo, types: Types) -> Option<OpNo>
        requires { slot < length self.now }
        ensures value { result ≡ chosen_by (connection_of self.now slot) types }
        // an operation is chosen exactly where it is connected and supports a type that is emitted
        ensures exactly { (op : ℕ) →
            (result ≡ Some op) ↔ IsSomeAnd (connection_of self.now slot)
            (λ there. (there.op ≡ op) × (bit_and there.supported types ≢ 0)) }
    {
        let there = self.slots[slot as usize]?;
        if there.supported.meets(types) {
            Some(there.op)
        } else {
            None
        }
    }
}
