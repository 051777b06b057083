// What lies in a slot of the table.

use std::collections::LinkedList;

/// What stands in a slot of the table. A lane's slot holds its value, or nothing while its turn is
/// held. The last slot holds the room that `close` fills.
#[derive(Drop)]
pub enum TablePlace<T> {
    Empty,
    Value(T),
    Room(Vec<T>),
}

/// How many lanes the table has, and how many numbers its seats stand for. The table is told once.
#[derive(Drop)]
pub struct Sizes {
    pub lanes: usize,
    pub seats: u32,
}

/// What a seat knows. No value of it is made.
pub struct TurnView {
    /// The lanes whose turns it has.
    pub turns: LinkedList<u32>,
    /// The seat numbers that it stands for.
    pub numbers: LinkedList<u32>,
    /// The lanes whose turn it asked for while another seat had it, in order.
    pub misses: LinkedList<u32>,
    /// The lane whose slot it is reading or writing.
    pub hand: Option<u32>,
    /// How many numbers there are.
    pub seats: u32,
}
