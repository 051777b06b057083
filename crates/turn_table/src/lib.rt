//! Turns of lanes: a table with one turn and one value for each lane. Who takes a lane's turn gets
//! its value out, and puts it back with the turn, so a value moves between threads with no lock. It
//! promises that a value is out exactly while its turn is held, that each turn has one holder, and
//! that a seat which stands for all numbers finds every turn that it hasn't itself. The context
//! without a lock stands on it. It is this project's own; Asio has strands instead.
#![tactic(auto)]

mod home;
mod make;
mod place;
mod plays;
mod seat;
mod table;
mod turns;

pub use home::{Home, Homes};
pub use seat::{TurnSeat, TurnSeats};
pub use table::TurnTable;
