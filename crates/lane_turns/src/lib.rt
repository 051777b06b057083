//! What is done with turns in hand, in a context without a lock: a lane's value is told what the round
//! is, is polled and executes handlers; with all turns in one hand rounds are opened, closed and
//! restarted, and a session ends. Each keeps a log of what it drew. It promises that these are the
//! logs of a session (`lane_logs`), step by step. `lane_context`, which hands the turns out, stands on
//! it.
#![tactic(auto)]

mod attendee;
mod backoff;
mod baton;
mod baton_attendee;
mod bench;
mod calls;
mod closing;
mod closing_try;
mod discarding;
mod ending_room;
mod events;
mod executing;
mod finding;
mod finishing;
mod handler_baton;
mod lane;
mod lane_poster;
mod lanes_parting;
mod law;
mod log_rooms;
mod lookout;
mod one;
mod op_lanes;
mod opener;
mod opening;
mod parting;
mod pen;
mod polling;
mod reactor_baton;
mod reactor_polling;
mod run_end;
mod seeing;
mod slot;
mod standing;
mod taking_in;
mod telling;
mod turning;
mod weighing;
mod worker_seat;

pub use attendee::Attendee;
pub use baton::{Baton, BatonCame};
pub use bench::hear_all;
pub use closing::Closing;
pub use closing_try::ClosingTry;
pub use ending_room::{EndingRoom, LeavingRoom};
pub use events::{close_all, meet_all, open_all, restart_all};
pub use finishing::{Ending, finish};
pub use handler_baton::HandlerBaton;
pub use lane::{LaneStanding, LaneState};
pub use lanes_parting::{LaneBatons, part_values};
pub use law::rounds_are_few;
pub use log_rooms::{
    lane_rooms, opener_room, opening_draws, reactor_room, rooms_fit, worker_count,
};
pub use lookout::{Lookout, lookouts};
pub use one::One;
pub use op_lanes::operations_have_lanes;
pub use opener::Opener;
pub use pen::Pen;
pub use reactor_baton::ReactorBaton;
pub use run_end::RunEnd;
pub use slot::{Slot, empty_slots, free_slots};
pub use standing::{RoundNow, RoundStanding};
pub use worker_seat::WorkerSeat;
