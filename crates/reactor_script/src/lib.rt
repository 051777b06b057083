//! The scripted outside in memory: a reactor that plays a world and fails at chosen calls. It
//! promises the reactor's trait with every byte told, and that it fails exactly at the calls that
//! it was made to fail at. The session and all tests above stand on it.
#![tactic(auto)]

mod method;
mod plans;
mod script_reactor;
mod stage;

pub use method::{FailAt, Method};
pub use script_reactor::ScriptReactor;
