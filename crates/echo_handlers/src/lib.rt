//! The handlers of an echo server: what each does when its operation has completed. They promise that all that
//! came from a client goes back to it, in order, and nothing else. A server, and tests of the context, stand on
//! them.
#![tactic(auto)]

mod echo;

pub use echo::{Activity, Echo, Link, Service};
