//! Tests of the reactors of the context for programs: what the one in memory answers to each line of a
//! script, and the one over the system's sockets on 127.0.0.1. Nothing stands on it.
#![tactic(auto)]

#[cfg(test)]
mod answers;
#[cfg(test)]
mod scripts;
#[cfg(test)]
mod sockets;
