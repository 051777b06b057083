//! Tests of the reactor over sockets: what the near end of a stream answers to each outcome of a
//! call, and worlds that are played over real sockets. Nothing stands on it.
#![tactic(auto)]

#[cfg(test)]
mod connections;
#[cfg(test)]
mod near_ends;
#[cfg(test)]
mod player;
#[cfg(test)]
mod sockets;
