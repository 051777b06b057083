//! Tests that cross crates: whole sessions, by what they write and by what the checker says of it.
//! Nothing stands on it.
#![tactic(auto)]

#[cfg(test)]
mod contexts;
#[cfg(test)]
mod counting;
#[cfg(test)]
mod failing;
#[cfg(test)]
mod generated;
#[cfg(test)]
mod marked;
#[cfg(test)]
mod meeting;
#[cfg(test)]
mod outside;
#[cfg(test)]
mod recorded;
#[cfg(test)]
mod refused;
#[cfg(test)]
mod sessions;
#[cfg(test)]
mod silent;
#[cfg(test)]
mod sockets;
#[cfg(test)]
mod spent;
#[cfg(test)]
mod texts;
#[cfg(test)]
mod threads;
#[cfg(test)]
mod wanted;
#[cfg(test)]
mod worked;
