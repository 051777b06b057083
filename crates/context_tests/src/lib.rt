//! Tests of the context without a lock: by calls of its workers, one after another, and by whole
//! sessions on threads, whose merged histories are judged. Nothing stands on it.
#![tactic(auto)]

#[cfg(test)]
mod asking;
#[cfg(test)]
mod failing;
#[cfg(test)]
mod gate;
#[cfg(test)]
mod handlers;
#[cfg(test)]
mod meeting;
#[cfg(test)]
mod polled;
#[cfg(test)]
mod polling;
#[cfg(test)]
mod postings;
#[cfg(test)]
mod running;
#[cfg(test)]
mod sessions;
#[cfg(test)]
mod wanted;
