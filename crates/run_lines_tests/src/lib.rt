//! Tests of the lines of a run, by public calls. Nothing stands on it.
#![tactic(auto)]

#[cfg(test)]
mod lines;
#[cfg(test)]
mod refusals;
