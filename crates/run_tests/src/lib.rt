//! Tests of verdicts on runs and of other orders, by public calls. Nothing stands on it.
#![tactic(auto)]

#[cfg(test)]
mod orders;
#[cfg(test)]
mod turns;
#[cfg(test)]
mod verdicts;
