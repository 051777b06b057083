//! Tests of the parts of a context without a lock: the clock word, turns of lanes, and hints where
//! work is, each by its public calls and by several threads; and of executions on a lane: what one
//! posts for each body, which handlers are called, what becomes of the others, and that executions
//! in turn make legal histories. Nothing stands on it.
#![tactic(auto)]

#[cfg(test)]
mod clock;
#[cfg(test)]
mod hands;
#[cfg(test)]
mod hints;
#[cfg(test)]
mod lane_hands;
#[cfg(test)]
mod lanes;
#[cfg(test)]
mod listing;
#[cfg(test)]
mod noting;
#[cfg(test)]
mod strands;
#[cfg(test)]
mod turns;
#[cfg(test)]
mod wanted;
