//! Tests of what every layer stands on: values, sources and sinks, the script, handlers, timers,
//! slots, the rules of streams and the scripted world, each by its public calls. Nothing stands on
//! it.
#![tactic(auto)]

#[cfg(test)]
mod handlers;
#[cfg(test)]
mod operations;
#[cfg(test)]
mod script_questions;
#[cfg(test)]
mod script_rows;
#[cfg(test)]
mod script_texts;
#[cfg(test)]
mod silence;
#[cfg(test)]
mod slots;
#[cfg(test)]
mod timers;
#[cfg(test)]
mod values;
#[cfg(test)]
mod worlds;
