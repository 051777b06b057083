//! Tests of logs and of their merging: which logs are refused, by the definitions alone, and which
//! history comes of logs that were written by hand. Nothing stands on it.
#![tactic(auto)]

#[cfg(test)]
mod drawing;
#[cfg(test)]
mod merging;
mod spoilt;
#[cfg(test)]
mod wanted;

pub use spoilt::{
    a_begin_without_its_look_is_no_log, strands_look_at_their_first_place,
    strands_look_before_they_draw, two_places_exchanged_are_no_log,
};
