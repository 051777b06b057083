//! How many histories scripts have, by hand, by a plain enumeration, by the list and by the count; and
//! what is answered of conditions.
#![tactic(auto)]

#[cfg(test)]
mod counts;
#[cfg(test)]
mod plain;
#[cfg(test)]
mod questions;
