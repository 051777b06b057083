//! Tests of the commands of the program `asio`, by public calls. What it says of faults is compared by examples/asio.sh. Nothing
//! stands on it.
#![tactic(auto)]

#[cfg(test)]
mod commands;
