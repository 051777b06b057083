//! Tests of sessions of tasks: which receipts tasks get, how they end, and what happened, also where
//! an executor polls them. Nothing stands on it.
#![tactic(auto)]

#[cfg(test)]
mod joined;
#[cfg(test)]
mod listed;
#[cfg(test)]
mod looking;
#[cfg(test)]
mod rows;
#[cfg(test)]
mod sessions;
