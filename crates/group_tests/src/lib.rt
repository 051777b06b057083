//! Tests of parallel groups: their scripts, their limits, which histories of them are legal, in which
//! order their members complete, and groups that are run, also over sockets. Nothing stands on it.
#![tactic(auto)]

#[cfg(test)]
mod histories;
#[cfg(test)]
mod limits;
#[cfg(test)]
mod making;
#[cfg(test)]
mod running;
#[cfg(test)]
mod scripts;
