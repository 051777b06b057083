//! Tests of histories: worked sessions replayed in every order of two neighbours, traces written,
//! read back and judged, and generated sessions, each by public calls. Nothing stands on it.
#![tactic(auto)]

#[cfg(test)]
mod check_sessions;
#[cfg(test)]
mod generated;
#[cfg(test)]
mod histories;
#[cfg(test)]
mod reading;
#[cfg(test)]
mod texts;
#[cfg(test)]
mod traces;
#[cfg(test)]
mod verdicts;
#[cfg(test)]
mod worked;
#[cfg(test)]
mod worked_rows;
