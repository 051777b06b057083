//! Tests of an io_context: what no clause can say, with handlers that count, meet and go on. Nothing stands
//! on it.
#![tactic(auto)]

#[cfg(test)]
mod chain;
#[cfg(test)]
mod clients;
#[cfg(test)]
mod grant;
#[cfg(test)]
mod handlers;
#[cfg(test)]
mod making;
#[cfg(test)]
mod many;
#[cfg(test)]
mod meeting;
#[cfg(test)]
mod order;
#[cfg(test)]
mod outside;
#[cfg(test)]
mod running;
#[cfg(test)]
mod serving;
#[cfg(test)]
mod talking;
#[cfg(test)]
mod timing;
