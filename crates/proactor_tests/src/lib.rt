//! Tests of the proactor over the scripted reactor: the worked sessions on timers, slots,
//! cancellation and streams, turn by turn, and each call of the reactor failing in turn; of the
//! machines of its operations on streams, fed in every cutting; and of channels: values in the order
//! of their sends, closings, cancels, deadlines, numbers that come again and a room that is full.
//! Nothing stands on it.
#![tactic(auto)]

#[cfg(test)]
mod calls;
#[cfg(test)]
mod channels;
#[cfg(test)]
mod failures;
#[cfg(test)]
mod machines;
#[cfg(test)]
mod streams;
#[cfg(test)]
mod timed;
#[cfg(test)]
mod timers;
#[cfg(test)]
mod turns;
