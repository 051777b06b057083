ghost use Rattle.std.specs.Prelude.{◌≡◌, ◌≤◌, [], false};
ghost use Rattle.chan_core.specs.Channel.{is_pending, spare_in};

use crate::failure::Failure;
use crate::limits::MOST_CAPACITY;
use crate::stopwatch::{Measured, Stopwatch};
use chan_core::{ChanCore, ChanOp};
use std::alloc::Global;
use std::rt::Clock;
use std::time::CpuClock;

/// Takes all completions out, and answers how many of them brought a value.
fn told(chan: &mut ChanCore) -> u64
    ensures { chan.new.due ≡ [] }
{
    let mut received: u64 = 0;
    while let Some(done) = chan.next_due() {
        if done.value.is_some() {
            received = received.saturating_add(1);
        }
    }
    received
}

/// Sends a value, and answers how many were received by that.
fn sent(chan: &mut ChanCore, op: ChanOp, value: u64) -> Result<u64, Failure>
    requires { chan.old.due ≡ [] }
    ensures { chan.new.due ≡ [] }
{
    if chan.spare() == 0 || chan.is_pending(op) {
        return Err(Failure::Refused);
    }
    chan.send(op, value, None);
    Ok(told(chan))
}

/// Receives a value, and answers how many were received.
fn received(chan: &mut ChanCore, op: ChanOp) -> Result<u64, Failure>
    requires { chan.old.due ≡ [] }
    ensures { chan.new.due ≡ [] }
{
    if chan.spare() == 0 || chan.is_pending(op) {
        return Err(Failure::Refused);
    }
    chan.receive(op, None);
    Ok(told(chan))
}

/// So many values are sent; answers how many were received.
fn send_all(chan: &mut ChanCore, values: u32) -> Result<u64, Failure>
    requires { chan.old.due ≡ [] }
    ensures { chan.new.due ≡ [] }
{
    let mut count: u64 = 0;
    for value in 0..values {
        count = count.saturating_add(sent(chan, 1, value as u64)?);
    }
    Ok(count)
}

/// So many values are received; answers how many were.
fn receive_all(chan: &mut ChanCore, values: u32) -> Result<u64, Failure>
    requires { chan.old.due ≡ [] }
    ensures { chan.new.due ≡ [] }
{
    let mut count: u64 = 0;
    for _ in 0..values {
        count = count.saturating_add(received(chan, 2)?);
    }
    Ok(count)
}

/// So many values are sent, and then received; answers how many were.
fn round(chan: &mut ChanCore, values: u32) -> Result<u64, Failure>
    requires { chan.old.due ≡ [] }
    ensures { chan.new.due ≡ [] }
{
    let early = send_all(chan, values)?;
    let late = receive_all(chan, values)?;
    Ok(early.saturating_add(late))
}

/// So many values go through, as many at a time as the buffer holds, at least one.
fn pass_all(chan: &mut ChanCore, each: u32, values: u32) -> Result<u64, Failure>
    requires told { chan.old.due ≡ [] }
    requires some { 1 ≤ each }
{
    let mut count: u64 = 0;
    for _ in 0..values / each {
        count = count.saturating_add(round(chan, each)?);
    }
    let last = round(chan, values % each)?;
    Ok(count.saturating_add(last))
}

/// `channel CAPACITY VALUES`: so many values go through a channel of that capacity on one thread,
/// as many at a time as the buffer holds. A step is a send and a receive with what they complete;
/// counts the values that were received.
pub(crate) fn passed<R: Clock + CpuClock>(
    rt: &R,
    alloc: Global,
    capacity: u32,
    values: u32,
) -> Result<Measured, Failure> {
    if capacity > MOST_CAPACITY {
        return Err(Failure::Usage);
    }
    let mut chan = ChanCore::make(alloc, capacity, 2)?;
    let watch = Stopwatch::begin(rt)?;
    let count = pass_all(&mut chan, capacity.max(1), values)?;
    watch.end(rt, count)
}
