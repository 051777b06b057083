ghost use Rattle.std.specs.Prelude.{◌≤◌};

use crate::failure::Failure;
use crate::limits::MOST_CAPACITY;
use crate::stopwatch::{Measured, Stopwatch};
use crossbeam_channel::{Receiver, Sender, bounded};
use std::alloc::Global;
use std::rt::Clock;
use std::sync::Wait;
use std::time::CpuClock;

/// So many values are sent, where there is room.
fn send_all<R: Wait>(rt: &R, sender: &Sender<u64, Global>, values: u32) -> Result<(), Failure> {
    for value in 0..values {
        if sender.try_send(rt, value as u64).is_err() {
            return Err(Failure::Refused);
        }
    }
    Ok(())
}

/// So many values are received, where there are any; answers how many were.
fn receive_all<R: Wait>(rt: &R, receiver: &Receiver<u64, Global>, values: u32) -> u64 {
    let mut count: u64 = 0;
    for _ in 0..values {
        if receiver.try_recv(rt).is_ok() {
            count = count.saturating_add(1);
        }
    }
    count
}

/// So many values go through, as many at a time as the channel holds.
fn pass_all<R: Wait>(
    rt: &R,
    sender: &Sender<u64, Global>,
    receiver: &Receiver<u64, Global>,
    each: u32,
    values: u32,
) -> Result<u64, Failure>
    requires { 1 ≤ each }
{
    let mut count: u64 = 0;
    for _ in 0..values / each {
        send_all(rt, sender, each)?;
        count = count.saturating_add(receive_all(rt, receiver, each));
    }
    send_all(rt, sender, values % each)?;
    Ok(count.saturating_add(receive_all(rt, receiver, values % each)))
}

/// `messages CAPACITY VALUES`: what `channel` does, through a channel of `crossbeam_channel`, by
/// calls that never wait. At capacity 0 two threads have to meet there, so it takes 1 and more.
pub(crate) fn passed<R: Clock + CpuClock + Wait>(
    rt: &R,
    alloc: Global,
    capacity: u32,
    values: u32,
) -> Result<Measured, Failure> {
    if capacity == 0 || capacity > MOST_CAPACITY {
        return Err(Failure::Usage);
    }
    let (sender, receiver) = bounded::<u64, Global>(alloc, capacity as usize)?;
    let watch = Stopwatch::begin(rt)?;
    let count = pass_all(rt, &sender, &receiver, capacity, values)?;
    watch.end(rt, count)
}
