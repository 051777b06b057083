//! The program that measures io_context: `io_speed STRANDS POSTED CHAINED ROUNDS THREADS` posts so many
//! handlers over so many strands (0: without a strand), each of which posts so many more, one by another; each
//! computes so many rounds, 350 of which take some 0.4 microseconds. It does so on 20 contexts, one after
//! another, from making them to destroying them, and prints how many handlers there were, and to standard
//! error how many nanoseconds they took, by the clock and of processor time. It is proved to be safe. Nothing
//! stands on it.
#![tactic(auto)]

mod load;
mod steps;

use load::{Load, execute_new};
use std::env;
use std::process::ExitCode;
use std::rt::{Clock, Env};
use std::sync::Wait;
use std::thread::Threads;
use std::time::{CpuClock, Duration, Instant};

const USAGE: &str = "usage: io_speed STRANDS POSTED CHAINED ROUNDS THREADS";

/// How many contexts are made.
const CONTEXTS: u32 = 20;

/// What the words of a command line say; at most a million handlers are posted, on at most 64 threads.
fn load_of(words: &[String]) -> Option<Load> {
    let [strands, posted, chained, rounds, threads] = words else {
        return None;
    };
    let load = Load {
        strands: strands.as_str().parse::<u32>().ok()?,
        posted: posted.as_str().parse::<u32>().ok()?,
        chained: chained.as_str().parse::<u64>().ok()?,
        rounds: rounds.as_str().parse::<u32>().ok()?,
        threads: threads.as_str().parse::<u8>().ok()?,
    };
    let fits = load.strands <= 1_000 && load.posted <= 1_000_000 && load.threads <= 64;
    if fits { Some(load) } else { None }
}

/// Nanoseconds.
fn nanos_of(time: Duration) -> u64 {
    u64::try_from(time.as_nanos()).unwrap_or(u64::MAX)
}

/// The load on each context: how long all took by the clock and of processor time.
fn measured<R: AllocGlobal + Clock + CpuClock + Threads + Wait + Sync + Copy>(
    rt: &R,
    load: Load,
) -> Option<(u64, u64)> {
    let worked = rt.process_cpu_time().ok()?;
    let begun = Instant::now(rt).ok()?;
    for _ in 0..CONTEXTS {
        execute_new(rt, rt.alloc(), load).ok()?;
    }
    let elapsed = nanos_of(begun.elapsed(rt).ok()?);
    let now = nanos_of(rt.process_cpu_time().ok()?);
    Some((elapsed, now.saturating_sub(nanos_of(worked))))
}

/// The whole program.
fn run<R: Env + AllocGlobal + Print + Eprint + Clock + CpuClock + Threads + Wait + Sync + Copy>(
    rt: &R,
) -> Option<()> {
    let words = env::args(rt)
        .ok()?
        .skip(1)
        .collect::<Vec<String>>(rt.alloc())
        .ok()?;
    let load = load_of(words.as_slice())?;
    let (elapsed, worked) = measured(rt, load)?;
    let handlers = load.handlers().saturating_mul(u64::from(CONTEXTS));
    println!(rt; "{handlers}").ok()?;
    eprintln!(rt; "{elapsed} {worked}").ok()
}

fn main(rt: HostRuntime) -> ExitCode {
    match run(&rt) {
        Some(()) => ExitCode::from(0),
        None => {
            let _ = rt.eprintln(USAGE);
            ExitCode::from(1)
        }
    }
}
