//! The program that measures the parts that the others are made of: `asio_speed MEASURE FIRST
//! SECOND ..` runs measures, each a word and two numbers. Of each it prints how many steps were
//! taken, and to standard error how many nanoseconds these took, by the clock and of processor
//! time. What a step is and what the two numbers are, each measure's file tells. It is proved to be
//! safe. Nothing stands on it.
#![tactic(auto)]

mod adds;
mod cells;
mod channel;
mod copies;
mod draws;
mod failure;
mod histories;
mod limits;
mod measures;
mod messages;
mod pairs;
mod proactor;
mod proactor_script;
mod proactor_turns;
mod replay;
mod replay_driver;
mod replay_script;
mod rounds;
mod scripts;
mod seats;
mod session_handlers;
mod session_shapes;
mod sessions;
mod sockets;
mod stopwatch;
mod turns;

use failure::Failure;
use measures::measured;
use std::env;
use std::net::Net;
use std::process::ExitCode;
use std::rt::{Clock, Env};
use std::sync::Wait;
use std::thread::Threads;
use std::time::CpuClock;

const USAGE: &str = "usage: asio_speed MEASURE FIRST SECOND ..";

/// Runs one measure, and prints what it took.
fn run_one<R: AllocGlobal + Print + Eprint + Clock + CpuClock + Net + Threads + Wait + Copy + Sync>(
    rt: &R,
    measure: &str,
    first: &str,
    second: &str,
) -> Result<(), Failure> {
    let Ok(first) = first.parse::<u32>() else {
        return Err(Failure::Usage);
    };
    let Ok(second) = second.parse::<u32>() else {
        return Err(Failure::Usage);
    };
    let done = measured(rt, rt.alloc(), measure, first, second)?;
    let steps = done.steps;
    let elapsed = done.elapsed;
    let worked = done.worked;
    if println!(rt; "{steps}").is_err() || eprintln!(rt; "{elapsed} {worked}").is_err() {
        return Err(Failure::Write);
    }
    Ok(())
}

/// Runs each measure of the command.
fn run<
    R: Env + AllocGlobal + Print + Eprint + Clock + CpuClock + Net + Threads + Wait + Copy + Sync,
>(rt: &R) -> Result<(), Failure> {
    let Ok(args) = env::args(rt) else {
        return Err(Failure::Usage);
    };
    let Ok(words) = args.skip(1).collect::<Vec<String>>(rt.alloc()) else {
        return Err(Failure::NoMemory);
    };
    if words.is_empty() {
        return Err(Failure::Usage);
    }
    for group in words.as_slice().chunks(3) {
        let [measure, first, second] = group else {
            return Err(Failure::Usage);
        };
        run_one(rt, measure.as_str(), first.as_str(), second.as_str())?;
    }
    Ok(())
}

fn main(rt: HostRuntime) -> ExitCode {
    let Err(failure) = run(&rt) else {
        return ExitCode::from(0);
    };
    if let Failure::Usage = failure {
        let _ = rt.eprintln(USAGE);
    }
    ExitCode::from(failure.status())
}
