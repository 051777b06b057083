use crate::failure::Failure;
use crate::stopwatch::Measured;
use crate::{
    adds, cells, channel, copies, draws, histories, messages, pairs, proactor, replay, sessions,
    sockets, turns,
};
use session_run::ContextKind;
use std::alloc::Global;
use std::net::Net;
use std::rt::Clock;
use std::sync::Wait;
use std::thread::Threads;
use std::time::CpuClock;

/// The measures of a clock, its seats and its turns, and of sessions in memory.
fn of_threads<R: Clock + CpuClock + Threads + Wait + Sync>(
    rt: &R,
    alloc: Global,
    measure: &str,
    first: u32,
    second: u32,
) -> Result<Measured, Failure> {
    match measure {
        "draws" => draws::draws(rt, alloc, first, second),
        "adds" => adds::adds(rt, alloc, first, second),
        "copies" => copies::copies(rt, alloc, first, second),
        "cells" => cells::cells(rt, alloc, first, second),
        "turn" => turns::one_lane(rt, alloc, first, second),
        "turns" => turns::four_lanes(rt, alloc, first, second),
        _ => histories::histories(rt, alloc, measure, first, second),
    }
}

/// What a measure took: its word, and its two numbers.
pub(crate) fn measured<R: Clock + CpuClock + Net + Threads + Wait + Copy + Sync>(
    rt: &R,
    alloc: Global,
    measure: &str,
    first: u32,
    second: u32,
) -> Result<Measured, Failure> {
    match measure {
        "channel" => channel::passed(rt, alloc, first, second),
        "messages" => messages::passed(rt, alloc, first, second),
        "sockets" => sockets::read(rt, alloc, first, second),
        "pairs" => pairs::read(rt, alloc, first, second),
        "replay" => replay::replayed(rt, alloc, first, second),
        "proactor" => proactor::completed(rt, alloc, first, second),
        "sessions" => sessions::sessions(rt, alloc, ContextKind::Hinted, first, second),
        "locked_sessions" => sessions::sessions(rt, alloc, ContextKind::OneLock, first, second),
        _ => of_threads(rt, alloc, measure, first, second),
    }
}
