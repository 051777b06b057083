ghost use Rattle.std.specs.Prelude.{◌≡◌, ◌<◌, ◌^◌, ℕ, false, IfOk, replicate};
ghost use Rattle.io_strands.specs.Cell.{is_there, vacant};
ghost use Rattle.io_jobs.specs.Listed.{no_jobs};
ghost use Rattle.io_timers.specs.Pending.{no_waits};
ghost use Rattle.io_scheduler.specs.Shown.{cell_at};

use crate::waiting::Waiting;
use asio_types::NoMemory;
use io_jobs::Jobs;
use io_rules::Limits;
use io_strands::{ReadyOp, Strand};
use io_timers::Timers;
use std::alloc::Global;

/// So many places are fewer than 2^32. Runs nothing.
pub(crate) fn hold_few(places: u32)
    ensures { places < 2 ^ 32 }
{
    let _places = places;
}

/// So many places for strands, each with room for so many ready operations.
pub(crate) fn make_strands<H, S>(
    alloc: Global,
    many: u32,
    room: u32,
) -> Result<Vec<Strand<H, S>>, NoMemory>
    ensures { IfOk result (λ made. made.items ≡ replicate many (vacant room)) }
{
    let mut strands = Vec::with_capacity(alloc, many as usize)?;
    'places: for _ in 0..many {
        match Strand::with_room(alloc, room) {
            Ok(strand) => strands.push_reserved(strand),
            Err(refused) => {
                destroy_all(strands);
                return Err(refused);
            }
        }
    }
    Ok(strands)
}

/// Gives the memory of places back on which no strand is.
pub(crate) fn destroy_all<H, S>(strands: Vec<Strand<H, S>>)
    requires { (place : ℕ) → is_there (cell_at strands.items place) ≡ false }
{
    let mut left = strands;
    while let Some(strand) = left.pop() {
        strand.destroy();
    }
    left.destroy_empty();
}

/// What a scheduler keeps of operations with their handlers, all empty.
pub(crate) fn make_parts<H, S>(
    alloc: Global,
    limits: &Limits,
) -> Result<(Vec<Strand<H, S>>, Jobs<ReadyOp<H>>, Timers<Waiting<H>>), NoMemory>
    ensures strands { IfOk result (λ made. made.0.items ≡ replicate limits.now.strands (vacant limits.now.operations)) }
    ensures jobs { IfOk result (λ made. made.1 ≡ no_jobs limits.now.strands limits.now.operations) }
    ensures timers { IfOk result (λ made. made.2 ≡ no_waits limits.now.timers limits.now.operations) }
{
    let timers = Timers::make(alloc, limits.timers, limits.operations)?;
    match make_strands(alloc, limits.strands, limits.operations) {
        Err(refused) => {
            timers.destroy();
            Err(refused)
        }
        Ok(strands) => match Jobs::make(alloc, limits.strands, limits.operations) {
            Ok(jobs) => Ok((strands, jobs, timers)),
            Err(refused) => {
                destroy_all(strands);
                timers.destroy();
                Err(refused)
            }
        },
    }
}
