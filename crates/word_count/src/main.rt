//! Counts the lines, words and bytes of a text on four threads, without a mutex: `word_count < TEXT`. Each
//! strand of an io_context has its own count as its state, which its handlers add to, one at a time; a
//! handler that has counted a piece posts the next one. Nothing stands on it.
#![tactic(auto)]

ghost use Rattle.std.specs.Prelude.{◌≡◌};

mod count;
mod counting;

use asio_types::{NoMemory, StdSource};
use count::Count;
use counting::{Counting, Piece, STRANDS, Tally};
use io_context::{ClockReactor, Context, Lane, Limits, Named, NewContext, Reactor, run_on_threads};
use std::alloc::Global;
use std::marker::Brand;
use std::process::ExitCode;
use std::sync::{OnceLock, Wait};
use std::thread::Threads;
use std::time::Clock;
use text_io::read_text;

/// How many threads count.
const THREADS: usize = 4;

/// More bytes than this aren't read.
const MOST: usize = 16_777_216;

/// Each strand has one operation at a time, and its handler posts one.
const LIMITS: Limits = Limits {
    operations: STRANDS as u32,
    strands: STRANDS as u32,
    timers: 0,
    slots: 0,
    streams: 0,
    grant: 0,
    staged: 1,
    held: 0,
};

/// Makes a strand whose count comes out at the end, and posts its first piece.
fn start<'a, R: Wait, C: Named, W: Reactor>(
    rt: &R,
    context: &Context<Counting<'a>, C, W>,
    piece: Piece<'a>,
    total: &'a OnceLock<Count>,
) -> bool {
    let count = Count::none();
    let Ok((name, _)) = context.make_strand(rt, Tally { count, total }) else {
        return false;
    };
    let lane = Lane::Strand(name);
    context.post(rt, lane, Counting { piece, lane }).is_ok()
}

/// Makes the strands, and posts the first piece of each; answers whether all are there.
fn start_all<'a, R: Wait, C: Named, W: Reactor>(
    rt: &R,
    context: &Context<Counting<'a>, C, W>,
    text: &'a [u8],
    results: &'a [OnceLock<Count>; STRANDS],
) -> bool {
    for number in 0..STRANDS {
        if !start(rt, context, Piece::nth(text, number), &results[number]) {
            return false;
        }
    }
    true
}

/// Counts by threads; each strand's count comes out when its context is finished.
fn count_all<'a, R: Threads + Wait + Clock + Sync + Copy, C: Named + Send + Sync>(
    rt: &R,
    alloc: Global,
    new: NewContext,
    text: &'a [u8],
    counts: &'a [OnceLock<Count>; STRANDS],
) -> Result<(), NoMemory>
    requires table { new.table ≡ C.table }
    requires limits { new.limits ≡ C.limits }
    requires name { new.name ≡ C.name }
    requires parts { new.parts ≡ C.parts }
{
    let (reactor, poll) = ClockReactor::make(*rt);
    let (context, mut share) = Context::<Counting<'a>, C, ClockReactor<R>>::make(
        alloc, new, reactor, poll,
    )?;
    let started = start_all(rt, &context, text, counts);
    let ran = run_on_threads(rt, alloc, &context, THREADS, &mut share);
    let _history = context.finish(rt, share);
    if started { ran } else { Err(NoMemory) }
}

/// The whole program: the count of standard input.
fn run<R: AllocGlobal + Input + Threads + Wait + Clock + Sync + Copy>(
    rt: &R,
    text: &[u8],
) -> Result<Count, NoMemory> {
    let alloc = rt.alloc();
    let counts = [
        OnceLock::new(),
        OnceLock::new(),
        OnceLock::new(),
        OnceLock::new(),
    ];
    let new = NewContext::with_limits(alloc, LIMITS)?;
    count_all::<R, Brand>(rt, alloc, new, text, &counts)?;
    let mut sum = Count::none();
    for count in counts.iter() {
        if let Some(count) = count.get() {
            sum = sum.plus(*count);
        }
    }
    Ok(sum)
}

fn main(rt: HostRuntime) -> ExitCode {
    let mut source = StdSource::of(rt.stdin());
    let Ok(text) = read_text(rt.alloc(), &mut source, MOST) else {
        return ExitCode::from(2);
    };
    let Ok(
        Count {
            lines,
            words,
            bytes,
        },
    ) = run(&rt, text.as_slice())
    else {
        return ExitCode::from(3);
    };
    match println!(&rt; "{lines} {words} {bytes}") {
        Ok(()) => ExitCode::from(0),
        Err(_) => ExitCode::from(4),
    }
}
