ghost use Rattle.std.specs.Prelude.{◌<◌};

use io_context::{Context, Handler, Named, Reactor, run_on_threads};
use std::io::Read;
use std::sync::Wait;
use std::sync::ledger::Share;
use std::thread;
use std::thread::Threads;

/// Waits until standard input has a byte or ends, and stops the context.
fn stop_at_end<R: Input + Wait, H: Handler, C: Named, W: Reactor>(
    rt: &R,
    context: &Context<H, C, W>,
) {
    let mut input = rt.reader();
    let mut byte = [0];
    let _ended = input.read(&mut byte);
    let _section = context.stop(rt);
}

/// Runs a context on so many threads (`io_context::run`) until standard input has a byte or ends, which stops it
/// (`io_context::stop`). Without memory for the threads it waits for that alone.
pub fn serve_until_end<
    R: AllocGlobal + Input + Threads + Wait + Sync,
    H: Handler + Send,
    C: Named + Send + Sync,
    W: Reactor + Sync,
>(rt: &R, context: &Context<H, C, W>, workers: usize, share: &mut Share<C>)
where
    H::State: Send,
    W::Socket: Send,
    W::Poll: Send,
    requires { workers < share.old.parts }
{
    let alloc = rt.alloc();
    let _ran = thread::join(
        rt,
        ||
            requires { workers < share.now.parts }
        { run_on_threads(rt, alloc, context, workers, share) },
        || stop_at_end(rt, context),
    );
}
