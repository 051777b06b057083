//! Contexts whose workers look after the outside while handlers execute.

ghost use Rattle.std.specs.Prelude.{◌≡◌};

use crate::clients::script_of;
use crate::handlers::{Counting, Counts, Task};
use crate::running::{MEMORY, Part, limits};
use asio_types::NoMemory;
use io_context::{Context, Lane, Limits, Name, Named, NewContext, Reactor, Refused};
use io_reactor_memory::{MemoryPoll, MemoryReactor, PeerScript, ReadEnd, Script, Visit, WriteEnd};
use std::alloc::Global;
use std::marker::Brand;
use std::net::{Ipv4Addr, SocketAddr};
use std::process::Abort;
use std::sync::Wait;
use std::sync::atomic::Ordering;
use std::thread::Threads;

/// Room for two accepts, for a listener, for what these make, and for a name that is kept for each handler.
fn limits_of() -> Limits {
    let mut limits = limits(4, 0);
    limits.streams = 5;
    limits
}

/// Accepts a connection, whose handler waits for that of another one.
fn accept<'a, R: Abort + Wait, C: Named, W: Reactor>(
    rt: &R,
    context: &Context<Counting<'a>, C, W>,
    listener: Name,
    counts: &'a Counts,
) {
    let task = Task::Meet(2);
    match context.accept(rt, Lane::Own, listener, Counting { task, counts }) {
        Ok(_) => {}
        Err(
            Refused {
                back,
                why: _,
                section: _,
            },
        ) => {
            let Counting { task: _, counts: _ } = back;
            panic!(rt; "an accept is refused")
        }
    }
}

/// Two connections, on two threads.
fn accept_two<'a, 's, R: Abort + Threads + Wait + Sync, C: Named + Send + Sync>(
    rt: &R,
    alloc: Global,
    new: NewContext,
    reactor: MemoryReactor<'s>,
    poll: MemoryPoll<'s>,
    counts: &'a Counts,
)
    requires table { new.table ≡ C.table }
    requires limits { new.limits ≡ C.limits }
    requires name { new.name ≡ C.name }
    requires parts { new.parts ≡ C.parts }
{
    let made = Context::<Counting<'a>, C, MemoryReactor<'s>>::make(alloc, new, reactor, poll);
    let (context, share) = made.expect(rt, MEMORY);
    let mut part = Part { share };
    let Ok(listening) = context.listen(rt, SocketAddr::from((Ipv4Addr::LOCALHOST, 1))) else {
        panic!(rt; "it doesn't listen")
    };
    accept(rt, &context, listening.listener, counts);
    accept(rt, &context, listening.listener, counts);
    part.run(rt, alloc, &context, 2);
    let Part { share } = part;
    let _history = context.finish(rt, share);
}

/// The second connection comes only once an edge was looked for.
fn visits(alloc: Global) -> Result<Vec<Visit>, NoMemory> {
    let mut visits = Vec::new(alloc);
    visits.push(Visit::Comes(silent(alloc)))?;
    visits.push(Visit::Later)?;
    visits.push(Visit::Comes(silent(alloc)))?;
    Ok(visits)
}

fn silent(alloc: Global) -> PeerScript {
    let (sends, takes) = (Vec::new(alloc), Vec::new(alloc));
    PeerScript::of(sends, ReadEnd::Open, takes, WriteEnd::Full)
}

/// Likewise of this script.
fn play<R: Abort + Threads + Wait + Sync>(rt: &R, alloc: Global, script: &Script, counts: &Counts) {
    let limits = limits_of();
    let (reactor, poll) = MemoryReactor::make(alloc, script, limits.streams).expect(rt, MEMORY);
    let new = NewContext::with_limits(alloc, limits).expect(rt, MEMORY);
    accept_two::<R, Brand>(rt, alloc, new, reactor, poll, counts)
}

#[test]
fn sockets_are_watched_while_a_handler_executes(rt: HostRuntime) -> Result<(), NoMemory> {
    let alloc = rt.alloc();
    let counts = Counts::new();
    let script = script_of(alloc, visits(alloc)?)?;
    play(&rt, alloc, &script, &counts);
    assert_eq!(rt; counts.executed.load(Ordering::SeqCst), 2);
    Ok(())
}
