//! An echo server over a reactor in memory.

ghost use Rattle.std.specs.Prelude.{◌≡◌};

use crate::clients::{Client, clock_by, peer_of, playing, script_of, took_at};
use crate::running::MEMORY;
use asio_types::{Failed, NoMemory};
use echo_handlers::{Echo, Service};
use io_context::{Context, Lane, Limits, Named, NewContext, Reactor};
use io_reactor_memory::{MemoryPoll, MemoryReactor, PollTurn, ReadEnd, Script, Visit, WriteEnd};
use std::alloc::Global;
use std::marker::Brand;
use std::net::{Ipv4Addr, SocketAddr};
use std::process::Abort;
use std::sync::Wait;

/// So often the server looks at what has come.
const LOOKS: usize = 24;

/// A listener and one connection at a time.
const LIMITS: Limits = Limits {
    operations: 8,
    strands: 2,
    timers: 3,
    slots: 0,
    streams: 2,
    grant: 2,
    staged: 8,
    held: 0,
};

/// For so many nanoseconds a client may send nothing.
const IDLE: u64 = 60_000_000_000;

fn clients() -> [Client; 10] {
    [
        // in one piece, cut in two, and cut by a pause
        playing(&[b"hello"], ReadEnd::Eof, &[9], WriteEnd::Full, b"hello"),
        playing(
            &[b"hel", b"lo"],
            ReadEnd::Eof,
            &[9],
            WriteEnd::Full,
            b"hello",
        ),
        playing(
            &[b"hel", b"", b"lo"],
            ReadEnd::Eof,
            &[9],
            WriteEnd::Full,
            b"hello",
        ),
        // back in pieces, and by a pause
        playing(
            &[b"hello"],
            ReadEnd::Eof,
            &[1, 3, 9],
            WriteEnd::Full,
            b"hello",
        ),
        playing(
            &[b"hello"],
            ReadEnd::Eof,
            &[2, 0, 9],
            WriteEnd::Full,
            b"hello",
        ),
        // it is reset, or takes no more
        playing(&[b"hel"], ReadEnd::Reset, &[9], WriteEnd::Full, b"hel"),
        playing(&[b"hello"], ReadEnd::Open, &[2], WriteEnd::Broken, b"he"),
        playing(&[b"hello"], ReadEnd::Open, &[2], WriteEnd::Reset, b"he"),
        // it is silent, or never reads
        playing(&[], ReadEnd::Open, &[9], WriteEnd::Full, b""),
        playing(&[b"hello"], ReadEnd::Open, &[], WriteEnd::Full, b""),
    ]
}

/// Serves, and answers whether a wait has failed.
fn serve_as<'s, R: Abort + Wait, C: Named>(
    rt: &R,
    alloc: Global,
    new: NewContext,
    reactor: MemoryReactor<'s>,
    poll: MemoryPoll<'s>,
) -> Result<bool, Failed>
    requires table { new.table ≡ C.table }
    requires limits { new.limits ≡ C.limits }
    requires name { new.name ≡ C.name }
    requires parts { new.parts ≡ C.parts }
{
    let made = Context::<Echo, C, MemoryReactor<'s>>::make(alloc, new, reactor, poll);
    let (context, mut share) = made.expect(rt, MEMORY);
    let mut worker = context.worker(alloc, &mut share).expect(rt, MEMORY);
    let listened = context.listen(rt, SocketAddr::from((Ipv4Addr::LOCALHOST, 1)));
    let Ok((timer, _section)) = context.make_timer(rt) else {
        panic!(rt; "no timer is free")
    };
    if let Ok(listening) = &listened {
        let listener = listening.listener;
        let service = Service {
            alloc,
            listener,
            timer,
            idle: IDLE,
        };
        let first = Echo::Accepted { service };
        let _accepted = context.accept(rt, Lane::Own, listener, first);
    }
    for _ in 0..LOOKS {
        context.poll(rt, &mut worker);
    }
    let failed = context.has_failed();
    worker.destroy(&mut share);
    let _history = context.finish(rt, share);
    listened.map(|_| failed)
}

/// Likewise of this script.
fn serve<R: Abort + Wait>(rt: &R, alloc: Global, script: &Script) -> Result<bool, Failed> {
    let (reactor, poll) = MemoryReactor::make(alloc, script, LIMITS.streams).expect(rt, MEMORY);
    let new = NewContext::with_limits(alloc, LIMITS).expect(rt, MEMORY);
    serve_as::<R, Brand>(rt, alloc, new, reactor, poll)
}

#[test]
fn what_comes_from_a_client_goes_back(rt: HostRuntime) -> Result<(), NoMemory> {
    let alloc = rt.alloc();
    for client in &clients() {
        let mut visits = Vec::new(alloc);
        visits.push(Visit::Comes(peer_of(alloc, client)?))?;
        let script = script_of(alloc, visits)?;
        assert_eq!(rt; serve(&rt, alloc, &script), Ok(false));
        assert_eq!(rt; took_at(&script, 0), Some(client.back));
    }
    Ok(())
}

/// Of three accepts the first fails, and before the last there is a pause; by this clock.
fn failing_accepts(alloc: Global, clock: Vec<u64>) -> Result<Script, NoMemory> {
    let clients = clients();
    let mut visits = Vec::new(alloc);
    visits.push(Visit::Fails)?;
    visits.push(Visit::Comes(peer_of(alloc, &clients[0])?))?;
    visits.push(Visit::Later)?;
    visits.push(Visit::Comes(peer_of(alloc, &clients[3])?))?;
    let mut script = script_of(alloc, visits)?;
    script.clock = clock;
    Ok(script)
}

#[test]
fn an_accept_that_fails_or_has_no_place_lets_others_be_served(
    rt: HostRuntime,
) -> Result<(), NoMemory> {
    let alloc = rt.alloc();
    let script = failing_accepts(alloc, clock_by(alloc, 0, 40)?)?;
    assert_eq!(rt; serve(&rt, alloc, &script), Ok(false));
    assert_eq!(rt; took_at(&script, 1), Some(b"hello".as_slice()));
    assert_eq!(rt; took_at(&script, 3), Some(b"hello".as_slice()));
    Ok(())
}

#[test]
fn an_accept_that_failed_is_not_tried_at_once(rt: HostRuntime) -> Result<(), NoMemory> {
    let alloc = rt.alloc();
    // by a clock that stands still
    let script = failing_accepts(alloc, Vec::new(alloc))?;
    assert_eq!(rt; serve(&rt, alloc, &script), Ok(false));
    assert_eq!(rt; took_at(&script, 1), None);
    Ok(())
}

/// A client that is silent, after what it sends, and the next one, by a clock that goes on by so many seconds
/// each time that it is read.
fn silent_and_next(
    alloc: Global,
    silent: &Client,
    next: &Client,
    seconds: u64,
) -> Result<Script, NoMemory> {
    let mut visits = Vec::new(alloc);
    visits.push(Visit::Comes(peer_of(alloc, silent)?))?;
    visits.push(Visit::Comes(peer_of(alloc, next)?))?;
    let mut script = script_of(alloc, visits)?;
    script.clock = clock_by(alloc, 0, seconds.saturating_mul(1_000))?;
    Ok(script)
}

#[test]
fn a_client_that_is_silent_makes_room_for_the_next(rt: HostRuntime) -> Result<(), NoMemory> {
    let alloc = rt.alloc();
    let clients = clients();
    let spoke_once = playing(&[b"hello"], ReadEnd::Open, &[9], WriteEnd::Full, b"hello");
    for silent in &[clients[8], spoke_once] {
        let script = silent_and_next(alloc, silent, &clients[0], 20)?;
        assert_eq!(rt; serve(&rt, alloc, &script), Ok(false));
        assert_eq!(rt; took_at(&script, 0), Some(silent.back));
        assert_eq!(rt; took_at(&script, 1), Some(b"hello".as_slice()));
    }
    Ok(())
}

#[test]
fn a_client_that_is_heard_of_is_kept(rt: HostRuntime) -> Result<(), NoMemory> {
    let alloc = rt.alloc();
    let talking = playing(
        &[b"a", b"", b"b", b"", b"c", b"", b"d", b"", b"e", b"", b"f"],
        ReadEnd::Eof,
        &[9],
        WriteEnd::Full,
        b"abcdef",
    );
    let script = silent_and_next(alloc, &talking, &clients()[0], 8)?;
    assert_eq!(rt; serve(&rt, alloc, &script), Ok(false));
    assert_eq!(rt; took_at(&script, 0), Some(talking.back));
    Ok(())
}

#[test]
fn a_listener_that_fails_is_told_and_a_wait_that_fails_stops(
    rt: HostRuntime,
) -> Result<(), NoMemory> {
    let alloc = rt.alloc();
    let mut script = script_of(alloc, Vec::new(alloc))?;
    script.polls.push(PollTurn::Fails)?;
    assert_eq!(rt; serve(&rt, alloc, &script), Ok(true));
    script.listeners.clear();
    script.listeners.push(None)?;
    assert_eq!(rt; serve(&rt, alloc, &script), Err(Failed));
    Ok(())
}
