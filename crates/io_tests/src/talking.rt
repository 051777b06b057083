//! A chat server over a reactor in memory.

ghost use Rattle.std.specs.Prelude.{◌≡◌};

use crate::clients::{Client, clock_by, peer_of, playing, script_of, took_at};
use crate::running::MEMORY;
use asio_types::NoMemory;
use chat_handlers::{Chat, MOST_PENDING, Room, Service};
use io_context::{Context, Lane, Limits, Name, Named, NewContext, Reactor};
use io_reactor_memory::{MemoryPoll, MemoryReactor, PeerScript, ReadEnd, Script, Visit, WriteEnd};
use std::alloc::Global;
use std::marker::Brand;
use std::net::{Ipv4Addr, SocketAddr};
use std::process::Abort;
use std::sync::Wait;

/// So often the server looks at what has come.
const LOOKS: usize = 180;

/// So often the clock stands still, while the first clients join.
const STILL: u64 = 8;

/// A listener and so many connections at a time.
fn limits_of(connections: u32) -> Limits {
    Limits {
        operations: 400,
        strands: 2,
        timers: 8,
        slots: 0,
        streams: 1 + connections % 8,
        grant: 8,
        staged: 24,
        held: 0,
    }
}

/// Makes a room, which is asked before this one.
fn make_room<R: Wait, C: Named, W: Reactor>(
    rt: &R,
    alloc: Global,
    context: &Context<Chat, C, W>,
    word: &[u8],
    next: Option<Name>,
) -> Option<Name> {
    let word = Vec::from_slice(alloc, word).ok()?;
    match context.make_strand(rt, Room::of(alloc, word, next)) {
        Ok((room, _)) => Some(room),
        Err(_) => None,
    }
}

/// Listens, and accepts the first connection; the room `red` is asked first, and then `blue`.
fn listen<R: Wait, C: Named, W: Reactor>(
    rt: &R,
    alloc: Global,
    context: &Context<Chat, C, W>,
) -> Option<()> {
    let blue = make_room(rt, alloc, context, b"blue", None)?;
    let door = make_room(rt, alloc, context, b"red", Some(blue))?;
    let (timer, _section) = context.make_timer(rt).ok()?;
    let listened = context.listen(rt, SocketAddr::from((Ipv4Addr::LOCALHOST, 1)));
    let listener = listened.ok()?.listener;
    let service = Service {
        alloc,
        listener,
        timer,
        door,
    };
    match context.accept(rt, Lane::Own, listener, Chat::Accepted { service }) {
        Ok(_) => Some(()),
        Err(_) => None,
    }
}

/// Serves for a while.
fn serve_as<'s, R: Abort + Wait, C: Named>(
    rt: &R,
    alloc: Global,
    new: NewContext,
    reactor: MemoryReactor<'s>,
    poll: MemoryPoll<'s>,
)
    requires table { new.table ≡ C.table }
    requires limits { new.limits ≡ C.limits }
    requires name { new.name ≡ C.name }
    requires parts { new.parts ≡ C.parts }
{
    let made = Context::<Chat, C, MemoryReactor<'s>>::make(alloc, new, reactor, poll);
    let (context, mut share) = made.expect(rt, MEMORY);
    let mut worker = context.worker(alloc, &mut share).expect(rt, MEMORY);
    listen(rt, alloc, &context).expect(rt, MEMORY);
    for _ in 0..LOOKS {
        context.poll(rt, &mut worker);
    }
    worker.destroy(&mut share);
    let _history = context.finish(rt, share);
}

/// Likewise of this script, so many clients at a time.
fn serve<R: Abort + Wait>(rt: &R, alloc: Global, script: &Script, connections: u32) {
    let limits = limits_of(connections);
    let (reactor, poll) = MemoryReactor::make(alloc, script, limits.streams).expect(rt, MEMORY);
    let new = NewContext::with_limits(alloc, limits).expect(rt, MEMORY);
    serve_as::<R, Brand>(rt, alloc, new, reactor, poll)
}

/// These clients come one behind the other, by a clock that goes on by so many minutes each time that it is read.
fn talk(alloc: Global, clients: &[Client], minutes: u64) -> Result<Script, NoMemory> {
    let mut visits = Vec::new(alloc);
    for client in clients {
        visits.push(Visit::Comes(peer_of(alloc, client)?))?;
    }
    let mut script = script_of(alloc, visits)?;
    script.clock = clock_by(alloc, STILL, minutes.saturating_mul(60_000))?;
    Ok(script)
}

/// A client that sends this, and takes all that comes.
fn saying(sends: &'static [&'static [u8]], end: ReadEnd, back: &'static [u8]) -> Client {
    playing(sends, end, &[100_000], WriteEnd::Full, back)
}

/// Serves these clients, and compares what each was told.
fn each_is_told<R: Abort + Wait>(
    rt: &R,
    alloc: Global,
    clients: &[Client],
    minutes: u64,
    connections: u32,
) {
    let script = talk(alloc, clients, minutes).expect(rt, MEMORY);
    serve(rt, alloc, &script, connections);
    for (number, client) in clients.iter().enumerate() {
        assert_eq!(rt; took_at(&script, number), Some(client.back));
    }
}

#[test]
fn lines_come_to_all_members_in_one_order(rt: HostRuntime) {
    let ann = saying(
        &[b"red ann\n", b"", b"", b"hello\r\nag", b"ain\n"],
        ReadEnd::Open,
        b"* ann joined\n* bob joined\nann: hello\nann: again\n* bob left\n",
    );
    let bob = saying(
        &[b"red b", b"ob\n", b"", b"", b"", b"", b"", b""],
        ReadEnd::Eof,
        b"* bob joined\nann: hello\nann: again\n",
    );
    let other = saying(
        &[b"blue cid\nwho\n"],
        ReadEnd::Open,
        b"* cid joined\ncid: who\n",
    );
    each_is_told(&rt, rt.alloc(), &[ann, bob, other], 0, 3);
}

#[test]
fn a_client_that_is_silent_makes_room_for_the_next(rt: HostRuntime) {
    let next = saying(&[b"red ann\n"], ReadEnd::Open, b"* ann joined\n");
    // one that doesn't join, and a member of a silent room
    let caller = saying(&[b"red"], ReadEnd::Open, b"");
    each_is_told(&rt, rt.alloc(), &[caller, next], 1, 1);
    let member = saying(&[b"red bob\n"], ReadEnd::Open, b"* bob joined\n");
    each_is_told(&rt, rt.alloc(), &[member, next], 4, 1);
}

#[test]
fn a_member_is_kept_while_something_is_written_to_it(rt: HostRuntime) {
    // more than an hour from the first line to the last, and less from each to the next
    let ann = saying(
        &[
            b"red ann\n",
            b"",
            b"",
            b"1\n",
            b"",
            b"",
            b"2\n",
            b"",
            b"",
            b"3\n",
            b"",
            b"",
            b"4\n",
            b"",
            b"",
            b"5\n",
            b"",
            b"",
            b"6\n",
            b"",
            b"",
        ],
        ReadEnd::Eof,
        b"* ann joined\n* bob joined\nann: 1\nann: 2\nann: 3\nann: 4\nann: 5\nann: 6\n",
    );
    let bob = saying(
        &[b"red bob\n"],
        ReadEnd::Open,
        b"* bob joined\nann: 1\nann: 2\nann: 3\nann: 4\nann: 5\nann: 6\n* ann left\n",
    );
    let next = saying(&[b"blue cid\n"], ReadEnd::Open, b"* cid joined\n");
    each_is_told(&rt, rt.alloc(), &[ann, bob, next], 4, 2);
}

/// A client that joins and says so many lines after a pause, each in a piece of its own.
fn speaker(alloc: Global, many: u64) -> Result<PeerScript, NoMemory> {
    let mut sends = Vec::new(alloc);
    sends.push(Vec::from_slice(alloc, b"red ann\n")?)?;
    sends.push(Vec::new(alloc))?;
    sends.push(Vec::new(alloc))?;
    for _ in 0..many {
        sends.push(Vec::from_slice(alloc, b"x\n")?)?;
    }
    let takes = Vec::from_slice(alloc, &[100_000])?;
    Ok(PeerScript::of(sends, ReadEnd::Open, takes, WriteEnd::Full))
}

/// What it is told where the other one leaves behind its n-th line.
fn told_to(alloc: Global, many: u64, left: u64) -> Result<Vec<u8>, NoMemory> {
    let mut told = Vec::from_slice(alloc, b"* ann joined\n* slow joined\n")?;
    for line in 1..many.saturating_add(1) {
        told.extend_from_slice(b"ann: x\n")?;
        if line == left {
            told.extend_from_slice(b"* slow left\n")?;
        }
    }
    Ok(told)
}

#[test]
fn a_member_that_takes_nothing_is_dropped_at_the_limit(rt: HostRuntime) -> Result<(), NoMemory> {
    let alloc = rt.alloc();
    let slow = playing(&[b"red slow\n"], ReadEnd::Open, &[], WriteEnd::Full, b"");
    let mut visits = Vec::new(alloc);
    visits.push(Visit::Comes(speaker(alloc, MOST_PENDING + 20)?))?;
    visits.push(Visit::Comes(peer_of(alloc, &slow)?))?;
    let script = script_of(alloc, visits)?;
    serve(&rt, alloc, &script, 2);
    // of its writes the first is that of its own joining
    let told = told_to(alloc, MOST_PENDING + 20, MOST_PENDING)?;
    assert_eq!(rt; took_at(&script, 0), Some(told.as_slice()));
    assert_eq!(rt; took_at(&script, 1), Some(slow.back));
    Ok(())
}
