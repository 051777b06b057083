//! A chat server over an io_context that some threads run: `chat PORT ROOM.. [--workers N]` listens on 127.0.0.1, at
//! any free port where PORT is 0, prints the port, and ends when its standard input has a byte or ends. A client's
//! first line is a room's word and the client's name; each further line goes to all members of that room. A client
//! that hasn't joined within a minute is let go, and a member to whom nothing was written for an hour. Nothing
//! stands on it.
#![tactic(auto)]

mod words;

ghost use Rattle.std.specs.Prelude.{◌≡◌, ◌<◌, ◌≤◌};

use asio_types::{Failed, NoMemory};
use chat_handlers::{Chat, MOST_MEMBERS, MOST_PENDING, Room, Service};
use io_context::{Context, Lane, Limits, Name, Named, NewContext, Reactor};
use io_reactor_mio::MioReactor;
use server_program::{MOST_WORKERS, ServerWords, serve_until_end, words_of};
use std::alloc::Global;
use std::marker::Brand;
use std::net::{Ipv4Addr, Net, SocketAddr, TcpListener, TcpStream};
use std::process::ExitCode;
use std::rt::{Clock, Env};
use std::sync::Wait;
use std::sync::ledger::Share;
use std::thread::Threads;
use words::{MOST_ROOMS, are_rooms};

const USAGE: &str = "usage: chat PORT ROOM.. [--workers N]";

/// As many connections at a time, members or not.
const CONNECTIONS: u32 = 1024;

/// A connection has one read or posting at a time and one wait or posting of its timer, and each member of each room
/// its pending writes. A room's handler initiates a write to each member, and a read; a worker keeps places for so
/// many. A timer may last a little longer than its connection.
const LIMITS: Limits = Limits {
    operations: 2 * CONNECTIONS
        + (MOST_ROOMS * MOST_MEMBERS) as u32 * MOST_PENDING as u32
        + (MOST_WORKERS * (MOST_MEMBERS + 1)) as u32
        + 64,
    strands: MOST_ROOMS as u32,
    timers: CONNECTIONS + 256,
    slots: 0,
    streams: CONNECTIONS + 1,
    grant: MOST_MEMBERS as u32,
    staged: MOST_MEMBERS as u32 + 16,
    held: 0,
};

/// Makes a room, which is asked before this one.
fn make_room<R: Wait, C: Named, W: Reactor>(
    rt: &R,
    alloc: Global,
    context: &Context<Chat, C, W>,
    word: &str,
    next: Option<Name>,
) -> Result<Name, Failed> {
    let Ok(word) = Vec::from_slice(alloc, word.as_bytes()) else {
        return Err(Failed);
    };
    match context.make_strand(rt, Room::of(alloc, word, next)) {
        Ok((room, _)) => Ok(room),
        Err(_) => Err(Failed),
    }
}

/// Makes all rooms; answers the one that is asked first.
fn make_rooms<R: Wait, C: Named, W: Reactor>(
    rt: &R,
    alloc: Global,
    context: &Context<Chat, C, W>,
    rooms: &[String],
) -> Result<Option<Name>, Failed> {
    let mut next = None;
    for word in rooms.iter().rev() {
        next = Some(make_room(rt, alloc, context, word.as_str(), next)?);
    }
    Ok(next)
}

/// Listens, prints the port, and accepts the first connection.
fn listen<R: Print + Wait, C: Named, W: Reactor>(
    rt: &R,
    alloc: Global,
    context: &Context<Chat, C, W>,
    port: u16,
    door: Name,
) -> Result<(), Failed> {
    let listening = context.listen(rt, SocketAddr::from((Ipv4Addr::LOCALHOST, port)))?;
    let listener = listening.listener;
    let Ok((timer, _section)) = context.make_timer(rt) else {
        return Err(Failed);
    };
    let service = Service {
        alloc,
        listener,
        timer,
        door,
    };
    let first = Chat::Accepted { service };
    if context.accept(rt, Lane::Own, listener, first).is_err() {
        return Err(Failed);
    }
    if let Some(address) = listening.address {
        let _unsaid = println!(rt; "port {}", address.port());
    }
    Ok(())
}

/// Makes the rooms, and listens.
fn start<R: Print + Wait, C: Named, W: Reactor>(
    rt: &R,
    alloc: Global,
    context: &Context<Chat, C, W>,
    asked: &ServerWords,
) -> Result<(), Failed> {
    match make_rooms(rt, alloc, context, asked.others.as_slice())? {
        None => Err(Failed),
        Some(door) => listen(rt, alloc, context, asked.port, door),
    }
}

/// Listens, and serves until standard input has a byte or ends.
fn serve<
    R: AllocGlobal + Eprint + Input + Print + Threads + Wait + Sync,
    C: Named + Send + Sync,
    W: Reactor + Sync,
>(rt: &R, context: &Context<Chat, C, W>, asked: &ServerWords, share: &mut Share<C>)
where
    W::Socket: Send,
    W::Poll: Send,
    requires { asked.now.workers < share.old.parts }
{
    let alloc = rt.alloc();
    if start(rt, alloc, context, asked).is_err() {
        let _unsaid = rt.eprintln("chat: it can't listen there");
        return;
    }
    serve_until_end(rt, context, asked.workers, share);
}

/// Serves over this reactor.
fn run_over<
    R: AllocGlobal + Eprint + Input + Print + Threads + Wait + Sync,
    C: Named + Send + Sync,
    W: Reactor + Sync,
>(rt: &R, new: NewContext, reactor: W, poll: W::Poll, asked: &ServerWords) -> Result<(), NoMemory>
where
    W::Socket: Send,
    W::Poll: Send,
    requires table { new.table ≡ C.table }
    requires limits { new.limits ≡ C.limits }
    requires name { new.name ≡ C.name }
    requires parts { new.parts ≡ C.parts }
{
    let (context, mut share) = Context::<Chat, C, W>::make(rt.alloc(), new, reactor, poll)?;
    serve(rt, &context, asked, &mut share);
    let _history = context.finish(rt, share);
    Ok(())
}

fn run<
    R: AllocGlobal
        + Clock
        + Copy
        + Eprint
        + Input
        + Net<Listener = TcpListener, Stream = TcpStream>
        + Print
        + Threads
        + Wait
        + Sync,
>(rt: &R, asked: &ServerWords) -> Result<(), NoMemory> {
    let alloc = rt.alloc();
    let Ok((reactor, poll)) = MioReactor::make(*rt, alloc) else {
        return Err(NoMemory);
    };
    let Ok(new) = NewContext::with_limits(alloc, LIMITS) else {
        reactor.finish(poll);
        return Err(NoMemory);
    };
    run_over::<R, Brand, MioReactor<R>>(rt, new, reactor, poll, asked)
}

/// What the program's words ask for, of which the others name rooms.
fn asked_of<R: Env + AllocGlobal>(rt: &R) -> Option<ServerWords> {
    words_of(rt).filter(|asked| are_rooms(asked.others.as_slice()))
}

fn main(rt: HostRuntime) -> ExitCode {
    let Some(asked) = asked_of(&rt) else {
        let _unsaid = rt.eprintln(USAGE);
        return ExitCode::from(1);
    };
    match run(&rt, &asked) {
        Ok(()) => ExitCode::from(0),
        Err(_) => ExitCode::from(2),
    }
}
