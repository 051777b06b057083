//! A server that gives each client its bytes back, over an io_context that some threads run: `tcp_echo PORT
//! [ADDRESS..] [--workers N]` listens at these addresses, or on 127.0.0.1, at any free port where PORT is 0. It
//! prints each port, and ends when its standard input has a byte or ends. A client that sends nothing for a
//! minute is let go. Where an accept fails, as without file descriptors, the next one waits a while. Nothing stands on it.
#![tactic(auto)]

ghost use Rattle.std.specs.Prelude.{◌≡◌, ◌<◌, ◌≤◌};

use asio_types::{Failed, NoMemory};
use echo_handlers::{Echo, Service};
use io_context::{Context, Lane, Limits, Named, NewContext, Reactor};
use io_reactor_mio::MioReactor;
use server_program::{ServerWords, addresses_of, serve_until_end, words_of};
use std::marker::Brand;
use std::net::{IpAddr, Net, SocketAddr, TcpListener, TcpStream};
use std::process::ExitCode;
use std::rt::{Clock, Env};
use std::sync::Wait;
use std::sync::ledger::Share;
use std::thread::Threads;

/// What the program's words ask for.
#[derive(Drop)]
struct Asked {
    words: ServerWords,
    /// Where it listens.
    addresses: Vec<IpAddr>,
}

const USAGE: &str = "usage: tcp_echo PORT [ADDRESS..] [--workers N]";

/// For so many nanoseconds a client may send nothing.
const IDLE: u64 = 60_000_000_000;

/// As many connections at a time. Each has two operations, and the handler of an accept initiates two more.
/// A handler that executes keeps one strand and one timer for what it may make, and the strand of a connection that
/// is over is there until its last handler has ended: so there are more of them, for up to 64 workers.
const CONNECTIONS: u32 = 1152;

fn limits_of(listeners: u32) -> Limits
    requires { listeners ≤ 16 }
{
    Limits {
        operations: 2 * CONNECTIONS + listeners + 256,
        strands: CONNECTIONS + 128,
        timers: CONNECTIONS + listeners + 64,
        slots: 0,
        streams: CONNECTIONS + listeners,
        grant: 2,
        staged: 8,
        held: 0,
    }
}

/// Listens at an address, prints the port, and accepts the first connection.
fn listen<R: AllocGlobal + Print + Wait, C: Named, W: Reactor>(
    rt: &R,
    context: &Context<Echo, C, W>,
    address: SocketAddr,
) -> Result<(), Failed> {
    let listening = context.listen(rt, address)?;
    let listener = listening.listener;
    let Ok((timer, _section)) = context.make_timer(rt) else {
        return Err(Failed);
    };
    let service = Service {
        alloc: rt.alloc(),
        listener,
        timer,
        idle: IDLE,
    };
    let first = Echo::Accepted { service };
    if context.accept(rt, Lane::Own, listener, first).is_err() {
        return Err(Failed);
    }
    if let Some(address) = listening.address {
        let _unsaid = println!(rt; "port {}", address.port());
    }
    Ok(())
}

/// Likewise at each of these.
fn listen_all<R: AllocGlobal + Print + Wait, C: Named, W: Reactor>(
    rt: &R,
    context: &Context<Echo, C, W>,
    asked: &Asked,
) -> Result<(), Failed> {
    for address in &asked.addresses {
        let address = SocketAddr::from((*address, asked.words.port));
        listen(rt, context, address)?;
    }
    Ok(())
}

/// Listens, and serves until standard input has a byte or ends.
fn serve<
    R: AllocGlobal + Eprint + Input + Print + Threads + Wait + Sync,
    C: Named + Send + Sync,
    W: Reactor + Sync,
>(rt: &R, context: &Context<Echo, C, W>, asked: &Asked, share: &mut Share<C>)
where
    W::Socket: Send,
    W::Poll: Send,
    requires { asked.now.words.workers < share.old.parts }
{
    if listen_all(rt, context, asked).is_err() {
        let _unsaid = rt.eprintln("tcp_echo: it can't listen there");
        return;
    }
    serve_until_end(rt, context, asked.words.workers, share);
}

/// Serves over this reactor.
fn run_over<
    R: AllocGlobal + Eprint + Input + Print + Threads + Wait + Sync,
    C: Named + Send + Sync,
    W: Reactor + Sync,
>(rt: &R, new: NewContext, reactor: W, poll: W::Poll, asked: &Asked) -> Result<(), NoMemory>
where
    W::Socket: Send,
    W::Poll: Send,
    requires table { new.table ≡ C.table }
    requires limits { new.limits ≡ C.limits }
    requires name { new.name ≡ C.name }
    requires parts { new.parts ≡ C.parts }
{
    let (context, mut share) = Context::<Echo, C, W>::make(rt.alloc(), new, reactor, poll)?;
    serve(rt, &context, asked, &mut share);
    let _history = context.finish(rt, share);
    Ok(())
}

fn run<
    R: AllocGlobal
        + Clock
        + Copy
        + Eprint
        + Input
        + Net<Listener = TcpListener, Stream = TcpStream>
        + Print
        + Threads
        + Wait
        + Sync,
>(rt: &R, asked: &Asked) -> Result<(), NoMemory> {
    let alloc = rt.alloc();
    let Ok((reactor, poll)) = MioReactor::make(*rt, alloc) else {
        return Err(NoMemory);
    };
    let listeners = asked.addresses.len().min(16) as u32;
    let limits = limits_of(listeners);
    let Ok(new) = NewContext::with_limits(alloc, limits) else {
        reactor.finish(poll);
        return Err(NoMemory);
    };
    run_over::<R, Brand, MioReactor<R>>(rt, new, reactor, poll, asked)
}

/// What the program's words ask for.
fn asked_of<R: Env + AllocGlobal>(rt: &R) -> Option<Asked> {
    let words = words_of(rt)?;
    let addresses = addresses_of(rt.alloc(), words.others.as_slice())?;
    Some(Asked { words, addresses })
}

fn main(rt: HostRuntime) -> ExitCode {
    let Some(asked) = asked_of(&rt) else {
        let _unsaid = rt.eprintln(USAGE);
        return ExitCode::from(1);
    };
    match run(&rt, &asked) {
        Ok(()) => ExitCode::from(0),
        Err(_) => ExitCode::from(2),
    }
}
