//! An HTTP/1.1 server that says hello, over an io_context that some threads run: `http_hello PORT [ADDRESS..]
//! [--workers N] [--idle SECONDS]` listens at these addresses, or on 127.0.0.1, at any free port where PORT is 0. It
//! prints each port, and ends when its standard input has a byte or ends. A client whose request doesn't come whole
//! within a minute, or as many seconds, is let go. Nothing stands on it.
#![tactic(auto)]

mod words;

ghost use Rattle.std.specs.Prelude.{◌≡◌, ◌<◌, ◌≤◌};

use asio_types::{Failed, NoMemory};
use http_handlers::{Activity, Http, Service};
use io_context::{Context, Lane, Limits, Named, NewContext, Reactor};
use io_reactor_mio::MioReactor;
use server_program::serve_until_end;
use std::marker::Brand;
use std::net::{Net, SocketAddr, TcpListener, TcpStream};
use std::process::ExitCode;
use std::rt::Clock;
use std::sync::Wait;
use std::sync::ledger::Share;
use std::thread::Threads;
use words::{Asked, asked_of};

const USAGE: &str = "usage: http_hello PORT [ADDRESS..] [--workers N] [--idle SECONDS]";

/// How many nanoseconds a second has.
const SECOND: u64 = 1_000_000_000;

/// As many connections at a time. Each has at most three operations: a wait, a read, and the write of a
/// 408. No handler initiates more than two.
const CONNECTIONS: u32 = 1152;

fn limits_of(listeners: u32) -> Limits
    requires { listeners ≤ 16 }
{
    Limits {
        operations: 3 * CONNECTIONS + listeners + 256,
        strands: CONNECTIONS + listeners,
        timers: CONNECTIONS + 64,
        slots: 0,
        streams: CONNECTIONS + listeners,
        grant: 2,
        staged: 8,
        held: 0,
    }
}

/// A strand for each connection that there may be.
fn make_strands<R: Wait, C: Named, W: Reactor>(
    rt: &R,
    context: &Context<Http<'_>, C, W>,
    many: u32,
    lanes: &mut Vec<Lane>,
) -> Result<(), NoMemory> {
    for _ in 0..many {
        match context.make_strand(
            rt,
            Activity {
                until: 0,
                begun: false,
                over: false,
            },
        ) {
            Ok((name, _section)) => lanes.push(Lane::Strand(name))?,
            Err(_refused) => return Err(NoMemory),
        }
    }
    Ok(())
}

/// Listens at an address, prints the port, and accepts the first connection.
fn listen<'a, R: AllocGlobal + Print + Wait, C: Named, W: Reactor>(
    rt: &R,
    context: &Context<Http<'a>, C, W>,
    lanes: &'a [Lane],
    address: SocketAddr,
    idle: u64,
) -> Result<(), Failed> {
    let listening = context.listen(rt, address)?;
    let listener = listening.listener;
    let service = Service {
        alloc: rt.alloc(),
        listener,
        idle: idle.saturating_mul(SECOND),
        lanes,
    };
    let first = Http::Accepted { service };
    if context.accept(rt, Lane::Own, listener, first).is_err() {
        return Err(Failed);
    }
    if let Some(address) = listening.address {
        let _unsaid = println!(rt; "port {}", address.port());
    }
    Ok(())
}

/// Likewise at each of these.
fn listen_all<'a, R: AllocGlobal + Print + Wait, C: Named, W: Reactor>(
    rt: &R,
    context: &Context<Http<'a>, C, W>,
    lanes: &'a [Lane],
    asked: &Asked,
) -> Result<(), Failed> {
    for address in &asked.addresses {
        let address = SocketAddr::from((*address, asked.words.port));
        listen(rt, context, lanes, address, asked.idle)?;
    }
    Ok(())
}

/// Listens, and serves until standard input has a byte or ends.
fn serve<
    'a,
    R: AllocGlobal + Eprint + Input + Print + Threads + Wait + Sync,
    C: Named + Send + Sync,
    W: Reactor + Sync,
>(rt: &R, context: &Context<Http<'a>, C, W>, lanes: &'a [Lane], asked: &Asked, share: &mut Share<C>)
where
    W::Socket: Send,
    W::Poll: Send,
    requires { asked.now.words.workers < share.old.parts }
{
    if listen_all(rt, context, lanes, asked).is_err() {
        let _unsaid = rt.eprintln("http_hello: it can't listen there");
        return;
    }
    serve_until_end(rt, context, asked.words.workers, share);
}

/// Serves over this reactor.
fn run_over<
    R: AllocGlobal + Eprint + Input + Print + Threads + Wait + Sync,
    C: Named + Send + Sync,
    W: Reactor + Sync,
>(
    rt: &R,
    new: NewContext,
    reactor: W,
    poll: W::Poll,
    asked: &Asked,
    strands: u32,
) -> Result<(), NoMemory>
where
    W::Socket: Send,
    W::Poll: Send,
    requires table { new.table ≡ C.table }
    requires limits { new.limits ≡ C.limits }
    requires name { new.name ≡ C.name }
    requires parts { new.parts ≡ C.parts }
{
    let mut lanes = Vec::new(rt.alloc());
    let (context, mut share) = Context::<Http<'_>, C, W>::make(rt.alloc(), new, reactor, poll)?;
    let made = make_strands(rt, &context, strands, &mut lanes);
    if made.is_ok() {
        serve(rt, &context, lanes.as_slice(), asked, &mut share);
    }
    let _history = context.finish(rt, share);
    made
}

fn run<
    R: AllocGlobal
        + Clock
        + Copy
        + Eprint
        + Input
        + Net<Listener = TcpListener, Stream = TcpStream>
        + Print
        + Threads
        + Wait
        + Sync,
>(rt: &R, asked: &Asked) -> Result<(), NoMemory> {
    let alloc = rt.alloc();
    let Ok((reactor, poll)) = MioReactor::make(*rt, alloc) else {
        return Err(NoMemory);
    };
    let listeners = asked.addresses.len().min(16) as u32;
    let limits = limits_of(listeners);
    let Ok(new) = NewContext::with_limits(alloc, limits) else {
        reactor.finish(poll);
        return Err(NoMemory);
    };
    run_over::<R, Brand, MioReactor<R>>(rt, new, reactor, poll, asked, limits.strands)
}

fn main(rt: HostRuntime) -> ExitCode {
    let Some(asked) = asked_of(&rt) else {
        let _unsaid = rt.eprintln(USAGE);
        return ExitCode::from(1);
    };
    match run(&rt, &asked) {
        Ok(()) => ExitCode::from(0),
        Err(_) => ExitCode::from(2),
    }
}
