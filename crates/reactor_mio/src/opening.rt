use crate::pauses::Pauses;
use crate::wire::Wire;
use crate::wires::Wires;
use asio_types::{Failed, SetupFault};
use mio::net::{TcpListener, TcpStream};
use mio::{Events, Interest, Poll, Token};
use std::alloc::Global;
use std::io;
use std::io::ErrorKind;
use std::net::{Ipv4Addr, Net, SocketAddr};

/// How often a connection is waited for, a pause each time.
const MOST_WAITS: u32 = 100;

/// How many events one pause takes.
const EVENTS: usize = 64;

/// What the listener is registered as; a stream is registered as its number.
const LISTENER: Token = Token(256);

fn failed<T>(gave: io::Result<T>) -> Result<T, Failed> {
    match gave {
        Ok(value) => Ok(value),
        Err(_) => Err(Failed),
    }
}

/// A listener on a free port of 127.0.0.1.
fn listen<R: Net>(rt: &R, pauses: &Pauses) -> Result<TcpListener, Failed> {
    let any = SocketAddr::from((Ipv4Addr::LOCALHOST, 0));
    let mut listener = failed(TcpListener::bind(rt, any))?;
    let registry = pauses.poll.registry();
    failed(registry.register(&mut listener, LISTENER, Interest::READABLE))?;
    Ok(listener)
}

/// The connection from this address, or none where it isn't there yet; those of others are dropped.
fn accept_from(listener: &TcpListener, own: SocketAddr) -> Result<Option<TcpStream>, Failed> {
    for _ in 0..MOST_WAITS {
        match listener.accept() {
            Ok((far, peer)) if peer == own => return Ok(Some(far)),
            Ok(_) => {}
            Err(error) => match error.kind() {
                ErrorKind::Interrupted | ErrorKind::ConnectionAborted => {}
                ErrorKind::WouldBlock => return Ok(None),
                _ => return Err(Failed),
            },
        }
    }
    Ok(None)
}

/// The far end of the connection whose near end this is.
fn far_end_of(
    listener: &TcpListener,
    near: &TcpStream,
    pauses: &mut Pauses,
) -> Result<TcpStream, Failed> {
    let own = failed(near.local_addr())?;
    for _ in 0..MOST_WAITS {
        if let Some(far) = accept_from(listener, own)? {
            return Ok(far);
        }
        let None = failed(near.take_error())? else {
            return Err(Failed);
        };
        pauses.pause()?;
    }
    Err(Failed)
}

/// Opens one stream: its near end is registered under this number.
fn open_wire<R: Net>(
    rt: &R,
    listener: &TcpListener,
    number: usize,
    pauses: &mut Pauses,
) -> Result<Wire, Failed> {
    let address = failed(listener.local_addr())?;
    let mut near = failed(TcpStream::connect(rt, address))?;
    let far = far_end_of(listener, &near, pauses)?;
    failed(near.set_nodelay(true))?;
    failed(far.set_nodelay(true))?;
    let registry = pauses.poll.registry();
    failed(registry.register(&mut near, Token(number), Interest::READABLE))?;
    Ok(Wire::of(near, far))
}

fn make_pauses<R: Net>(rt: &R, alloc: Global) -> Result<Pauses, SetupFault> {
    let events = Events::with_capacity(alloc, EVENTS).map_err(|_| SetupFault::NoMemory)?;
    let poll = failed(Poll::new(rt)).map_err(|_| SetupFault::Failed)?;
    Ok(Pauses { poll, events })
}

/// Opens one connection over 127.0.0.1 for each stream. The listener is gone once they stand.
fn open_some<R: Net>(rt: &R, alloc: Global, streams: u8) -> Result<Wires, SetupFault> {
    let mut each = Vec::with_capacity(alloc, streams as usize).map_err(|_| SetupFault::NoMemory)?;
    let mut pauses = make_pauses(rt, alloc)?;
    let listener = listen(rt, &pauses).map_err(|_| SetupFault::Failed)?;
    for number in 0..streams {
        let opened = open_wire(rt, &listener, number as usize, &mut pauses);
        let wire = opened.map_err(|_| SetupFault::Failed)?;
        each.push(Some(wire)).map_err(|_| SetupFault::NoMemory)?;
    }
    Ok(Wires {
        each,
        pauses: Some(pauses),
    })
}

/// The sockets of a world with so many streams; none are opened where it has none.
pub(crate) fn open_wires<R: Net>(rt: &R, alloc: Global, streams: u8) -> Result<Wires, SetupFault> {
    if streams > 0 {
        open_some(rt, alloc, streams)
    } else {
        Ok(Wires {
            each: Vec::new(alloc),
            pauses: None,
        })
    }
}
