//! Clients of a server over a reactor in memory.

use asio_types::NoMemory;
use io_reactor_memory::{PeerScript, ReadEnd, Script, Visit, WriteEnd};
use std::alloc::Global;

/// What a client does, and what it has got back then.
#[derive(Clone, Copy)]
pub(crate) struct Client {
    pub(crate) sends: &'static [&'static [u8]],
    pub(crate) sends_end: ReadEnd,
    pub(crate) takes: &'static [usize],
    pub(crate) takes_end: WriteEnd,
    pub(crate) back: &'static [u8],
}

pub(crate) fn playing(
    sends: &'static [&'static [u8]],
    sends_end: ReadEnd,
    takes: &'static [usize],
    takes_end: WriteEnd,
    back: &'static [u8],
) -> Client {
    Client {
        sends,
        sends_end,
        takes,
        takes_end,
        back,
    }
}

fn bytes_of<T: Copy>(alloc: Global, items: &[T]) -> Result<Vec<T>, NoMemory> {
    let mut all = Vec::new(alloc);
    all.extend_from_slice(items)?;
    Ok(all)
}

pub(crate) fn peer_of(alloc: Global, client: &Client) -> Result<PeerScript, NoMemory> {
    let mut sends = Vec::new(alloc);
    for piece in client.sends {
        sends.push(bytes_of(alloc, piece)?)?;
    }
    let takes = bytes_of(alloc, client.takes)?;
    Ok(PeerScript::of(sends, client.sends_end, takes, client.takes_end))
}

/// A listener with these visits.
pub(crate) fn script_of(alloc: Global, visits: Vec<Visit>) -> Result<Script, NoMemory> {
    let mut listeners = Vec::new(alloc);
    listeners.push(Some(visits))?;
    Ok(Script {
        listeners,
        connects: Vec::new(alloc),
        clock: Vec::new(alloc),
        polls: Vec::new(alloc),
    })
}

/// A clock that stands still so many times that it is read, and then goes on by so many milliseconds each time.
pub(crate) fn clock_by(alloc: Global, still: u64, milliseconds: u64) -> Result<Vec<u64>, NoMemory> {
    let mut clock = Vec::new(alloc);
    for at in 0..200u64 {
        let steps = at.saturating_sub(still);
        clock.push(steps.saturating_mul(milliseconds).saturating_mul(1_000_000))?;
    }
    Ok(clock)
}

/// What the client of a visit got back.
fn took(visit: &Visit) -> Option<&[u8]> {
    match visit {
        Visit::Comes(peer) => peer.took(),
        _ => None,
    }
}

/// What the client of the listener's visit with this number got back.
pub(crate) fn took_at(script: &Script, number: usize) -> Option<&[u8]> {
    let visits = match script.listeners.first() {
        Some(Some(visits)) => visits,
        _ => return None,
    };
    match visits.get(number) {
        Some(visit) => took(visit),
        None => None,
    }
}
