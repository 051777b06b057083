ghost use Rattle.std.specs.Prelude.{◌≡◌, ◌<◌, ◌&&◌, ℕ, false, nat_lt, true, length, slice_get, IfNone, IfOk, IfSome, Some};
ghost use Rattle.std.specs.Option.{is_some};
ghost use Rattle.io_sockets.specs.declared.turn.WaitType.{WaitType};
ghost use Rattle.io_sockets.specs.Stands.{all_closed, closed_out, edge_noted, is_awaited, is_current, is_gone, is_in, is_out, is_ready, left_back, listed, listed_both, may_be_taken, no_sockets, noted, opened, removed, returned, socket_in, stand_at, taken, with_stand};
ghost use Rattle.io_sockets.specs.Turns.{flag, is_listed, listed_at, without_first};

use crate::readiness::Outcome;
use crate::stand::{Stand, wait_of};
use crate::turn::{Turn, WaitType};
use crate::turns::Turns;
use asio_types::NoMemory;
use io_rules::{Name, Side};
use std::alloc::Global;
use std::marker::Model;

/// The sockets of all streams and listeners of a context. Contracts see, by place, where each
/// socket is and what is known of its readiness, and which are to be looked at.
pub struct Sockets<S> {
    stands: Vec<Stand<S>>,
    turns: Turns,
}

impl<S> Model for Sockets<S> {
    ghost use Rattle.std.specs.Prelude.{◌≡◌, length};
    ghost use Rattle.io_sockets.specs.Stands.{SocketList};

    ghost Value = { SocketList S };

    ghost view = { λ s. record { stands = s.stands.items; turns = s.turns } };

    ghost invariant = { λ s. length s.turns.listed ≡ length s.stands.items };
}

impl<S> Sockets<S> {
    /// So many places without sockets. Takes memory for all of them, and nothing takes memory
    /// later; `NoMemory` where it is refused.
    pub fn make(alloc: Global, places: u32) -> Result<Sockets<S>, NoMemory>
        ensures { IfOk result (λ made. made ≡ no_sockets places) }
    {
        let turns = Turns::make(alloc, places)?;
        let mut stands = Vec::with_capacity(alloc, places as usize)?;
        for _ in 0..places {
            stands.push_reserved(Stand::empty());
        }
        Ok(Sockets { stands, turns })
    }

    /// Gives its memory back. No socket is there, nor with a worker.
    pub fn destroy(self)
        requires { (place : ℕ) → is_gone (stand_at self place).held ≡ true }
    {
        let Sockets {
            mut stands,
            turns: _,
        } = self;
        while let Some(stand) = stands.pop() {
            stand.destroy();
        }
        stands.destroy_empty();
    }

    /// Ends its use, and answers the stands by place, with the sockets that are here.
    pub fn into_stands(self) -> Vec<Stand<S>>
        ensures { result.items ≡ self.stands }
    {
        let Sockets { stands, turns: _ } = self;
        stands
    }

    /// Whether there is such a place.
    pub fn has_place(&self, place: u32) -> bool
        ensures { result ≡ nat_lt place (length self.now.stands) }
    {
        (place as usize) < self.stands.len()
    }

    /// Whether a worker has the socket of this place.
    pub fn is_out(&self, place: u32) -> bool
        ensures { result ≡ is_out (stand_at self.now place).held }
    {
        match self.stands.get(place as usize) {
            Some(stand) => stand.is_out(),
            None => false,
        }
    }

    /// Whether a socket is here at this place.
    pub fn has_socket(&self, place: u32) -> bool
        ensures { result ≡ is_some (socket_in (stand_at self.now place).held) }
    {
        match self.stands.get(place as usize) {
            Some(stand) => stand.has_socket(),
            None => false,
        }
    }

    /// Whether the socket of this name comes later.
    pub fn is_awaited(&self, name: Name) -> bool
        ensures { result ≡ (is_current self.now name && is_awaited (stand_at self.now name.place).held) }
    {
        match self.stands.get(name.place as usize) {
            Some(stand) => stand.generation == name.generation && stand.is_awaited(),
            None => false,
        }
    }

    /// Nothing is at this place any more; a socket that was here comes out, to be closed by the caller.
    pub fn remove(&mut self, place: u32) -> Option<S>
        ensures socket { result ≡ socket_in (stand_at self.old place).held }
        ensures removed { self.new ≡ with_stand place (removed (stand_at self.old place)) self.old }
    {
        self.stands.get_mut(place as usize)?.remove()
    }

    /// This place gets a name for a socket that comes later, as `open` gives it; what was there comes out, to be
    /// closed by the caller. No effect where there is no such place.
    pub fn renew(&mut self, name: Name) -> Option<S>
        ensures socket { result ≡ socket_in (stand_at self.old name.place).held }
        ensures renewed { self.new ≡ with_stand name.place (opened name.generation) self.old }
    {
        let stand = self.stands.get_mut(name.place as usize)?;
        let left = stand.remove();
        stand.open(name.generation);
        left
    }

    /// A name for a socket that comes later, as by an accept or a connect. Edges that come for it
    /// before are kept.
    pub fn open(&mut self, name: Name)
        requires within { name.place < length self.old.stands }
        requires free { is_gone (stand_at self.old name.place).held ≡ true }
        ensures { self.new ≡ with_stand name.place (opened name.generation) self.old }
    {
        self.stands[name.place as usize].open(name.generation);
    }

    /// The socket of a name is here. Its reads and its writes are worth trying, and are to be
    /// looked at.
    pub fn note(&mut self, name: Name, socket: S)
        requires { is_awaited (stand_at self.old name.place).held ≡ true }
        ensures { self.new ≡ listed_both name.place
            (with_stand name.place (noted socket (stand_at self.old name.place)) self.old) }
    {
        self.stands[name.place as usize].note(socket);
        self.list_both(name.place);
    }

    /// Whether the socket of this name is here, or its connect is to make it.
    pub fn may_be_taken(&self, name: Name) -> bool
        ensures { result ≡ may_be_taken self.now name }
    {
        match self.stands.get(name.place as usize) {
            Some(stand) => stand.generation == name.generation && stand.is_in(),
            None => false,
        }
    }

    /// Whether a system call of this side is worth trying.
    pub fn is_ready(&self, name: Name, side: Side) -> bool
        ensures { result ≡ is_ready self.now name side }
    {
        match self.stands.get(name.place as usize) {
            Some(stand) => stand.readiness(wait_of(side)).ready,
            None => false,
        }
    }

    /// A worker takes the socket for a system call of this side; none where a connect is to make
    /// it.
    pub fn take(&mut self, name: Name, side: Side) -> Option<S>
        requires { may_be_taken self.old name ≡ true }
        ensures socket { result ≡ socket_in (stand_at self.old name.place).held }
        ensures taken { self.new ≡ with_stand name.place (taken side (stand_at self.old name.place)) self.old }
    {
        self.stands[name.place as usize].take(side)
    }

    /// A worker brings the socket back, with how its call went; none where a connect failed to make
    /// it. Both its reads and its writes are to be looked at. One that was closed meanwhile comes
    /// out, to be closed by the caller.
    pub fn put_back(&mut self, place: u32, socket: Option<S>, outcome: Outcome) -> Option<S>
        requires { is_out (stand_at self.old place).held ≡ true }
        ensures left { result ≡ left_back socket (stand_at self.old place).held }
        ensures back { self.new ≡ listed_both place
            (with_stand place (returned socket outcome (stand_at self.old place)) self.old) }
    {
        let left = self.stands[place as usize].give_back(socket, outcome);
        self.list_both(place);
        left
    }

    /// The name is gone. A socket that is here comes out, to be closed by the caller; one that a
    /// worker has comes out when it is back. No effect where the place has another name.
    pub fn close(&mut self, name: Name) -> Option<S>
        ensures socket { result ≡ closed_out name self.old }
        ensures closed { self.new ≡ all_closed name self.old }
    {
        let stand = self.stands.get_mut(name.place as usize)?;
        if stand.generation != name.generation {
            return None;
        }
        stand.close()
    }

    /// An edge came for a socket, perhaps of an end: calls of this kind are worth trying, and are
    /// to be looked at. No effect where the name is gone.
    pub fn edge(&mut self, name: Name, wait: WaitType, ended: bool)
        ensures { self.new ≡ edge_noted name wait ended self.old }
    {
        let Some(stand) = self.stands.get_mut(name.place as usize) else {
            return;
        };
        if !stand.is_known(name.generation) {
            return;
        }
        stand.edge(wait, ended);
        self.turns.list(Turn {
            place: name.place,
            wait,
        });
    }

    /// A socket is to be looked at: it comes last, unless it is in the list.
    pub fn list(&mut self, place: u32, wait: WaitType)
        requires { place < length self.old.stands }
        ensures { self.new ≡ listed place wait self.old }
    {
        self.turns.list(Turn { place, wait });
    }

    /// Both kinds of calls on it are to be looked at.
    fn list_both(&mut self, place: u32)
        requires { place < length self.old.stands }
        ensures { self.new ≡ listed_both place self.old }
    {
        self.turns.list(Turn {
            place,
            wait: WaitType::Read,
        });
        self.turns.list(Turn {
            place,
            wait: WaitType::Write,
        });
    }

    /// How many are to be looked at.
    pub fn turns(&self) -> usize
        ensures { result ≡ length self.now.turns.ring }
    {
        self.turns.len()
    }

    /// Takes the first that is to be looked at; `None` exactly where none is.
    pub fn next(&mut self) -> Option<Turn>
        ensures first { IfSome result (λ first. slice_get self.old.turns.ring 0 ≡ Some first) }
        ensures within { IfSome result (λ first. first.place < length self.old.stands) }
        ensures listed { IfSome result (λ first. is_listed self.old.turns first ≡ true) }
        ensures taken { IfSome result (λ first.
            self.new ≡ record self.old { turns = without_first first self.old.turns }) }
        ensures none { IfNone result ((wait : WaitType) (place : ℕ) →
            flag wait (listed_at self.old.turns.listed place) ≡ false) }
        ensures same { IfNone result (self.new ≡ self.old) }
    {
        self.turns.next()
    }
}
