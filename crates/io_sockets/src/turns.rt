ghost use Rattle.std.specs.Prelude.{◌≡◌, ◌<◌, ℕ, [], false, true, length, slice_get, IfNone, IfOk, IfSome, Some};
ghost use Rattle.io_sockets.specs.declared.turn.WaitType.{WaitType};
ghost use Rattle.io_sockets.specs.Turns.{flag, is_listed, listed_at, no_turns, with_flag, with_turn, without_first};

use crate::turn::{Listed, Turn, WaitType};
use asio_types::NoMemory;
use std::alloc::Global;
use std::collections::VecDeque;
use std::marker::Model;

/// Which sockets are to be looked at, first come first, each kind of calls on each at most once.
/// Contracts see the list, and which are in it.
#[derive(Drop)]
pub struct Turns {
    ring: VecDeque<Turn>,
    listed: Vec<Listed>,
}

impl Model for Turns {
    ghost use Rattle.std.specs.VecDeque.{deque_capacity};
    ghost use Rattle.io_sockets.specs.Turns.{IsTurnList, TurnList};

    ghost Value = { TurnList };

    ghost view = { λ t. record { ring = t.ring.items; listed = t.listed.items } };

    ghost invariant = { λ t. IsTurnList (deque_capacity t.ring)
        (record { ring = t.ring.items; listed = t.listed.items }) };
}

/// Whether it is in the list, of what is listed at its place.
fn is_flagged(wait: WaitType, listed: Listed) -> bool
    ensures { result ≡ flag wait listed }
{
    match wait {
        WaitType::Read => listed.read,
        WaitType::Write => listed.write,
    }
}

/// What is listed at a place, with this changed.
fn flagged(wait: WaitType, to: bool, listed: Listed) -> Listed
    ensures { result ≡ with_flag wait to listed }
{
    match wait {
        WaitType::Read => Listed {
            read: to,
            write: listed.write,
        },
        WaitType::Write => Listed {
            read: listed.read,
            write: to,
        },
    }
}

impl Turns {
    /// An empty list for the sockets of so many places. Takes memory for all of them, and nothing
    /// takes memory later; `NoMemory` where it is refused.
    pub fn make(alloc: Global, places: u32) -> Result<Turns, NoMemory>
        ensures { IfOk result (λ made. made ≡ no_turns places) }
    {
        let unlisted = Listed {
            read: false,
            write: false,
        };
        let listed = vec![in alloc; unlisted; places as usize]?;
        let ring = VecDeque::with_capacity(alloc, places as usize + places as usize)?;
        Ok(Turns { ring, listed })
    }

    /// How many are in the list.
    pub fn len(&self) -> usize
        ensures { result ≡ length self.now.ring }
    {
        self.ring.len()
    }

    /// It is to be looked at: it comes last, unless it is in the list.
    pub fn list(&mut self, turn: Turn)
        requires { turn.place < length self.old.listed }
        ensures { self.new ≡ with_turn turn self.old }
    {
        let listed = self.listed[turn.place as usize];
        if is_flagged(turn.wait, listed) {
            return;
        }
        self.listed[turn.place as usize] = flagged(turn.wait, true, listed);
        self.ring.push_back_reserved(turn);
    }

    /// Takes the first; `None` exactly where the list is empty, and then nothing is listed.
    pub fn next(&mut self) -> Option<Turn>
        ensures first { IfSome result (λ first. slice_get self.old.ring 0 ≡ Some first) }
        ensures within { IfSome result (λ first. first.place < length self.old.listed) }
        ensures listed { IfSome result (λ first. is_listed self.old first ≡ true) }
        ensures taken { IfSome result (λ first. self.new ≡ without_first first self.old) }
        ensures empty { IfNone result (self.old.ring ≡ []) }
        ensures none { IfNone result ((wait : WaitType) (place : ℕ) →
            flag wait (listed_at self.old.listed place) ≡ false) }
        ensures same { IfNone result (self.new ≡ self.old) }
    {
        match self.ring.pop_front() {
            None => None,
            Some(first) => {
                let listed = self.listed[first.place as usize];
                self.listed[first.place as usize] = flagged(first.wait, false, listed);
                Some(first)
            }
        }
    }
}
