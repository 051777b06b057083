ghost use Rattle.std.specs.Bool.{OnFalse, OnTrue};
ghost use Rattle.std.specs.Prelude.{◌≡◌, ◌<◌, ◌≤◌, ◌+◌, if◌then◌else◌, [], ◌∷◌, nat_lt, true, IfErr, IfNone, IfOk, IfSome, OnErr, OnOk, Some};
ghost use Rattle.io_handlers.specs.Initiated.{IsMade, IsMadeOf, IsOffered, IsOfferedCall, IsRoomFor, MayInitiate, MayRetire, called, changed, delayed, is_offered_change, left_by, made_strand, new_initiated, operations_in, renewed, retiring, room_after};

use crate::initiator::Initiator;
use crate::spares::{left_by, no_spares, without_spare};
use crate::staged::{Full, Initiating, Staged};
use asio_types::NoMemory;
use io_rules::{Control, Kind, Name, Spares};
use std::alloc::Global;
use std::collections::VecDeque;
use std::marker::Model;

/// Where what a handler initiates is kept till it takes effect; a context's own. Contracts see what is
/// staged, and for how much more there is room.
pub struct Staging<H, S> {
    // in the order of the calls
    pub(crate) staged: VecDeque<Staged<H, S>>,
    // how many operations the handler was granted, its own place too
    granted: u64,
    // how many of these it may still initiate
    places: u64,
    // whether it has initiated none: the first one has room of its own
    first: bool,
    // for how many more calls there is room beside
    room: usize,
    // for how many there is when a handler begins
    most: usize,
    // the names that are kept for what is staged and what it may still make
    kept: Spares,
    // those that nothing staged uses
    spares: Spares,
    // whether a call counts from when the handler has returned
    delays: bool,
    // states of strands that were freed and are forgotten, to be retired
    retired: VecDeque<S>,
}

impl<H, S> Model for Staging<H, S> {
    ghost use Rattle.std.specs.VecDeque.{deque_capacity};
    ghost use Rattle.io_handlers.specs.Initiated.{HasRoom, Initiated};

    ghost Value = { Initiated H S };

    ghost view = { λ i. record {
      staged = i.staged.items;
      granted = i.granted;
      places = i.places;
      first = i.first;
      room = i.room;
      most = i.most;
      kept = i.kept;
      spares = i.spares;
      delays = i.delays;
      retired = i.retired.items;
    } };

    ghost invariant = { λ i. HasRoom (deque_capacity i.staged) (deque_capacity i.retired) (record {
      staged = i.staged.items;
      granted = i.granted;
      places = i.places;
      first = i.first;
      room = i.room;
      most = i.most;
      kept = i.kept;
      spares = i.spares;
      delays = i.delays;
      retired = i.retired.items;
    }) };
}

/// The room that one more operation leaves: the first one has its own.
fn room_after(first: bool, room: usize) -> usize
    requires { IsRoomFor first room }
    ensures { result ≡ room_after first room }
{
    if first { room } else { room - 1 }
}

impl<H, S> Staging<H, S> {
    /// Room for so many calls beside the first operation's. Takes memory for all of them, and nothing takes
    /// memory later; `NoMemory` where it is refused. Nothing is granted yet.
    pub fn with_room(alloc: Global, most: u32) -> Result<Staging<H, S>, NoMemory>
        ensures { IfOk result (λ made. made ≡ new_initiated most) }
    {
        let most = most as usize;
        let staged = VecDeque::with_capacity(alloc, most + 1)?;
        match VecDeque::with_capacity(alloc, most + 1) {
            Err(refused) => {
                staged.destroy_empty();
                Err(refused.into())
            }
            Ok(retired) => Ok(Staging {
                staged,
                granted: 0,
                places: 0,
                first: false,
                room: 0,
                most,
                kept: no_spares(),
                spares: no_spares(),
                delays: false,
                retired,
            }),
        }
    }

    /// A handler begins, and may initiate so many operations, and make something under these names. What was
    /// staged before has taken effect.
    pub fn begin(self, places: u64, spares: Spares) -> Initiator<H, S>
        requires staged { self.staged ≡ [] }
        requires retired { self.retired ≡ [] }
        ensures { result ≡ renewed places spares self }
    {
        let mut staging = self;
        staging.granted = places;
        staging.places = places;
        staging.first = true;
        staging.room = staging.most;
        staging.kept = spares;
        staging.spares = spares;
        staging.delays = false;
        Initiator { staging }
    }

    /// Initiates an operation, or gives its handler back where no place or no room is left.
    pub(crate) fn initiate(&mut self, call: Initiating<H>) -> Result<(), Full<H>>
        requires { IsOfferedCall call }
        ensures may { OnOk result (MayInitiate self.old) }
        ensures called { OnOk result (self.new ≡ called call self.old) }
        ensures full { OnErr result (¬ MayInitiate self.old) }
        ensures same { OnErr result (self.new ≡ self.old) }
        ensures back { IfErr result (λ full. full.0 ≡ call.handler) }
    {
        if self.is_full() {
            let Initiating {
                lane: _,
                binding: _,
                kind: _,
                buffer: _,
                handler,
            } = call;
            return Err(Full(handler));
        }
        self.stage(call);
        Ok(())
    }

    /// Whether no place or no room is left for one more operation.
    pub(crate) fn is_full(&self) -> bool
        ensures full { OnTrue result (¬ MayInitiate self.now) }
        ensures may { OnFalse result (MayInitiate self.now) }
    {
        self.places == 0 || (!self.first && self.room == 0)
    }

    /// Initiates an operation, for which place and room are left.
    pub(crate) fn stage(&mut self, call: Initiating<H>)
        requires offered { IsOfferedCall call }
        requires may { MayInitiate self.old }
        ensures { self.new ≡ called call self.old }
    {
        self.places -= 1;
        self.room = room_after(self.first, self.room);
        self.first = false;
        self.staged.push_back_reserved(Staged::Called(call));
    }

    /// Whether there is room for one more call that has no handler.
    pub(crate) fn has_room(&self) -> bool
        ensures { result ≡ nat_lt 0 self.now.room }
    {
        self.room > 0
    }

    /// A strand is made under the name that is kept for it, with this state.
    pub(crate) fn make_strand(&mut self, name: Name, state: S)
        requires room { 0 < self.old.room }
        requires kept { self.old.spares.strand ≡ Some name }
        ensures { self.new ≡ made_strand name state self.old }
    {
        self.room -= 1;
        self.spares = without_spare(Kind::Strand, self.spares);
        self.staged
            .push_back_reserved(Staged::MadeStrand { name, state });
    }

    /// A call that has no handler, as far as there is room for it; answers whether there is.
    pub(crate) fn change(&mut self, change: Control) -> bool
        requires offered { is_offered_change change ≡ true }
        requires made { IsMadeOf change self.old.spares }
        ensures room { result ≡ nat_lt 0 self.old.room }
        ensures changed { self.new ≡ (if result then changed change self.old else self.old) }
    {
        if self.room == 0 {
            return false;
        }
        self.room -= 1;
        let call = Staged::Changed(change);
        self.spares = left_by(&call, self.spares);
        self.staged.push_back_reserved(call);
        true
    }

    /// Likewise of an expiry that counts from when the handler has returned.
    pub(crate) fn delay(&mut self, timer: Name, after: u64) -> bool
        ensures room { result ≡ nat_lt 0 self.old.room }
        ensures delayed { self.new ≡ (if result then delayed timer after self.old else self.old) }
    {
        if self.room < 1 {
            return false;
        }
        self.room -= 1;
        self.delays = true;
        self.staged
            .push_back_reserved(Staged::ExpiresAfter { timer, after });
        true
    }

    /// The names that nothing staged uses.
    pub(crate) fn spares(&self) -> Spares
        ensures { result ≡ self.now.spares }
    {
        self.spares
    }

    /// Whether a call that was staged counts from when the handler has returned.
    pub fn delays(&self) -> bool
        ensures { result ≡ self.now.delays }
    {
        self.delays
    }

    /// What is staged lies within the grant.
    pub fn learn(&self)
        ensures { operations_in self.now.staged + self.now.places ≤ self.now.granted }
    {
        let _granted = self.granted;
    }

    /// The oldest call that is staged, to take effect; `None` exactly where none is.
    pub fn next(&mut self) -> Option<Staged<H, S>>
        ensures first { IfSome result (λ call. self.old.staged ≡ call ∷ self.new.staged) }
        ensures offered { IfSome result IsOffered }
        ensures made { IfSome result (λ call. IsMade call self.old.kept) }
        ensures none { IfNone result (self.old.staged ≡ []) }
        ensures room { IfSome result (λ call. MayRetire self.new) }
        ensures rest { IfSome result (λ call. self.new
            ≡ record self.old { staged = self.new.staged; kept = left_by call self.old.kept }) }
        ensures same { IfNone result (self.new ≡ self.old) }
    {
        match self.staged.pop_front() {
            None => None,
            Some(call) => {
                self.kept = left_by(&call, self.kept);
                Some(call)
            }
        }
    }

    /// A call that was taken has freed a strand, which is forgotten: its state is to be retired.
    pub fn retire(&mut self, state: S)
        requires { MayRetire self.old }
        ensures { self.new ≡ retiring state self.old }
    {
        self.retired.push_back_reserved(state);
    }

    /// Whether states are to be retired.
    pub fn retires(&self) -> bool
        ensures { OnFalse result (self.now.retired ≡ []) }
    {
        !self.retired.is_empty()
    }

    /// The next state that is to be retired; `None` exactly where none is.
    pub fn next_retired(&mut self) -> Option<S>
        ensures first { IfSome result (λ state. self.old.retired ≡ state ∷ self.new.retired) }
        ensures rest { IfSome result (λ state. self.new ≡ record self.old { retired = self.new.retired }) }
        ensures none { IfNone result (self.old.retired ≡ []) }
        ensures same { IfNone result (self.new ≡ self.old) }
    {
        self.retired.pop_front()
    }

    /// Ends its use; what was staged has taken effect, and no state is to be retired.
    pub fn destroy(self)
        requires staged { self.staged ≡ [] }
        requires retired { self.retired ≡ [] }
    {
        let Staging {
            staged,
            granted: _,
            places: _,
            first: _,
            room: _,
            most: _,
            kept: _,
            spares: _,
            delays: _,
            retired,
        } = self;
        staged.destroy_empty();
        retired.destroy_empty();
    }
}
