ghost use Rattle.std.specs.Prelude.{◌≡◌, ◌<◌, ◌≤◌, ◌+◌, true, false, [], ◌∷◌, IsSome, None};
ghost use Rattle.io_rules.specs.History.{times};
ghost use Rattle.io_rules.specs.Legal.{IsLegal, MayHappen, state_of};
ghost use Rattle.io_history.specs.Rule.{EndsWith, IsHeld};
ghost use Rattle.io_history.specs.Seats.{IsFirstSeat, IsOther, is_end};
ghost use Rattle.io_history.specs.Steps.{IsFree, first_held, held_after};

use crate::claim::Claim;
use crate::named::{Happening, Named};
use crate::step::{Claims, Learns, Notes, TakesIn, Tells};
use crate::table::{HistorySeat, HistoryTable};
use crate::witness::Witness;
use std::marker::{Model, PhantomData};
use std::sync::ledger::{Book, Share};

/// Whoever has this knows the whole history of a context, and is the only one to note events. Contracts
/// see the history, newest event first, and the operation that it holds itself, if any. How many handlers
/// have returned is known by the shares of those who executed them too.
#[derive(Drop)]
pub struct Keeper<C: Named> {
    seat: HistorySeat,
    // how many handlers have returned
    ended: Book<C>,
    of: PhantomData<C>,
}

impl<C: Named> Model for Keeper<C> {
    ghost use Rattle.io_history.specs.Seats.{Chronicle, IsKeeper, kept_by};

    ghost Value = { Chronicle };

    ghost view = { λ k. kept_by k.seat.me };

    ghost invariant = { λ k. IsKeeper C.table C.limits k.ended.total k.seat.table_id k.seat.me };
}

impl<C: Named> Keeper<C> {
    /// The keeper of the history whose first seat this is, and of a ledger in which nothing is yet.
    pub fn of(seat: HistorySeat, ended: Book<C>) -> Keeper<C>
        requires first { IsFirstSeat C.limits C.table seat.table_id seat.me }
        requires none { ended.total ≡ 0 }
        ensures { result ≡ record { past = []; held = None } }
    {
        Keeper {
            seat,
            ended,
            of: PhantomData,
        }
    }

    /// Notes an event that may come, and isn't the return of a handler. One load, no memory.
    pub fn note<E: Happening>(&mut self, table: &HistoryTable)
        requires table { table.now ≡ C.table }
        requires may { MayHappen (state_of C.limits self.old.past) E.event }
        requires free { IsFree E.event self.old.held }
        requires other { is_end E.event ≡ false }
        ensures past { self.new.past ≡ E.event ∷ self.old.past }
        ensures held { self.new.held ≡
            held_after (state_of C.limits (E.event ∷ self.old.past)) E.event self.old.held }
    {
        table.events.shared.load::<Notes<E>>(&mut self.seat, 0);
    }

    /// Notes that a handler has returned, which counts in the share of whoever executed it. One load.
    pub fn note_end<E: Happening>(&mut self, table: &HistoryTable, by: &mut Share<C>)
        requires table { table.now ≡ C.table }
        requires may { MayHappen (state_of C.limits self.old.past) E.event }
        requires free { IsFree E.event self.old.held }
        requires end { is_end E.event ≡ true }
        requires part { 0 < by.old.parts }
        ensures past { self.new.past ≡ E.event ∷ self.old.past }
        ensures held { self.new.held ≡
            held_after (state_of C.limits (E.event ∷ self.old.past)) E.event self.old.held }
        ensures counted { by.new.amount ≡ by.old.amount + 1 }
        ensures parts { by.new.parts ≡ by.old.parts }
    {
        self.ended.add(by, 1);
        let shared = &table.events.shared;
        shared.load::<Notes<E>>(&mut self.seat, 0);
    }

    /// Those who have a share executed no more handlers than have returned, and if they have all of it just
    /// as many. Costs nothing.
    pub fn audit(&mut self, by: &mut Share<C>)
        ensures same { self.new ≡ self.old }
        ensures amount { by.new.amount ≡ by.old.amount }
        ensures parts { by.new.parts ≡ by.old.parts }
        ensures at_most { by.old.amount ≤ times is_end self.old.past }
        ensures all { by.old.parts ≡ C.parts → by.old.amount ≡ times is_end self.old.past }
    {
        self.ended.audit(by);
    }

    /// The history so far is legal, and what the keeper holds executes. One load.
    pub fn learn(&mut self, table: &HistoryTable)
        requires table { table.now ≡ C.table }
        ensures same { self.new ≡ self.old }
        ensures legal { IsLegal C.limits self.new.past }
        ensures held { IsHeld (state_of C.limits self.new.past) self.new.held }
    {
        table.events.shared.load::<Learns>(&mut self.seat, 0);
    }

    /// Gives out what it holds, for the time in which its handler executes. One load.
    pub fn give_out(&mut self, table: &HistoryTable) -> Claim<C>
        requires table { table.now ≡ C.table }
        requires some { IsSome self.old.held }
        ensures past { self.new.past ≡ self.old.past }
        ensures none { self.new.held ≡ None }
        ensures held { result.held ≡ self.old.held }
        ensures told { result.told ≡ self.old.past }
    {
        Claim {
            seat: table.events.shared.split_seat::<Claims>(&mut self.seat),
            of: PhantomData,
        }
    }

    /// Takes back what it gave out: it executes still, as when it was given out, and what was so far then is
    /// still so. Two loads.
    pub fn take_back(&mut self, table: &HistoryTable, claim: Claim<C>)
        requires table { table.now ≡ C.table }
        requires none { self.old.held ≡ None }
        ensures past { self.new.past ≡ self.old.past }
        ensures held { self.new.held ≡ claim.held }
        ensures runs { IsHeld (state_of C.limits self.new.past) claim.held }
        ensures told { EndsWith self.new.past claim.told }
    {
        let Claim { seat, of: _ } = claim;
        self.take_in(table, seat);
    }

    /// What is so far, for whoever wants to know it later. One load.
    pub fn tell(&mut self, table: &HistoryTable) -> Witness<C>
        requires table { table.now ≡ C.table }
        ensures same { self.new ≡ self.old }
        ensures told { result ≡ self.old.past }
    {
        Witness {
            seat: table.events.shared.split_seat::<Tells>(&mut self.seat),
            of: PhantomData,
        }
    }

    /// What a witness was told is the end of the history. Two loads.
    pub fn meet(&mut self, table: &HistoryTable, witness: Witness<C>)
        requires table { table.now ≡ C.table }
        ensures same { self.new ≡ self.old }
        ensures told { EndsWith self.new.past witness }
    {
        let Witness { seat, of: _ } = witness;
        self.take_in(table, seat);
    }

    /// Takes in what another seat was told and holds.
    fn take_in(&mut self, table: &HistoryTable, other: HistorySeat)
        requires table { table.now ≡ C.table }
        requires other { IsOther C.table other.table_id other.me }
        ensures past { self.new.past ≡ self.old.past }
        ensures held { self.new.held ≡ first_held self.old.held other.me.0.held }
        ensures runs { IsHeld (state_of C.limits self.new.past) self.new.held }
        ensures told { EndsWith self.new.past other.me.0.told }
    {
        let shared = &table.events.shared;
        shared.join_seat::<TakesIn>(&mut self.seat, other);
        shared.load::<Learns>(&mut self.seat, 0);
    }
}
