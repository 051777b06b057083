ghost use Rattle.std.specs.Prelude.{◌≡◌, ◌≤◌, ◌<◌, ◌^◌, ◌+◌, length, List, [], ◌∷◌, ◌++◌, IfNone, IfOk, IfSome, OnOk};
ghost use Rattle.history_rules.specs.Legal.{state_of};
ghost use Rattle.asio_types.specs.declared.event.Event.{Event};
ghost use Rattle.session_orders.specs.Place.{place_of, places_of};
ghost use Rattle.session_orders.specs.Walk.{AreNowPassed, AreNowSeen, ArePassed, AreSeen, HasCome, NoneBetween};

use crate::place::{event_next, place, place_count};
use crate::walk::{Walk, replay_of};
use asio_types::{Event, NoMemory};

/// Where a walk has gone to.
#[derive(Clone, Copy, Debug, PartialEq, Eq)]
pub enum Move {
    /// To a beginning that is no whole history.
    Entered,
    /// To a whole history.
    Whole,
    /// To its end: every beginning was looked at.
    Over,
}

impl<'a> Walk<'a> {
    /// The event at this place, where it may come: then the replay has taken it.
    fn take_next(&mut self) -> Option<Event>
        requires come { HasCome self.old.script.now self.old.kind self.old.replay
            self.old.path.items }
        requires within { self.old.place < places_of self.old.script.now self.old.kind }
        requires small { self.old.place < 2 ^ 36 }
        ensures taken { IfSome result (λ event. HasCome self.old.script.now self.old.kind
            self.new.replay (self.old.path.items ++ event ∷ [])) }
        ensures at { IfSome result (λ event.
            place_of self.old.script.now self.old.kind event ≡ self.old.place) }
        ensures none { IfNone result (NoneBetween self.old.script.now self.old.kind
            (state_of self.old.script.now self.old.kind.told self.old.path.items)
            self.old.place (self.old.place + 1)) }
        ensures same { IfNone result (HasCome self.old.script.now self.old.kind self.new.replay
            self.old.path.items) }
        ensures others { self.new ≡ record self.old { replay = self.new.replay } }
    {
        let event = event_next(&self.replay, self.kind, self.place)?;
        if self.replay.step(event) {
            Some(event)
        } else {
            None
        }
    }

    /// The next event that may come behind this beginning, from the place on that is next: then the
    /// replay has taken it, and its place is the one that is next.
    pub(crate) fn find_next(&mut self) -> Option<Event>
        requires come { HasCome self.old.script.now self.old.kind self.old.replay
            self.old.path.items }
        ensures taken { IfSome result (λ event. HasCome self.old.script.now self.old.kind
            self.new.replay (self.old.path.items ++ event ∷ [])) }
        ensures at { IfSome result (λ event.
            place_of self.old.script.now self.old.kind event ≡ self.new.place) }
        ensures small { IfSome result (λ event. self.new.place < 2 ^ 36) }
        ensures onward { self.old.place ≤ self.new.place }
        ensures none { NoneBetween self.old.script.now self.old.kind
            (state_of self.old.script.now self.old.kind.told self.old.path.items)
            self.old.place self.new.place }
        ensures past { IfNone result
            (places_of self.old.script.now self.old.kind ≤ self.new.place) }
        ensures same { IfNone result (HasCome self.old.script.now self.old.kind self.new.replay
            self.old.path.items) }
        ensures others { self.new
            ≡ record self.old { replay = self.new.replay; place = self.new.place } }
    {
        let places = place_count(self.script, self.kind);
        'places: for tried in self.place..places {
            self.place = self.place_ahead(places);
            if self.place >= places {
                return None;
            }
            let found = self.take_next();
            if found.is_some() {
                return found;
            }
            self.place += 1;
        }
        None
    }

    /// The walk goes on by this event, to which the replay has come already.
    fn enter(&mut self, event: Event) -> Result<Move, NoMemory>
        requires come { HasCome self.old.script.now self.old.kind self.old.replay
            (self.old.path.items ++ event ∷ []) }
        requires at { place_of self.old.script.now self.old.kind event ≡ self.old.place }
        ensures come { OnOk result
            (HasCome self.new.script.now self.new.kind self.new.replay self.new.path.items) }
        ensures script { self.new.script ≡ self.old.script }
        ensures kind { self.new.kind ≡ self.old.kind }
        ensures passed { IfOk result (λ move. (listed : List (List Event)) →
            ArePassed self.old.script.now self.old.kind self.old.path.items self.old.place listed →
            AreNowPassed self.new.script.now self.new.kind move self.new.path.items self.new.place
            listed) }
        ensures seen { IfOk result (λ move. (seen : List (List Event)) →
            AreSeen self.old.script.now self.old.kind self.old.path.items self.old.place seen →
            AreNowSeen self.new.script.now self.new.kind move self.new.path.items self.new.place
            seen) }
        ensures longer { OnOk result (length self.new.path.items ≤ length self.old.path.items + 1) }
    {
        self.path.push(event)?;
        self.place = 0;
        if self.replay.whole() {
            Ok(Move::Whole)
        } else {
            Ok(Move::Entered)
        }
    }

    /// The walk goes back by one event.
    fn leave(&mut self) -> Result<(), NoMemory>
        requires come { HasCome self.old.script.now self.old.kind self.old.replay
            self.old.path.items }
        requires past { places_of self.old.script.now self.old.kind ≤ self.old.place }
        requires some { 1 ≤ length self.old.path.items }
        ensures come { OnOk result
            (HasCome self.old.script.now self.old.kind self.new.replay self.new.path.items) }
        ensures script { self.new.script ≡ self.old.script }
        ensures kind { self.new.kind ≡ self.old.kind }
        ensures passed { OnOk result ((listed : List (List Event)) →
            ArePassed self.old.script.now self.old.kind self.old.path.items self.old.place listed →
            ArePassed self.old.script.now self.old.kind self.new.path.items self.new.place listed) }
        ensures seen { OnOk result ((seen : List (List Event)) →
            AreSeen self.old.script.now self.old.kind self.old.path.items self.old.place seen →
            AreSeen self.old.script.now self.old.kind self.new.path.items self.new.place seen) }
        ensures shorter { OnOk result
            (length self.new.path.items + 1 ≡ length self.old.path.items) }
    {
        let Some(event) = self.path.pop() else {
            unreachable!()
        };
        self.place = place(self.script, self.kind, event) + 1;
        self.replay = replay_of(
            self.alloc,
            self.script,
            self.kind.told,
            self.path.as_slice(),
        )?;
        Ok(())
    }

    /// The next event where the beginning is empty, or that every beginning was looked at.
    fn enter_first(&mut self) -> Result<Move, NoMemory>
        requires come { HasCome self.old.script.now self.old.kind self.old.replay
            self.old.path.items }
        requires none { length self.old.path.items ≡ 0 }
        ensures come { OnOk result
            (HasCome self.new.script.now self.new.kind self.new.replay self.new.path.items) }
        ensures script { self.new.script ≡ self.old.script }
        ensures kind { self.new.kind ≡ self.old.kind }
        ensures passed { IfOk result (λ move. (listed : List (List Event)) →
            ArePassed self.old.script.now self.old.kind self.old.path.items self.old.place listed →
            AreNowPassed self.new.script.now self.new.kind move self.new.path.items self.new.place
            listed) }
        ensures seen { IfOk result (λ move. (seen : List (List Event)) →
            AreSeen self.old.script.now self.old.kind self.old.path.items self.old.place seen →
            AreNowSeen self.new.script.now self.new.kind move self.new.path.items self.new.place
            seen) }
        ensures longer { OnOk result (length self.new.path.items ≤ length self.old.path.items + 1) }
    {
        match self.find_next() {
            Some(event) => self.enter(event),
            None => Ok(Move::Over),
        }
    }

    /// Goes to the next beginning.
    pub(crate) fn advance(&mut self) -> Result<Move, NoMemory>
        requires { HasCome self.old.script.now self.old.kind self.old.replay
            self.old.path.items }
        ensures come { OnOk result
            (HasCome self.new.script.now self.new.kind self.new.replay self.new.path.items) }
        ensures script { OnOk result (self.new.script ≡ self.old.script) }
        ensures kind { OnOk result (self.new.kind ≡ self.old.kind) }
        ensures passed { IfOk result (λ move. (listed : List (List Event)) →
            ArePassed self.old.script.now self.old.kind self.old.path.items self.old.place listed →
            AreNowPassed self.new.script.now self.new.kind move self.new.path.items self.new.place
            listed) }
        ensures seen { IfOk result (λ move. (seen : List (List Event)) →
            AreSeen self.old.script.now self.old.kind self.old.path.items self.old.place seen →
            AreNowSeen self.new.script.now self.new.kind move self.new.path.items self.new.place
            seen) }
        ensures longer { OnOk result (length self.new.path.items ≤ length self.old.path.items + 1) }
    {
        'back: for step in 0..self.path.len() {
            match self.find_next() {
                Some(event) => return self.enter(event),
                None => self.leave()?,
            }
        }
        self.enter_first()
    }
}
