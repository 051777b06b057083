ghost use Rattle.std.specs.Prelude.{◌≡◌, ◌<◌, ◌+◌, length, if◌then◌else◌, None, Some};
ghost use Rattle.std.specs.Option.{is_some};
ghost use Rattle.io_rules.specs.declared.event.Event.TheVariants as event;
ghost use Rattle.io_rules.specs.Legal.{IsStep};
ghost use Rattle.io_rules.specs.Strands.{is_last_on};
ghost use Rattle.io_handlers.specs.Initiated.{with_none};
ghost use Rattle.io_scheduler.specs.Begun.{is_strand};
ghost use Rattle.io_scheduler.specs.Ended.{mark_of};
ghost use Rattle.io_scheduler.specs.Staged.{IsEnded, reading_or, retired_by, staged_behind};

use crate::leaving::{forget_if, is_last, leave};
use crate::noting::note_ended;
use crate::running::{Running, places_of};
use crate::scheduler::Scheduler;
use io_handlers::{Handler, Staging};
use io_history::{HistoryTable, Named};
use std::marker::Brand;
use std::sync::ledger::Share;

impl<H: Handler, C: Named> Scheduler<H, C> {
    /// A handler has returned this mark, and the clock was read, unless it can't be. What it staged takes
    /// effect in the order of its calls, and then it has ended, which counts in the share of whoever executed
    /// it. Answers the state of its strand, to be retired, where that is gone and this was its last operation;
    /// the states of other strands that what it staged has freed and that are forgotten are to be retired, too.
    pub fn end(
        &mut self,
        table: &HistoryTable,
        running: Running<C>,
        state: Option<H::State>,
        mark: u64,
        io: &mut Staging<H, H::State>,
        by: &mut Share<C>,
        now: Option<u64>,
    ) -> Option<H::State>
        requires table { table.now ≡ C.table }
        requires mark { mark_of running.held ≡ Some mark }
        requires state { is_some state ≡ is_strand running.lane }
        requires granted { io.old.granted ≡ running.places }
        requires kept { io.old.kept ≡ running.spares }
        requires part { 0 < by.old.parts }
        ensures counted { by.new.amount ≡ by.old.amount + 1 }
        ensures parts { by.new.parts ≡ by.old.parts }
        ensures ended { IsEnded H.marks running.op (reading_or now self.old) io.old.staged mark self.old self.new }
        ensures taken { io.new ≡ with_none io.new.retired io.old }
        ensures freed { length io.new.retired ≡ length io.old.retired
            + retired_by H.marks running.op (reading_or now self.old) io.old.staged self.old }
        ensures retired { result
            ≡ (if is_last_on (staged_behind H.marks running.op (reading_or now self.old) io.old.staged self.old) running.lane
            then state else None) }
    {
        let now = self.reading_or(now);
        let left = self.commit_all(table, running, io, now);
        self.end_now(table, left, state, mark, by)
    }

    /// What the clock shows; where it can't be read, what it showed last.
    fn reading_or(&self, now: Option<u64>) -> u64
        ensures { result ≡ reading_or now self.now }
    {
        match now {
            Some(now) => now,
            None => self.counts.clock,
        }
    }

    /// A handler has returned this mark, and what it initiated is noted; answers the state of its strand
    /// where that is forgotten.
    pub(crate) fn end_now(
        &mut self,
        table: &HistoryTable,
        running: Running<C>,
        state: Option<H::State>,
        mark: u64,
        by: &mut Share<C>,
    ) -> Option<H::State>
        requires table { table.now ≡ C.table }
        requires mark { mark_of running.held ≡ Some mark }
        requires state { is_some state ≡ is_strand running.lane }
        requires part { 0 < by.old.parts }
        ensures counted { by.new.amount ≡ by.old.amount + 1 }
        ensures parts { by.new.parts ≡ by.old.parts }
        ensures ended { IsStep self.old (event.Ended running.op mark) self.new }
        ensures retired { result ≡ (if is_last_on self.old running.lane then state else None) }
    {
        let Running {
            claim,
            op,
            lane,
            own,
            grant,
            spares,
        } = running;
        self.keeper.take_back(table, claim);
        self.keeper.learn(table);
        note_ended::<C, Brand>(table, &mut self.keeper, by, op, mark);
        let last = is_last(&self.names.strands, &self.strands, lane);
        self.names.give_back_all(&spares);
        let places = places_of(own, grant);
        let _most = self.counts.limits.operations;
        self.counts.promised = self.counts.promised.saturating_sub(places);
        self.counts.room = (u64::from(self.counts.room) + places) as u32;
        self.tally.end();
        leave(&mut self.strands, &mut self.jobs, lane, state);
        forget_if(last, &mut self.names.strands, &mut self.strands, lane)
    }
}
