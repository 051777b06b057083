ghost use Rattle.std.specs.Prelude.{◌≡◌, ◌+◌, ℕ, IfOk, IfSome, IsSomeAnd, IsTrue, List, Some};
ghost use Rattle.run_lines.specs.declared.line.Line.{Line};
ghost use Rattle.run_orders.specs.Causes.{ends};
ghost use Rattle.run_orders.specs.Forced.{IsForced};
ghost use Rattle.run_forced.specs.Events.{IsHere};
ghost use Rattle.run_forced.specs.Known.{IsBefore, Knows};
ghost use Rattle.run_forced.specs.Sources.{AreSources};
ghost use Rattle.run_orders.specs.Trees.{Spot, spot_at};
ghost use Rattle.std.specs.List.{Contains};
ghost use Rattle.run_forced.specs.Turns.{HasEnded, HaveEnded, TakesTurn};
ghost use Rattle.run_forced.specs.declared.turns.Ended.{Ended};

use crate::clock::Clock;
use crate::event::Event;
use crate::known::Known;
use crate::sources::{Sources, begun, taken_up};
use crate::turns::{Ended, Turns};
use run_lines::Doing;
use run_rules::Frame;
use std::alloc::{AllocError, Global};
use std::collections::HashMap;

/// A run up to a line: what comes before its lines, as far as something may still ask.
#[derive(Drop)]
pub(crate) struct Past {
    known: Known,
    sources: Sources,
    turns: Turns,
    /// How many may still ask what comes before a line.
    uses: HashMap<u64, u64>,
}

/// The execution that a line ends.
fn ended_by(does: &Doing) -> Option<u64>
    ensures { result ≡ ends does.now }
{
    match *does {
        Doing::End { op } | Doing::Throw { op } => Some(op),
        _ => None,
    }
}

/// Whether something may ask what comes before a line: nothing asks of the end of an execution without
/// a strand.
fn is_asked(event: &Event) -> bool {
    event.strand.is_some() || ended_by(&event.note.line.does).is_none()
}

impl Past {
    ghost use Rattle.run_forced.specs.Past.{HasFollowed, StandsBefore};

    pub(crate) fn new(alloc: Global) -> Past
        ensures { (run : List Line) → HasFollowed run 0 result }
    {
        Past {
            known: Known::new(alloc),
            sources: Sources::new(alloc),
            turns: Turns::new(alloc),
            uses: HashMap::new(alloc),
        }
    }

    /// Whether a line comes before the one with this clock.
    pub(crate) fn knows(&self, clock: &Clock, place: u64) -> bool
        ensures { (run : List Line) (lines later : ℕ) → HasFollowed run lines self.now → IsBefore run self.now.known later clock.now →
            IsTrue result → IsForced run place later }
    {
        self.known.knows(clock, place)
    }

    /// Adds what comes before the line before in the same frame, or before the begin of that.
    fn add_own(&self, alloc: Global, clock: &mut Clock, event: &Event) -> Result<(), AllocError>
        ensures { IfOk result (λ _. (run : List Line) (place : ℕ) → HasFollowed run place self.now → IsHere run place event.now →
            IsBefore run self.now.known place clock.old → IsBefore run self.now.known place clock.new) }
    {
        let None = begun(&event.note.line.does) else {
            return Ok(());
        };
        let Some(last) = self.sources.last(event.note.frame) else {
            return Ok(());
        };
        self.known.add(alloc, clock, last.place)?;
        Ok(())
    }

    /// Adds what comes before the call of an operation that a line completes, begins or drops.
    fn add_call(&self, alloc: Global, clock: &mut Clock, event: &Event) -> Result<(), AllocError>
        ensures { IfOk result (λ _. (run : List Line) (place : ℕ) → HasFollowed run place self.now → IsHere run place event.now →
            IsBefore run self.now.known place clock.old → IsBefore run self.now.known place clock.new) }
    {
        let Some(op) = taken_up(&event.note.line.does) else {
            return Ok(());
        };
        let Some(called) = self.sources.call(op) else {
            return Ok(());
        };
        self.known.add(alloc, clock, called.place)?;
        Ok(())
    }

    /// Adds what comes before the completion of an operation that a line begins.
    fn add_done(&self, alloc: Global, clock: &mut Clock, event: &Event) -> Result<(), AllocError>
        ensures { IfOk result (λ _. (run : List Line) (place : ℕ) → HasFollowed run place self.now → IsHere run place event.now →
            IsBefore run self.now.known place clock.old → IsBefore run self.now.known place clock.new) }
    {
        let Some(op) = begun(&event.note.line.does) else {
            return Ok(());
        };
        let Some(place) = self.sources.done(op) else {
            return Ok(());
        };
        self.known.add(alloc, clock, place)?;
        Ok(())
    }

    /// Adds what comes before the marks for which a line waits.
    fn add_marks(&self, alloc: Global, clock: &mut Clock, event: &Event) -> Result<(), AllocError>
        ensures { IfOk result (λ _. (run : List Line) (place : ℕ) → HasFollowed run place self.now → IsHere run place event.now →
            IsBefore run self.now.known place clock.old → IsBefore run self.now.known place clock.new) }
    {
        match event.note.line.does {
            Doing::After { mark } => {
                self.known.add_mark(alloc, clock, mark)?;
                Ok(())
            }
            _ => Ok(()),
        }
    }

    /// Whether an execution has begun before the line with this clock, in each order.
    fn has_begun(&self, clock: &Clock, ended: &Ended) -> bool
        ensures { (run : List Line) (lines later : ℕ) → HasFollowed run lines self.now → IsBefore run self.now.known later clock.now →
            IsTrue result → IsSomeAnd ended.now.begin (λ place. IsForced run place later) }
    {
        match ended.begin {
            Some(place) => self.known.knows(clock, place),
            None => false,
        }
    }

    /// Whether an execution stands in the queue where this operation is posted, in each order, or comes to
    /// stand there.
    fn is_queued(&self, op: u64, ended: &Ended) -> bool
        ensures { (run : List Line) (lines : ℕ) → HasFollowed run lines self.now → IsTrue result → StandsBefore run self.now op ended.now }
    {
        match (self.sources.call(op), ended.behind) {
            (Some(called), Some(behind)) => {
                called.posting && self.known.knows_at(called.place, behind)
            }
            _ => false,
        }
    }

    /// Adds what comes before the end of an execution of the strand on which a line begins another one,
    /// if it ends before that in each order.
    fn add_turn(
        &self,
        alloc: Global,
        clock: &mut Clock,
        op: u64,
        ended: &Ended,
    ) -> Result<(), AllocError>
        ensures { IfOk result (λ _. (run : List Line) (place strand : ℕ) (spot : Spot) → HasFollowed run place self.now →
            spot_at run place ≡ Some spot → TakesTurn spot op strand → HasEnded run strand ended.now →
            IsBefore run self.now.known place clock.old → IsBefore run self.now.known place clock.new) }
    {
        if self.known.knows(clock, ended.place) {
            return Ok(());
        }
        if self.has_begun(clock, ended) {
            self.known.add(alloc, clock, ended.place)?;
            return Ok(());
        }
        if self.is_queued(op, ended) {
            self.known.add(alloc, clock, ended.place)?;
        }
        Ok(())
    }

    /// Adds what comes before the ends of these executions of a strand, the latest first.
    fn add_ended(
        &self,
        alloc: Global,
        clock: &mut Clock,
        op: u64,
        all: &[Ended],
    ) -> Result<(), AllocError>
        ensures { IfOk result (λ _. (run : List Line) (place strand : ℕ) (spot : Spot) → HasFollowed run place self.now →
            spot_at run place ≡ Some spot → TakesTurn spot op strand → ((ended : Ended) → Contains all.now ended → HasEnded run strand ended) →
            IsBefore run self.now.known place clock.old → IsBefore run self.now.known place clock.new) }
    {
        let mut left = all.len();
        while left > 0 {
            left -= 1;
            self.add_turn(alloc, clock, op, &all[left])?;
        }
        Ok(())
    }

    /// Adds what comes before the ends of executions whose turn on a strand comes before the one that a
    /// line begins.
    fn add_turns(&self, alloc: Global, clock: &mut Clock, event: &Event) -> Result<(), AllocError>
        ensures { IfOk result (λ _. (run : List Line) (place : ℕ) → HasFollowed run place self.now → IsHere run place event.now →
            IsBefore run self.now.known place clock.old → IsBefore run self.now.known place clock.new) }
    {
        match (event.note.line.does, event.strand) {
            (Doing::Begin { op, .. }, Some(strand)) => {
                self.add_ended(alloc, clock, op, self.turns.of(strand))?;
                Ok(())
            }
            _ => Ok(()),
        }
    }

    /// What comes before the next line in each order.
    pub(crate) fn clock_of(&self, alloc: Global, event: &Event) -> Result<Clock, AllocError>
        ensures { IfOk result (λ clock. (run : List Line) (place : ℕ) → HasFollowed run place self.now → IsHere run place event.now →
            IsBefore run self.now.known place clock) }
    {
        let mut clock = Clock::new(alloc);
        self.add_own(alloc, &mut clock, event)?;
        self.add_call(alloc, &mut clock, event)?;
        self.add_done(alloc, &mut clock, event)?;
        self.add_marks(alloc, &mut clock, event)?;
        self.add_turns(alloc, &mut clock, event)?;
        Ok(clock)
    }

    /// The chain of the line before in the same frame.
    fn own_chain(&self, event: &Event) -> Option<u64> {
        match event.note.line.does {
            Doing::Begin { .. } => None,
            _ => match self.sources.last(event.note.frame) {
                Some(last) => self.known.chain(last.place),
                None => None,
            },
        }
    }

    /// Keeps what comes before the next line.
    fn keep(
        &mut self,
        alloc: Global,
        event: &Event,
        place: u64,
        clock: Clock,
    ) -> Result<(), AllocError>
        ensures sources { self.new.sources ≡ self.old.sources }
        ensures turns { self.new.turns ≡ self.old.turns }
        ensures known { IfOk result (λ _. (run : List Line) → Knows run place self.old.known → IsBefore run self.old.known place clock →
            Knows run (place + 1) self.new.known) }
    {
        let own = self.own_chain(event);
        self.known.keep(alloc, place, clock, own, is_asked(event))?;
        Ok(())
    }

    /// Keeps a mark that the next line passes.
    fn pass(&mut self, alloc: Global, event: &Event, place: u64) -> Result<(), AllocError>
        ensures sources { self.new.sources ≡ self.old.sources }
        ensures turns { self.new.turns ≡ self.old.turns }
        ensures known { IfOk result (λ _. (run : List Line) → IsHere run place event.now → Knows run (place + 1) self.old.known →
            Knows run (place + 1) self.new.known) }
    {
        let Doing::Mark { mark } = event.note.line.does else {
            return Ok(());
        };
        self.known.mark(alloc, place, mark)?;
        Ok(())
    }

    /// Keeps an execution of a strand that the next line ends, and gives back one that is too many.
    fn end_turn(
        &mut self,
        alloc: Global,
        event: &Event,
        place: u64,
    ) -> Result<Option<Ended>, AllocError>
        ensures known { self.new.known ≡ self.old.known }
        ensures sources { self.new.sources ≡ self.old.sources }
        ensures turns { IfOk result (λ _. (run : List Line) (lines : ℕ) → IsHere run place event.now → AreSources run lines self.old.sources →
            HaveEnded run self.old.turns → HaveEnded run self.new.turns) }
    {
        let Some(op) = ended_by(&event.note.line.does) else {
            return Ok(None);
        };
        let Some(strand) = event.strand else {
            return Ok(None);
        };
        if event.note.frame != (Frame::Execution { op }) {
            return Ok(None);
        }
        let ended = Ended {
            op,
            place,
            begin: self.sources.begin(op),
            behind: self.sources.behind(op),
        };
        let gone = self.turns.put(alloc, strand, ended)?;
        Ok(gone)
    }

    /// Keeps the next line, before which stands what this clock says. It gives back the end of an execution
    /// that is too many.
    fn step(
        &mut self,
        alloc: Global,
        event: &Event,
        place: u64,
        clock: Clock,
    ) -> Result<Option<Ended>, AllocError>
        ensures { IfOk result (λ _. (run : List Line) → IsHere run place event.now → HasFollowed run place self.old →
            IsBefore run self.old.known place clock → HasFollowed run (place + 1) self.new) }
    {
        self.keep(alloc, event, place, clock)?;
        self.pass(alloc, event, place)?;
        let gone = self.end_turn(alloc, event, place)?;
        self.sources.follow(event, place)?;
        Ok(gone)
    }

    /// One fewer may ask what comes before a line.
    fn let_go(&mut self, place: Option<u64>) -> Result<(), AllocError>
        ensures { IfOk result (λ _. (run : List Line) (lines : ℕ) → HasFollowed run lines self.old → HasFollowed run lines self.new) }
    {
        let Some(place) = place else {
            return Ok(());
        };
        match self.uses.get(&place).copied() {
            Some(uses) if uses > 1 => {
                self.uses.insert(place, uses - 1)?;
                Ok(())
            }
            _ => {
                self.uses.remove(&place);
                self.known.forget(place);
                Ok(())
            }
        }
    }

    /// Forgets an operation that begins or is dropped.
    fn forget_operation(&mut self, event: &Event) -> Result<(), AllocError>
        ensures { IfOk result (λ _. (run : List Line) (lines : ℕ) → HasFollowed run lines self.old → HasFollowed run lines self.new) }
    {
        let (Doing::Begin { op, .. } | Doing::Drop { op }) = event.note.line.does else {
            return Ok(());
        };
        let called = self.sources.call(op).map(|called| called.place);
        let done = self.sources.done(op);
        self.let_go(called)?;
        self.let_go(done)?;
        self.sources.forget_call(op);
        Ok(())
    }

    /// Forgets an execution that ends by the line at this place, behind that one.
    fn forget_execution(
        &mut self,
        event: &Event,
        place: u64,
        before: Option<u64>,
    ) -> Result<(), AllocError>
        ensures { IfOk result (λ _. (run : List Line) (lines : ℕ) → HasFollowed run lines self.old → HasFollowed run lines self.new) }
    {
        let Some(op) = ended_by(&event.note.line.does) else {
            return Ok(());
        };
        self.known.leave(place)?;
        self.known.leave(before.unwrap_or(place))?;
        self.sources.forget_execution(op);
        Ok(())
    }

    /// The line before in the same frame.
    fn before(&self, event: &Event) -> Option<u64> {
        match (
            begun(&event.note.line.does),
            self.sources.last(event.note.frame),
        ) {
            (None, Some(last)) => Some(last.place),
            _ => None,
        }
    }

    /// Keeps how many may ask what comes before the next line: the line behind it in its frame, or what
    /// takes a later turn; and what begins the operation that it calls or completes.
    fn hold(&mut self, event: &Event, place: u64) -> Result<(), AllocError>
        ensures { IfOk result (λ _. (run : List Line) (lines : ℕ) → HasFollowed run lines self.old → HasFollowed run lines self.new) }
    {
        let uses = match event.note.line.does {
            Doing::Call { .. } | Doing::Done { .. } => 2,
            _ => 1,
        };
        self.uses.insert(place, uses)?;
        Ok(())
    }

    /// Follows the next line, before which stands what this clock says.
    pub(crate) fn follow(
        &mut self,
        alloc: Global,
        event: &Event,
        place: u64,
        clock: Clock,
    ) -> Result<(), AllocError>
        ensures { IfOk result (λ _. (run : List Line) → IsHere run place event.now → HasFollowed run place self.old →
            IsBefore run self.old.known place clock → HasFollowed run (place + 1) self.new) }
    {
        let before = self.before(event);
        let gone = self.step(alloc, event, place, clock)?;
        self.hold(event, place)?;
        self.let_go(before)?;
        self.let_go(gone.map(|ended| ended.place))?;
        self.forget_operation(event)?;
        self.forget_execution(event, place, before)?;
        Ok(())
    }
}
