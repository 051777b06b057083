ghost use Rattle.std.specs.Prelude.{◌≡◌, ◌↔◌, ℕ, [], ◌∷◌, IfOk, IsTrue, List, Option, Some, None, is_some, nat_eq};
ghost use Rattle.std.specs.HashMap.{get};
ghost use Rattle.run_lines.specs.declared.line.Line.{Line};
ghost use Rattle.std.specs.Option.{option_map};
ghost use Rattle.run_lines.specs.declared.code.Code.{Code};
ghost use Rattle.run_lines.specs.declared.line.Doing.{Doing};
ghost use Rattle.run_rules.specs.MayCome.{MayDo};
ghost use Rattle.run_rules.specs.Calls.{Waits};
ghost use Rattle.run_rules.specs.Strict.{IsAllowed, IsNext, dropped_after, dropped_last, ready_on, stopped_after, stopped_since};
ghost use Rattle.run_rules.specs.Stacks.{first_of, stack};
ghost use Rattle.run_check.specs.After.{IsAfter, loose, waiter_of};
ghost use Rattle.run_check.specs.Strict.{ChangesReady, IsStrictAfter, JudgesStrictly, begin_judged, changed_on, is_next_by};
ghost use Rattle.run_check.specs.Ready.{lined_at};

use crate::checker::Checker;
use crate::judging::{asked, is_above, is_number};
use crate::ready::{ReadyChange, ReadyLines, change_called};
use crate::refusal::NoRoom;
use crate::tables::put;
use crate::waiting::Waiter;
use run_lines::{Doing, Line, Word};
use run_rules::Rule;
use std::alloc::{AllocError, Global};
use std::collections::HashMap;

/// What is known of a run that is asked for the strict rules, beside what a checker keeps of it.
#[derive(Drop)]
pub struct Strict {
    ready: ReadyLines,
    /// The contexts that are stopped, and since which place.
    stopped: HashMap<u64, u64>,
    /// The operation that was dropped last.
    dropped: Option<u64>,
}

/// The first rule of a begin of which the test fails.
fn judge_begin(ready: bool, next: bool, allowed: bool, alone: bool, going: bool) -> Result<(), Rule>
    ensures { result ≡ begin_judged ready next allowed alone going }
{
    if !ready {
        Err(Rule::Ready)
    } else if !next {
        Err(Rule::Order)
    } else if !allowed {
        Err(Rule::Stopped)
    } else if !alone {
        Err(Rule::Nested)
    } else if !going {
        Err(Rule::Finishing)
    } else {
        Ok(())
    }
}

/// The operation that was dropped last, behind this line.
fn dropped_after(last: Option<u64>, does: &Doing) -> Option<u64>
    ensures { result ≡ dropped_after does.now last }
{
    match *does {
        Doing::Drop { op } => Some(op),
        _ => last,
    }
}

/// This change on a strand, if there are both.
fn on_strand(strand: Option<u64>, change: ReadyChange) -> Option<(u64, ReadyChange)>
    ensures { result ≡ (option_map (λ s. (s, change)) strand) }
{
    match strand {
        Some(strand) => Some((strand, change)),
        None => None,
    }
}

/// What a call on a strand, or on none, changes of what is ready.
fn ready_called(
    checker: &Checker,
    thread: u64,
    word: Word,
    op: u64,
    strand: Option<u64>,
) -> Option<(u64, ReadyChange)>
    ensures { (past : List Line) (context : ℕ) (thing : Option ℕ) → IsAfter past checker.now →
        ChangesReady past thread (Doing.Call op word context strand thing) result }
{
    match strand {
        Some(strand) => {
            match change_called(checker.holds(thread, strand), word, op) {
                Some(change) => Some((strand, change)),
                None => None,
            }
        }
        None => None,
    }
}

/// What a line changes of what is ready.
fn ready_change(checker: &Checker, thread: u64, does: &Doing) -> Option<(u64, ReadyChange)>
    ensures { (past : List Line) → IsAfter past checker.now → MayDo loose past thread does.now →
        ChangesReady past thread does.now result }
{
    match *does {
        Doing::Call {
            op,
            word,
            strand,
            ..
        } => ready_called(checker, thread, word, op, strand),
        Doing::Done { op, .. } => on_strand(checker.strand(op), ReadyChange::Last { op }),
        Doing::Begin { op, .. } => on_strand(checker.strand(op), ReadyChange::Gone),
        _ => None,
    }
}

impl Strict {
    /// Of a run of which nothing was followed.
    pub fn new(alloc: Global) -> Self
        ensures { IsStrictAfter [] result }
    {
        Strict {
            ready: ReadyLines::new(alloc),
            stopped: HashMap::new(alloc),
            dropped: None,
        }
    }

    /// The operation that is the next one of a strand.
    pub fn next(&self, strand: u64) -> Option<u64>
        ensures { (past : List Line) → IsStrictAfter past self.now → result ≡ first_of (ready_on past strand).queue }
    {
        self.ready.next(strand)
    }

    /// The place of the line by which a context was stopped last, if it is stopped.
    pub fn stopped_since(&self, context: u64) -> Option<u64>
        ensures { (past : List Line) → IsStrictAfter past self.now → result ≡ stopped_since past context }
    {
        self.stopped.get(&context).copied()
    }

    /// The operation that was dropped last.
    pub fn dropped(&self) -> Option<u64>
        ensures { (past : List Line) → IsStrictAfter past self.now → result ≡ dropped_last past }
    {
        self.dropped
    }

    /// Whether an operation is the next one of its strand, if it has one.
    fn is_next(&self, strand: Option<u64>, op: u64) -> bool
        ensures { result ≡ is_next_by (option_map (λ s. first_of (lined_at self.now.ready s).queue) strand) op }
    {
        match strand {
            Some(strand) => is_number(self.ready.next(strand), op),
            None => true,
        }
    }

    /// Whether an operation that waits, and that may begin otherwise, may begin on this thread.
    fn may_start(
        &self,
        checker: &Checker,
        thread: u64,
        op: u64,
        waiter: &Waiter,
    ) -> Result<(), Rule>
        ensures { (past : List Line) (code : Code) (size : ℕ) → IsAfter past checker.now → IsStrictAfter past self.now →
            waiter_of past op ≡ Some waiter.now → JudgesStrictly past thread (Doing.Begin op code size) result }
    {
        let ready = waiter.entry.is_some();
        let next = self.is_next(waiter.strand, op);
        let allowed = self.stopped_since(waiter.context).is_none();
        let alone = checker.innermost(thread).is_none();
        judge_begin(ready, next, allowed, alone, self.dropped.is_none())
    }

    fn may_begin(&self, checker: &Checker, thread: u64, op: u64) -> Result<(), Rule>
        ensures { (past : List Line) (code : Code) (size : ℕ) → IsAfter past checker.now → IsStrictAfter past self.now →
            Waits past op → JudgesStrictly past thread (Doing.Begin op code size) result }
    {
        match checker.waiter(op) {
            Some(waiter) => self.may_start(checker, thread, op, &waiter),
            None => Ok(()),
        }
    }

    fn may_drop(&self, checker: &Checker, op: u64) -> Result<(), Rule>
        ensures { (past : List Line) (thread : ℕ) → IsAfter past checker.now → IsStrictAfter past self.now →
            JudgesStrictly past thread (Doing.Drop op) result }
    {
        if checker.executing() == 0 {
            asked(is_above(self.dropped, op), Rule::Finishing)
        } else {
            Err(Rule::Finishing)
        }
    }

    /// Whether this line, which may come otherwise, may come as far as the strict rules have a say. The
    /// checker has followed the same lines.
    pub fn may_come(&self, checker: &Checker, line: &Line) -> Result<(), Rule>
        ensures { (past : List Line) → IsAfter past checker.now → IsStrictAfter past self.now →
            MayDo loose past line.now.thread line.now.does → JudgesStrictly past line.now.thread line.now.does result }
    {
        match line.does {
            Doing::Begin { op, .. } => self.may_begin(checker, line.thread, op),
            Doing::Drop { op } => self.may_drop(checker, op),
            _ => asked(self.dropped.is_none(), Rule::Finishing),
        }
    }

    fn follow_stop(&mut self, place: u64, does: &Doing) -> Result<(), AllocError>
        ensures stopped { IfOk result (λ _. (context : ℕ) →
            get nat_eq self.new.stopped context ≡ stopped_after place does.now context (get nat_eq self.old.stopped context)) }
        ensures ready { self.new.ready ≡ self.old.ready }
        ensures dropped { self.new.dropped ≡ self.old.dropped }
    {
        match *does {
            Doing::Stop { context } => put(&mut self.stopped, context, place),
            Doing::Restart { context } => {
                self.stopped.remove(&context);
                Ok(())
            }
            _ => Ok(()),
        }
    }

    fn change_ready(&mut self, change: Option<(u64, ReadyChange)>) -> Result<(), NoRoom>
        ensures ready { IfOk result (λ _. (strand : ℕ) →
            lined_at self.new.ready strand ≡ changed_on change strand (lined_at self.old.ready strand)) }
        ensures stopped { self.new.stopped ≡ self.old.stopped }
        ensures dropped { self.new.dropped ≡ self.old.dropped }
    {
        match change {
            Some((strand, change)) => self.ready.change(strand, change),
            None => Ok(()),
        }
    }

    /// Follows a line that may come. The checker has followed the lines before it. Where there is no
    /// room, nothing is said of what was kept.
    pub fn follow(&mut self, checker: &Checker, line: &Line) -> Result<(), NoRoom>
        ensures { IfOk result (λ _. (past : List Line) → IsAfter past checker.now → IsStrictAfter past self.old →
            MayDo loose past line.now.thread line.now.does → IsStrictAfter (line.now ∷ past) self.new) }
    {
        let place = checker.lines();
        let change = ready_change(checker, line.thread, &line.does);
        self.change_ready(change)?;
        self.follow_stop(place, &line.does)?;
        self.dropped = dropped_after(self.dropped, &line.does);
        Ok(())
    }
}
