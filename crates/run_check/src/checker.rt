ghost use Rattle.std.specs.Prelude.{◌≡◌, ◌↔◌, ℕ, [], ◌∷◌, false, length, IfOk, List, Option, Some, IsTrue, MatchResult};
ghost use Rattle.run_lines.specs.declared.line.Line.{Line};
ghost use Rattle.run_lines.specs.declared.line.Doing.{Doing};
ghost use Rattle.run_lines.specs.declared.word.Word.{Word};
ghost use Rattle.run_lines.specs.declared.code.Code.{Code};
ghost use Rattle.run_rules.specs.declared.taking.Resource.{Resource};
ghost use Rattle.run_rules.specs.Breaks.{BreaksByDoing};
ghost use Rattle.run_rules.specs.MayCome.{MayDo, IsUntouched, IsTaken};
ghost use Rattle.std.specs.Option.{option_or};
ghost use Rattle.run_check.specs.Called.{called_by};
ghost use Rattle.run_check.specs.Parts.{FollowsCalls, FollowsExecutions, FollowsMarks, FollowsTakings};
ghost use Rattle.run_rules.specs.declared.frame.Frame.{Frame};

use crate::entered::Entered;
use crate::judging::{
    asked, is_above, is_first_by, is_number, is_upto, judge_completion, judge_end, judge_start,
    let_in_by, may_have_outcome, place_upto,
};
use crate::last_calls::LastCalls;
use crate::marks::Marks;
use crate::queues::Queues;
use crate::refusal::{NoRoom, Refusal};
use crate::stacks::Stacks;
use crate::strands::Strands;
use crate::takings::Takings;
use crate::waiting::{CallKind, Waiter, Waiting};
use run_lines::{Code, Doing, Line};
use run_rules::{Frame, Resource, Rule, Taking};
use std::alloc::Global;

/// What is under way in a run, as far as its lines were followed.
#[derive(Drop)]
pub struct Checker {
    /// How many lines were followed.
    lines: u64,
    /// The operation that was called last.
    greatest: Option<u64>,
    waiting: Waiting,
    stacks: Stacks,
    strands: Strands,
    queues: Queues,
    entered: Entered,
    last_calls: LastCalls,
    takings: Takings,
    marks: Marks,
}

/// The operation that was called last, behind this line.
fn called_after(last: Option<u64>, does: &Doing) -> Option<u64>
    ensures { result ≡ option_or (called_by does.now) last }
{
    match *does {
        Doing::Call { op, .. } => Some(op),
        _ => last,
    }
}

/// Whether a frame is the execution of this operation.
fn is_execution(who: Frame, op: u64) -> bool
    ensures { IsTrue result ↔ (who ≡ Frame.Execution op) }
{
    match who {
        Frame::Execution { op: other } => other == op,
        Frame::Outside { .. } => false,
    }
}

/// Follows a line in what is executed, and where; a begin lets this strand in, and an end lets it go.
fn follow_executions(
    stacks: &mut Stacks,
    strands: &mut Strands,
    line: &Line,
    own: Option<u64>,
) -> Result<(), NoRoom>
    ensures { IfOk result (λ _. FollowsExecutions line.now own stacks.old strands.old stacks.new strands.new) }
{
    stacks.follow(line.thread, &line.does, own)?;
    strands.follow(line.thread, &line.does, own)?;
    Ok(())
}

/// Follows a line of a frame in what it calls, takes and marks.
fn follow_kept(
    last_calls: &mut LastCalls,
    takings: &mut Takings,
    marks: &mut Marks,
    frame: Frame,
    line: &Line,
) -> Result<(), NoRoom>
    ensures calls { IfOk result (λ _. FollowsCalls line.now frame last_calls.old last_calls.new) }
    ensures taken { IfOk result (λ _. FollowsTakings line.now frame takings.old takings.new) }
    ensures marked { IfOk result (λ _. FollowsMarks line.now marks.old marks.new) }
{
    last_calls.follow(frame, &line.does)?;
    takings.follow(line.thread, frame, &line.does)?;
    marks.follow(&line.does)?;
    Ok(())
}

impl Checker {
    ghost use Rattle.run_check.specs.After.{IsAfter, JudgesDoing, called_last, is_spent, let_in, loose, plain, waiter_of};
    ghost use Rattle.run_rules.specs.Against.{StandsLongest, is_executing};
    ghost use Rattle.run_check.specs.Steps.{GoesWith, Steps};
    ghost use Rattle.run_check.specs.Entered.{entered_last, entered_of};
    ghost use Rattle.run_check.specs.Following.{to_place};
    ghost use Rattle.run_check.specs.Waiting.{waiting_at};
    ghost use Rattle.std.specs.List.{list_any};
    ghost use Rattle.run_rules.specs.Stacks.{first_of, frame, stack};
    ghost use Rattle.run_rules.specs.Starting.{Holds, IsFirst, is_on};
    ghost use Rattle.run_rules.specs.Takings.{has_taken, is_taken_by, taken};
    ghost use Rattle.run_rules.specs.MayCome.{last_call};
    ghost use Rattle.run_rules.specs.Calls.{Waits, context_of, strand_of};
    ghost use Rattle.run_check.specs.Beginning.{BeginsInside, MayHaveOutcome, SomeGoesBefore};

    /// A checker that has followed nothing.
    pub fn new(alloc: Global) -> Self
        ensures { IsAfter [] result }
    {
        Checker {
            lines: 0,
            greatest: None,
            waiting: Waiting::new(alloc),
            stacks: Stacks::new(alloc),
            strands: Strands::new(alloc),
            queues: Queues::new(alloc),
            entered: Entered::new(alloc),
            last_calls: LastCalls::new(alloc),
            takings: Takings::new(alloc),
            marks: Marks::new(alloc),
        }
    }

    /// How many lines were followed.
    pub fn lines(&self) -> u64
        ensures { (past : List Line) → IsAfter past self.now → result ≡ length past }
    {
        self.lines
    }

    /// The operation that was called last.
    pub fn greatest(&self) -> Option<u64>
        ensures { (past : List Line) → IsAfter past self.now → result ≡ called_last past }
    {
        self.greatest
    }

    /// What is known of an operation that waits.
    pub fn waiter(&self, op: u64) -> Option<Waiter>
        ensures { (past : List Line) → IsAfter past self.now → result ≡ waiter_of past op }
    {
        self.waiting.get(op)
    }

    /// Who writes the next line of a thread.
    pub fn frame(&self, thread: u64) -> Frame
        ensures { (past : List Line) → IsAfter past self.now → result ≡ frame past thread }
    {
        self.stacks.frame(thread)
    }

    /// The last call of the frame that writes the next line of a thread, if it isn't known to be back.
    pub fn last_call(&self, thread: u64) -> Option<u64>
        ensures { (past : List Line) → IsAfter past self.now → result ≡ last_call past (frame past thread) }
    {
        let frame = self.stacks.frame(thread);
        self.last_calls.of(frame)
    }

    /// The operation whose handler a thread submitted by its last line.
    pub fn submitted(&self, thread: u64) -> Option<u64>
        ensures { (past : List Line) → IsAfter past self.now → result ≡ entered_last past thread }
    {
        self.entered.of(thread)
    }

    /// The thread that holds a strand.
    pub fn holder(&self, strand: u64) -> Option<u64>
        ensures { (past : List Line) → IsAfter past self.now → (thread : ℕ) → Holds past thread strand ↔ (result ≡ Some thread) }
    {
        self.strands.holder(strand)
    }

    /// Whether a thread holds a strand.
    pub(crate) fn holds(&self, thread: u64, strand: u64) -> bool
        ensures { (past : List Line) → IsAfter past self.now → result ≡ list_any (is_on past strand) (stack past thread) }
    {
        is_number(self.strands.holder(strand), thread)
    }

    /// The innermost execution of a thread.
    pub fn innermost(&self, thread: u64) -> Option<u64>
        ensures { (past : List Line) → IsAfter past self.now → result ≡ first_of (stack past thread) }
    {
        self.stacks.innermost(thread)
    }

    /// Since which place that operation is known to stand in the queue that has to begin before this
    /// one, which waits, and that stands there longest.
    pub fn longest(&self, op: u64) -> Option<u64>
        ensures { (past : List Line) → IsAfter past self.now → Waits past op → (place : ℕ) →
            (result ≡ Some place) ↔ StandsLongest past op place }
    {
        match self.waiting.get(op) {
            Some(waiter) => self.longest_before(&waiter),
            None => None,
        }
    }

    fn longest_before(&self, waiter: &Waiter) -> Option<u64>
        ensures { (past : List Line) → IsAfter past self.now → (op : ℕ) → waiter_of past op ≡ Some waiter.now
            → (place : ℕ) → (result ≡ Some place) ↔ StandsLongest past op place }
    {
        match waiter.strand {
            Some(strand) => place_upto(self.queues.first(strand), waiter.entry),
            None => None,
        }
    }

    /// The strand of an operation that waits.
    pub fn strand(&self, op: u64) -> Option<u64>
        ensures { (past : List Line) → IsAfter past self.now → Waits past op → result ≡ strand_of past op }
    {
        self.waiting.strand(op)
    }

    /// The context of an operation that waits.
    pub fn context(&self, op: u64) -> Option<u64>
        ensures { (past : List Line) → IsAfter past self.now → Waits past op → result ≡ context_of past op }
    {
        self.waiting.context(op)
    }

    /// Whether the handler of an operation has begun, and hasn't ended.
    pub fn is_executing(&self, op: u64) -> bool
        ensures { (past : List Line) → IsAfter past self.now → result ≡ is_executing past op }
    {
        self.stacks.has(op)
    }

    /// Whether a thread has taken this.
    pub fn has_taken(&self, thread: u64, resource: Resource) -> bool
        ensures { (past : List Line) → IsAfter past self.now → result ≡ has_taken past thread resource }
    {
        self.takings.has_by(thread, resource)
    }

    /// Whether a frame of a thread has taken this.
    pub fn is_taken_by(&self, thread: u64, frame: Frame, resource: Resource) -> bool
        ensures { (past : List Line) → IsAfter past self.now → result ≡ is_taken_by past thread frame resource }
    {
        self.takings.has(Taking {
            thread,
            frame,
            resource,
        })
    }

    /// How many operations wait.
    pub fn waiting(&self) -> usize
        ensures { (past : List Line) → IsAfter past self.now → (result ≡ 0) ↔ ((op : ℕ) → ¬ (Waits past op)) }
    {
        self.waiting.len()
    }

    /// On how many threads handlers are executed.
    pub fn executing(&self) -> usize
        ensures { (past : List Line) → IsAfter past self.now → (result ≡ 0) ↔ ((thread : ℕ) → stack past thread ≡ []) }
    {
        self.stacks.len()
    }

    /// How much is claimed or locked and not given back.
    pub fn taken(&self) -> u64
        ensures { (past : List Line) → IsAfter past self.now → result ≡ length (taken past) }
    {
        self.takings.number()
    }

    fn may_call(&self, op: u64) -> Result<(), Rule>
        ensures { (past : List Line) (word : Word) (context : ℕ) (strand thing : Option ℕ) →
            IsAfter past self.now → JudgesDoing past 0 (Doing.Call op word context strand thing) result }
    {
        asked(is_above(self.greatest, op), Rule::New)
    }

    fn may_return(&self, thread: u64, op: u64) -> Result<(), Rule>
        ensures { (past : List Line) → IsAfter past self.now → JudgesDoing past thread (Doing.Back op) result }
    {
        let frame = self.stacks.frame(thread);
        asked(is_number(self.last_calls.of(frame), op), Rule::Returns)
    }

    fn may_complete(&self, op: u64) -> Result<(), Rule>
        ensures { (past : List Line) (code : Code) (size : ℕ) → IsAfter past self.now →
            JudgesDoing past 0 (Doing.Done op code size) result }
    {
        judge_completion(self.waiting.get(op))
    }

    /// Whether an operation that begins on this thread begins inside the execution that called it.
    fn is_inside(&self, thread: u64, waiter: &Waiter) -> bool
        ensures { IsTrue result ↔ BeginsInside self.now.stacks thread waiter.now }
    {
        match self.stacks.innermost(thread) {
            Some(op) => waiter.kind == CallKind::Dispatch && is_execution(waiter.caller, op),
            None => false,
        }
    }

    /// Whether another operation stands in the queue of this strand since this entry or longer.
    fn comes_later(&self, strand: u64, entry: Option<u64>) -> bool
        ensures { (past : List Line) → IsAfter past self.now → IsTrue result ↔ SomeGoesBefore past strand entry }
    {
        is_upto(self.queues.first(strand), entry)
    }

    /// Whether an operation that is known to wait is the first of this strand, if nobody holds that.
    fn is_first_on(&self, strand: u64, waiter: &Waiter) -> bool
        ensures { (past : List Line) → IsAfter past self.now → (op : ℕ) → waiter_of past op ≡ Some waiter.now →
            waiter.now.strand ≡ Some strand → IsTrue result ↔ IsFirst plain past op }
    {
        let later = self.comes_later(strand, waiter.entry);
        is_first_by(self.strands.holder(strand), later)
    }

    /// Whether no other operation has to begin before this one, which waits, if nobody holds its strand.
    pub fn is_first(&self, op: u64) -> bool
        ensures { (past : List Line) → IsAfter past self.now → Waits past op → IsTrue result ↔ IsFirst plain past op }
    {
        match self.waiting.get(op) {
            None => true,
            Some(waiter) => match waiter.strand {
                None => true,
                Some(strand) => self.is_first_on(strand, &waiter),
            },
        }
    }

    /// Whether an operation that waits and has this outcome may begin, as far as its strand has a say.
    fn may_start(&self, thread: u64, waiter: &Waiter) -> Result<(), Rule>
        ensures { (past : List Line) (op : ℕ) (code : Code) (size : ℕ) → IsAfter past self.now →
            waiter_of past op ≡ Some waiter.now → MayHaveOutcome waiter.now code size →
            JudgesDoing past thread (Doing.Begin op code size) result }
    {
        match waiter.strand {
            None => Ok(()),
            Some(strand) => {
                let inside = self.is_inside(thread, waiter);
                judge_start(self.strands.holder(strand), thread, inside)
            }
        }
    }

    fn may_begin(&self, thread: u64, op: u64, code: Code, size: u64) -> Result<(), Rule>
        ensures { (past : List Line) → IsAfter past self.now → JudgesDoing past thread (Doing.Begin op code size) result }
    {
        match self.waiting.get(op) {
            None => Err(Rule::Waiting),
            Some(waiter) => {
                if may_have_outcome(&waiter, code, size) {
                    self.may_start(thread, &waiter)
                } else {
                    Err(Rule::Outcome)
                }
            }
        }
    }

    fn may_end(&self, thread: u64, op: u64) -> Result<(), Rule>
        ensures ended { (past : List Line) → IsAfter past self.now → JudgesDoing past thread (Doing.End op) result }
        ensures thrown { (past : List Line) → IsAfter past self.now → JudgesDoing past thread (Doing.Throw op) result }
    {
        let taken = self.takings.has_any(Frame::Execution { op });
        judge_end(self.stacks.innermost(thread), op, taken)
    }

    fn may_drop(&self, op: u64) -> Result<(), Rule>
        ensures { (past : List Line) → IsAfter past self.now → JudgesDoing past 0 (Doing.Drop op) result }
    {
        asked(self.waiting.has(op), Rule::Waiting)
    }

    /// Whether no other thread has taken this.
    fn is_untouched(&self, thread: u64, resource: Resource) -> bool
        ensures { (past : List Line) → IsAfter past self.now → IsTrue result ↔ IsUntouched past thread resource }
    {
        self.takings.is_alone(thread, resource)
    }

    /// Whether the frame that writes the next line of this thread has taken this.
    fn is_taken(&self, thread: u64, resource: Resource) -> bool
        ensures { (past : List Line) → IsAfter past self.now → IsTrue result ↔ IsTaken past thread resource }
    {
        let frame = self.stacks.frame(thread);
        self.takings.has(Taking {
            thread,
            frame,
            resource,
        })
    }

    fn may_touch(&self, thread: u64, resource: Resource, broken: Rule) -> Result<(), Rule>
        ensures { (past : List Line) → IsAfter past self.now →
            MatchResult result (λ _. IsUntouched past thread resource)
            (λ rule. (rule ≡ broken) × ¬ (IsUntouched past thread resource)) }
    {
        asked(self.is_untouched(thread, resource), broken)
    }

    fn may_give(&self, thread: u64, resource: Resource, broken: Rule) -> Result<(), Rule>
        ensures { (past : List Line) → IsAfter past self.now →
            MatchResult result (λ _. IsTaken past thread resource) (λ rule. (rule ≡ broken) × ¬ (IsTaken past thread resource)) }
    {
        asked(self.is_taken(thread, resource), broken)
    }

    fn may_follow(&self, mark: u64) -> Result<(), Rule>
        ensures { (past : List Line) → IsAfter past self.now → JudgesDoing past 0 (Doing.After mark) result }
    {
        asked(self.marks.has(mark), Rule::Marked)
    }

    /// Whether this line may come next, as far as no order is asked.
    pub fn may_come(&self, line: &Line) -> Result<(), Rule>
        ensures { (past : List Line) → IsAfter past self.now →
            MatchResult result (λ _. MayDo loose past line.now.thread line.now.does) (λ rule. BreaksByDoing loose past line.now.thread line.now.does rule) }
    {
        let thread = line.thread;
        match line.does {
            Doing::Call { op, .. } => self.may_call(op),
            Doing::Back { op } => self.may_return(thread, op),
            Doing::Done { op, .. } => self.may_complete(op),
            Doing::Begin { op, code, size } => self.may_begin(thread, op, code, size),
            Doing::End { op } => self.may_end(thread, op),
            Doing::Throw { op } => self.may_end(thread, op),
            Doing::Drop { op } => self.may_drop(op),
            Doing::Claim { thing } => self.may_touch(
                thread,
                Resource::Thing { thing },
                Rule::Untouched,
            ),
            Doing::Release { thing } => self.may_give(
                thread,
                Resource::Thing { thing },
                Rule::Claimed,
            ),
            Doing::Lock { lock } => self.may_touch(thread, Resource::Lock { lock }, Rule::Unlocked),
            Doing::Unlock { lock } => self.may_give(thread, Resource::Lock { lock }, Rule::Locked),
            Doing::After { mark } => self.may_follow(mark),
            Doing::Mark { .. }
            | Doing::Cancel { .. }
            | Doing::Work { .. }
            | Doing::Stop { .. }
            | Doing::Restart { .. } => Ok(()),
        }
    }

    /// The strand that the begin of an operation on this thread lets in.
    fn strand_of_begin(&self, thread: u64, op: u64) -> Option<u64>
        ensures { (past : List Line) → IsAfter past self.now → is_spent past op ≡ false →
            result ≡ let_in past (strand_of past op) (stack past thread) }
    {
        let strand = self.waiting.strand(op);
        let holder = self.strands.holder_of(strand);
        let_in_by(strand, holder, thread)
    }

    /// The strand that goes with a line: what a begin lets in, and what an end lets go.
    fn strand_with(&self, thread: u64, does: &Doing) -> Option<u64>
        ensures { (past : List Line) → IsAfter past self.now → MayDo loose past thread does.now →
            GoesWith past self.now.stacks thread does.now result }
    {
        match *does {
            Doing::Begin { op, .. } => self.strand_of_begin(thread, op),
            Doing::End { op } | Doing::Throw { op } => self.stacks.let_in(op),
            _ => None,
        }
    }

    /// The operation that a thread submitted last, and its strand, if it waits on one.
    fn to_place(&self, thread: u64) -> Option<(u64, u64)>
        ensures { result ≡ to_place (entered_of self.now.entered thread) (waiting_at self.now.waiting) }
    {
        let op = self.entered.of(thread)?;
        let strand = self.waiting.strand(op)?;
        Some((op, strand))
    }

    /// Follows a line that may come. Where there is no room, nothing is said of what was kept.
    pub fn follow(&mut self, line: &Line) -> Result<(), NoRoom>
        ensures { IfOk result
            (λ _. (past : List Line) → IsAfter past self.old → MayDo loose past line.now.thread line.now.does → IsAfter (line.now ∷ past) self.new) }
    {
        let thread = line.thread;
        let frame = self.stacks.frame(thread);
        let place = self.lines;
        let own = self.strand_with(thread, &line.does);
        let placed = self.to_place(thread);
        self.lines = place.checked_add(1).ok_or(NoRoom)?;
        self.greatest = called_after(self.greatest, &line.does);
        self.queues.place(placed, place)?;
        self.queues.spend(&line.does);
        self.waiting.follow(frame, place, &line.does)?;
        follow_executions(&mut self.stacks, &mut self.strands, line, own)?;
        self.entered.follow(thread, &line.does)?;
        follow_kept(
            &mut self.last_calls,
            &mut self.takings,
            &mut self.marks,
            frame,
            line,
        )?;
        Ok(())
    }

    /// Follows a line, if it may come. A line that may not changes nothing; where there is no room,
    /// nothing is said of what was kept.
    pub fn step(&mut self, line: &Line) -> Result<(), Refusal>
        ensures { (past : List Line) → IsAfter past self.old → Steps past line.now self.old self.new result }
    {
        if let Err(rule) = self.may_come(line) {
            return Err(Refusal::Broken { rule });
        }
        match self.follow(line) {
            Ok(()) => Ok(()),
            Err(NoRoom) => Err(Refusal::NoRoom),
        }
    }
}
