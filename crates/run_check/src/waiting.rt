ghost use Rattle.std.specs.Prelude.{◌≡◌, ◌==◌, ◌↔◌, if◌then◌else◌, IfOk, ℕ, Some, None, is_some};
ghost use Rattle.std.specs.Option.{option_and_then, option_map};
ghost use Rattle.run_check.specs.declared.waiting.Waiter.{Waiter};
ghost use Rattle.run_rules.specs.Calls.{is_posting};
ghost use Rattle.run_check.specs.After.{kind_of};
ghost use Rattle.run_check.specs.Following.{called, completed, waiter_after};
ghost use Rattle.run_check.specs.Waiting.{waiting_at};

use crate::tables::put;
use run_lines::{Code, Doing, Word};
use run_rules::Frame;
use std::alloc::{AllocError, Global};
use std::collections::HashMap;

/// How an operation completed.
#[derive(Clone, Copy, PartialEq, Eq)]
pub struct Outcome {
    pub code: Code,
    pub size: u64,
}

/// How an operation was called.
#[derive(Clone, Copy, PartialEq, Eq)]
pub enum CallKind {
    /// By `post` or `defer`.
    Posting,
    /// By `dispatch`: it may begin inside its caller.
    Dispatch,
    /// By an initiating function whose operation completes later.
    Asynchronous,
}

/// An operation that was called, and has neither begun nor been dropped.
#[derive(Clone, Copy)]
pub struct Waiter {
    pub kind: CallKind,
    pub context: u64,
    pub strand: Option<u64>,
    pub thing: Option<u64>,
    pub caller: Frame,
    /// The place of its call.
    pub place: u64,
    /// The place of the line that submitted its handler.
    pub entry: Option<u64>,
    pub outcome: Option<Outcome>,
}

/// How a word calls.
fn kind_of(word: &Word) -> CallKind
    ensures { result ≡ kind_of word.now }
{
    match *word {
        Word::Post | Word::Defer => CallKind::Posting,
        Word::Dispatch => CallKind::Dispatch,
        Word::Other(_) => CallKind::Asynchronous,
    }
}

/// The place of a call that submits its handler itself.
fn entry_by(word: &Word, place: u64) -> Option<u64>
    ensures { result ≡ (if is_posting word.now then Some place else None) }
{
    match *word {
        Word::Post | Word::Defer | Word::Dispatch => Some(place),
        Word::Other(_) => None,
    }
}

/// An operation that is called by this line.
fn called(
    word: &Word,
    context: u64,
    strand: Option<u64>,
    thing: Option<u64>,
    caller: Frame,
    place: u64,
) -> Waiter
    ensures { result ≡ called word.now context strand thing caller place }
{
    Waiter {
        kind: kind_of(word),
        context,
        strand,
        thing,
        caller,
        place,
        entry: entry_by(word, place),
        outcome: None,
    }
}

/// An operation that waits, completed by the line at this place.
fn completed(waiter: Waiter, place: u64, code: Code, size: u64) -> Waiter
    ensures { result ≡ completed place code size waiter }
{
    Waiter {
        entry: Some(place),
        outcome: Some(Outcome { code, size }),
        ..waiter
    }
}

/// The operations that wait, by their numbers.
#[derive(Drop)]
pub(crate) struct Waiting {
    operations: HashMap<u64, Waiter>,
}

impl Waiting {
    pub(crate) fn new(alloc: Global) -> Self
        ensures { (op : ℕ) → waiting_at result op ≡ None }
    {
        Waiting {
            operations: HashMap::new(alloc),
        }
    }

    pub(crate) fn get(&self, op: u64) -> Option<Waiter>
        ensures { result ≡ waiting_at self.now op }
    {
        self.operations.get(&op).copied()
    }

    pub(crate) fn has(&self, op: u64) -> bool
        ensures { result ≡ is_some (waiting_at self.now op) }
    {
        self.operations.contains_key(&op)
    }

    pub(crate) fn len(&self) -> usize
        ensures { (result ≡ 0) ↔ ((op : ℕ) → waiting_at self.now op ≡ None) }
    {
        self.operations.len()
    }

    pub(crate) fn put(&mut self, op: u64, waiter: Waiter) -> Result<(), AllocError>
        ensures { IfOk result
            (λ _. (other : ℕ) → waiting_at self.new other ≡ (if op == other then Some waiter else waiting_at self.old other)) }
    {
        // the borrow checker's plan has to be told of the types within
        let _outcome: Option<Outcome> = waiter.outcome;
        let _code: Option<Code> = None;
        put(&mut self.operations, op, waiter)
    }

    /// The strand of an operation that waits on one.
    pub(crate) fn strand(&self, op: u64) -> Option<u64>
        ensures { result ≡ option_and_then (λ (w : Waiter). w.strand) (waiting_at self.now op) }
    {
        match self.get(op) {
            Some(waiter) => waiter.strand,
            None => None,
        }
    }

    /// The context of an operation that waits.
    pub(crate) fn context(&self, op: u64) -> Option<u64>
        ensures { result ≡ option_map (λ (w : Waiter). w.context) (waiting_at self.now op) }
    {
        match self.get(op) {
            Some(waiter) => Some(waiter.context),
            None => None,
        }
    }

    /// Follows a line by this frame at this place.
    pub(crate) fn follow(
        &mut self,
        caller: Frame,
        place: u64,
        does: &Doing,
    ) -> Result<(), AllocError>
        ensures { IfOk result
            (λ _. (other : ℕ) →
            waiting_at self.new other ≡ waiter_after caller place does.now other (waiting_at self.old other)) }
    {
        match *does {
            Doing::Call {
                op,
                word,
                context,
                strand,
                thing,
            } => self.put(op, called(&word, context, strand, thing, caller, place)),
            Doing::Done { op, code, size } => match self.get(op) {
                Some(waiter) => self.put(op, completed(waiter, place, code, size)),
                None => Ok(()),
            },
            Doing::Begin { op, .. } | Doing::Drop { op } => {
                self.take_out(op);
                Ok(())
            }
            _ => Ok(()),
        }
    }

    pub(crate) fn take_out(&mut self, op: u64)
        ensures { (other : ℕ) → waiting_at self.new other ≡ (if op == other then None else waiting_at self.old other) }
    {
        self.operations.remove(&op);
    }
}
