ghost use Rattle.std.specs.Prelude.{◌≡◌, ◌↔◌, IsTrue};
ghost use Rattle.run_check.specs.Beginning.{MayHaveOutcome};
ghost use Rattle.run_check.specs.Judging.{asked, is_above, is_first_by, is_number, completion_judged, start_judged, end_judged, is_upto, let_in_by, place_upto};

use crate::waiting::{CallKind, Waiter};
use run_lines::Code;
use run_rules::Rule;

/// This rule, where the test fails.
pub(crate) fn asked(test: bool, broken: Rule) -> Result<(), Rule>
    ensures { result ≡ asked test broken }
{
    if test { Ok(()) } else { Err(broken) }
}

/// Whether a number is above the last one.
pub(crate) fn is_above(last: Option<u64>, op: u64) -> bool
    ensures { result ≡ is_above last op }
{
    match last {
        Some(last) => last < op,
        None => true,
    }
}

/// Whether this is that number.
pub(crate) fn is_number(number: Option<u64>, op: u64) -> bool
    ensures { result ≡ is_number number op }
{
    match number {
        Some(number) => number == op,
        None => false,
    }
}

/// The strand that a begin lets in: its own, if this thread doesn't hold it.
pub(crate) fn let_in_by(strand: Option<u64>, holder: Option<u64>, thread: u64) -> Option<u64>
    ensures { result ≡ let_in_by strand holder thread }
{
    let strand = strand?;
    if is_number(holder, thread) {
        None
    } else {
        Some(strand)
    }
}

/// Whether an operation may complete.
pub(crate) fn judge_completion(waiter: Option<Waiter>) -> Result<(), Rule>
    ensures { result ≡ completion_judged waiter }
{
    match waiter {
        None => Err(Rule::Waiting),
        Some(waiter) => match waiter.kind {
            CallKind::Posting | CallKind::Dispatch => Err(Rule::Asynchronous),
            CallKind::Asynchronous => match waiter.outcome {
                None => Ok(()),
                Some(_) => Err(Rule::DoneOnce),
            },
        },
    }
}

/// Whether a strand lets an operation in: one that is held by this thread only inside.
pub(crate) fn judge_start(holder: Option<u64>, thread: u64, inside: bool) -> Result<(), Rule>
    ensures { result ≡ start_judged holder thread inside }
{
    match holder {
        Some(holder) => {
            if holder == thread && inside {
                Ok(())
            } else {
                Err(Rule::Free)
            }
        }
        None => Ok(()),
    }
}

/// Whether an operation is the first of a strand, unless somebody holds that.
pub(crate) fn is_first_by(holder: Option<u64>, later: bool) -> bool
    ensures { result ≡ is_first_by holder later }
{
    match holder {
        Some(_) => true,
        None => !later,
    }
}

/// Whether an execution may end.
pub(crate) fn judge_end(innermost: Option<u64>, op: u64, taken: bool) -> Result<(), Rule>
    ensures { result ≡ end_judged innermost op taken }
{
    match innermost {
        Some(innermost) => {
            if innermost == op {
                if taken { Err(Rule::Clean) } else { Ok(()) }
            } else {
                Err(Rule::Innermost)
            }
        }
        None => Err(Rule::Innermost),
    }
}

/// Whether the first of a queue stands there since this entry or longer.
pub(crate) fn is_upto(first: Option<(u64, u64)>, entry: Option<u64>) -> bool
    ensures { result ≡ is_upto first entry }
{
    match first {
        Some((place, _)) => match entry {
            Some(entry) => place <= entry,
            None => false,
        },
        None => false,
    }
}

/// The place since which the first of a queue stands there, if that is this entry or before.
pub(crate) fn place_upto(first: Option<(u64, u64)>, entry: Option<u64>) -> Option<u64>
    ensures { result ≡ place_upto first entry }
{
    if is_upto(first, entry) {
        match first {
            Some((place, _)) => Some(place),
            None => None,
        }
    } else {
        None
    }
}

/// Whether two codes are one.
fn is_same(one: Code, other: Code) -> bool
    ensures { IsTrue result ↔ (one ≡ other) }
{
    one == other
}

/// Whether an operation that waits may begin with this outcome.
pub(crate) fn may_have_outcome(waiter: &Waiter, code: Code, size: u64) -> bool
    ensures { IsTrue result ↔ MayHaveOutcome waiter.now code size }
{
    match waiter.outcome {
        Some(outcome) => is_same(outcome.code, code) && outcome.size == size,
        None => match waiter.kind {
            CallKind::Asynchronous => true,
            CallKind::Posting | CallKind::Dispatch => matches!(code, Code::Ok) && size == 0,
        },
    }
}
