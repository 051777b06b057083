ghost use Rattle.std.specs.Prelude.{◌≡◌, ℕ, List, None, Some};
ghost use Rattle.run_lines.specs.declared.line.Line.{Line};
ghost use Rattle.run_orders.specs.Forced.{begun_by};
ghost use Rattle.run_rules.specs.Calls.{strand_of};
ghost use Rattle.run_rules.specs.Stacks.{frame};
ghost use Rattle.run_rules.specs.Starting.{Holds};
ghost use Rattle.run_rules.specs.declared.frame.Frame.{Frame};
ghost use Rattle.run_overlaps.specs.Watching.{IsWatch};

use crate::watch::Watch;
use run_lines::{Doing, Line};
use run_rules::Frame;

/// The strand of an operation.
fn called_on(watch: &Watch, op: u64) -> Option<u64>
    ensures { (past : List Line) (strand : ℕ) → IsWatch past watch.now → result ≡ Some strand → strand_of past op ≡ Some strand }
{
    match watch.called(op) {
        Some(called) => called.strand,
        None => None,
    }
}

/// The strand of which an operation takes a turn if it begins on this thread.
fn turn_of(watch: &Watch, thread: u64, op: u64) -> Option<u64>
    ensures on { (past : List Line) (strand : ℕ) → IsWatch past watch.now → result ≡ Some strand → strand_of past op ≡ Some strand }
    ensures unheld { (past : List Line) (strand : ℕ) → IsWatch past watch.now → result ≡ Some strand → Holds past thread strand → ⊥ }
{
    match called_on(watch, op) {
        Some(strand) if !watch.holds(thread, strand) => Some(strand),
        _ => None,
    }
}

/// The strand of the execution that writes the next line of a thread.
fn own_strand(watch: &Watch, thread: u64) -> Option<u64>
    ensures { (past : List Line) (op strand : ℕ) → IsWatch past watch.now → frame past thread ≡ Frame.Execution op →
        result ≡ Some strand → strand_of past op ≡ Some strand }
{
    match watch.frame(thread) {
        Frame::Execution { op } => called_on(watch, op),
        Frame::Outside { .. } => None,
    }
}

/// The strand of the execution that writes the next line; of a line that begins an operation, the strand
/// of which that takes a turn.
pub(crate) fn strand_at(watch: &Watch, line: &Line) -> Option<u64>
    ensures turn { (past : List Line) (op strand : ℕ) → IsWatch past watch.now → begun_by line.now.does ≡ Some op → result ≡ Some strand →
        (strand_of past op ≡ Some strand) × (Holds past line.now.thread strand → ⊥) }
    ensures own { (past : List Line) (op strand : ℕ) → IsWatch past watch.now → begun_by line.now.does ≡ None →
        frame past line.now.thread ≡ Frame.Execution op → result ≡ Some strand → strand_of past op ≡ Some strand }
{
    match line.does {
        Doing::Begin { op, .. } => turn_of(watch, line.thread, op),
        _ => own_strand(watch, line.thread),
    }
}
