ghost use Rattle.std.specs.Prelude.{◌≡◌, ◌||◌};
ghost use Rattle.run_rules.specs.Against.{calls, calls_from, completes, op_of, settles, taken_by, tells_of};
ghost use Rattle.run_rules.specs.Calls.{begins, drops};
ghost use Rattle.run_verdict.specs.Doings.{begun_by, calls_some, is_drop, of_some};

use run_lines::{Doing, Word};
use run_rules::Resource;

/// Whether a line calls this operation.
pub(crate) fn calls(does: &Doing, op: u64) -> bool
    ensures { result ≡ calls does.now op }
{
    match *does {
        Doing::Call { op: number, .. } => number == op,
        _ => false,
    }
}

/// Whether a line calls this operation, if there is one.
pub(crate) fn calls_some(does: &Doing, op: Option<u64>) -> bool
    ensures { result ≡ calls_some does.now op }
{
    match op {
        Some(op) => calls(does, op),
        None => false,
    }
}

/// Whether a line calls an operation by this number or a greater one.
pub(crate) fn calls_from(does: &Doing, op: u64) -> bool
    ensures { result ≡ calls_from does.now op }
{
    match *does {
        Doing::Call { op: number, .. } => op <= number,
        _ => false,
    }
}

/// Whether a line completes this operation.
pub(crate) fn completes(does: &Doing, op: u64) -> bool
    ensures { result ≡ completes does.now op }
{
    match *does {
        Doing::Done { op: number, .. } => number == op,
        _ => false,
    }
}

/// Whether a line calls this operation as a posting, or completes it.
pub(crate) fn settles(does: &Doing, op: u64) -> bool
    ensures { result ≡ settles does.now op }
{
    match *does {
        Doing::Call {
            op: number,
            word,
            ..
        } => match word {
            Word::Post | Word::Defer | Word::Dispatch => number == op,
            Word::Other(_) => false,
        },
        Doing::Done { op: number, .. } => number == op,
        _ => false,
    }
}

/// Whether a line calls this operation as a posting, or completes it, if there is one.
pub(crate) fn settles_some(does: &Doing, op: Option<u64>) -> bool
    ensures { result ≡ of_some (settles does.now) op }
{
    match op {
        Some(op) => settles(does, op),
        None => false,
    }
}

/// Whether a line begins the handler of this operation, if there is one.
pub(crate) fn begins_some(does: &Doing, op: Option<u64>) -> bool
    ensures { result ≡ of_some (begins does.now) op }
{
    match op {
        Some(op) => begins(does, op),
        None => false,
    }
}

/// Whether a line drops the handler of this operation, if there is one.
pub(crate) fn drops_some(does: &Doing, op: Option<u64>) -> bool
    ensures { result ≡ of_some (drops does.now) op }
{
    match op {
        Some(op) => drops(does, op),
        None => false,
    }
}

/// Whether a line drops the handler of this operation.
fn drops(does: &Doing, op: u64) -> bool
    ensures { result ≡ drops does.now op }
{
    match *does {
        Doing::Drop { op: number } => number == op,
        _ => false,
    }
}

/// Whether a line drops any handler.
pub(crate) fn is_drop(does: &Doing) -> bool
    ensures { result ≡ is_drop does.now }
{
    matches!(does, Doing::Drop { .. })
}

/// Whether a line begins or drops the handler of this operation.
pub(crate) fn spends(does: &Doing, op: u64) -> bool
    ensures { result ≡ (begins does.now op || drops does.now op) }
{
    match *does {
        Doing::Begin { op: number, .. } | Doing::Drop { op: number } => number == op,
        _ => false,
    }
}

/// Whether a line begins or ends the handler of this operation.
pub(crate) fn tells_of(does: &Doing, op: u64) -> bool
    ensures { result ≡ tells_of does.now op }
{
    match *does {
        Doing::Begin { op: number, .. } | Doing::End { op: number } | Doing::Throw { op: number } =>
            number == op,
        _ => false,
    }
}

/// Whether a line begins the handler of this operation.
pub(crate) fn begins(does: &Doing, op: u64) -> bool
    ensures { result ≡ begins does.now op }
{
    match *does {
        Doing::Begin { op: number, .. } => number == op,
        _ => false,
    }
}

/// The operation whose handler a line begins.
pub(crate) fn begun_by(does: &Doing) -> Option<u64>
    ensures { result ≡ begun_by does.now }
{
    match *does {
        Doing::Begin { op, .. } => Some(op),
        _ => None,
    }
}

/// What a line claims or locks.
pub(crate) fn taken_by(does: &Doing) -> Option<Resource>
    ensures { result ≡ taken_by does.now }
{
    match *does {
        Doing::Claim { thing } => Some(Resource::Thing { thing }),
        Doing::Lock { lock } => Some(Resource::Lock { lock }),
        _ => None,
    }
}

/// The operation that a line speaks of.
pub(crate) fn op_of(does: &Doing) -> Option<u64>
    ensures { result ≡ op_of does.now }
{
    match *does {
        Doing::Call { op, .. }
        | Doing::Back { op }
        | Doing::Done { op, .. }
        | Doing::Begin { op, .. }
        | Doing::End { op }
        | Doing::Throw { op }
        | Doing::Drop { op } => Some(op),
        _ => None,
    }
}
