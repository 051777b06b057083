ghost use Rattle.std.specs.Prelude.{◌≡◌, ◌↔◌, ℕ, IsTrue, is_some};
ghost use Rattle.std.specs.Option.{unwrap_or};
ghost use Rattle.run_check.specs.Called.{called_by};
ghost use Rattle.run_witness.specs.Causes.{completed_by, marked_by};
ghost use Rattle.run_lines.specs.declared.line.Doing.{Doing};
ghost use Rattle.run_orders.specs.Causes.{ends};
ghost use Rattle.run_orders.specs.Orders.{renumbered};
ghost use Rattle.run_rules.specs.Against.{op_of};

use run_lines::{Code, Doing, Word};

/// The operation that a line calls, completes, begins, ends or drops.
pub(crate) fn op_of(does: &Doing) -> Option<u64>
    ensures { result ≡ op_of does.now }
{
    match *does {
        Doing::Call { op, .. }
        | Doing::Back { op }
        | Doing::Done { op, .. }
        | Doing::Begin { op, .. }
        | Doing::End { op }
        | Doing::Throw { op }
        | Doing::Drop { op } => Some(op),
        _ => None,
    }
}

/// The same of an operation with another number.
pub(crate) fn renumbered(number: u64, does: &Doing) -> Doing
    ensures { result ≡ renumbered number does.now }
{
    match *does {
        Doing::Call {
            word,
            context,
            strand,
            thing,
            ..
        } => Doing::Call {
            op: number,
            word,
            context,
            strand,
            thing,
        },
        Doing::Back { .. } => Doing::Back { op: number },
        Doing::Done { code, size, .. } => Doing::Done {
            op: number,
            code,
            size,
        },
        Doing::Begin { code, size, .. } => Doing::Begin {
            op: number,
            code,
            size,
        },
        Doing::End { .. } => Doing::End { op: number },
        Doing::Throw { .. } => Doing::Throw { op: number },
        Doing::Drop { .. } => Doing::Drop { op: number },
        other => other,
    }
}

/// Whether a call is made by this word, to this context and strand, on this thing.
fn is_call(copy: Doing, word: Word, context: u64, strand: Option<u64>, thing: Option<u64>) -> bool
    ensures { (op : ℕ) → IsTrue result ↔ (copy ≡ renumbered (unwrap_or (op_of copy) 0) (Doing.Call op word context strand thing)) }
{
    match copy {
        Doing::Call {
            word: other,
            context: to,
            strand: on,
            thing: with,
            ..
        } => other == word && to == context && on == strand && with == thing,
        _ => false,
    }
}

/// Whether an operation completes with this outcome.
fn is_done(copy: Doing, code: Code, size: u64) -> bool
    ensures { (op : ℕ) → IsTrue result ↔ (copy ≡ renumbered (unwrap_or (op_of copy) 0) (Doing.Done op code size)) }
{
    match copy {
        Doing::Done {
            code: other,
            size: much,
            ..
        } => other == code && much == size,
        _ => false,
    }
}

/// Whether an operation begins with this outcome.
fn is_begin(copy: Doing, code: Code, size: u64) -> bool
    ensures { (op : ℕ) → IsTrue result ↔ (copy ≡ renumbered (unwrap_or (op_of copy) 0) (Doing.Begin op code size)) }
{
    match copy {
        Doing::Begin {
            code: other,
            size: much,
            ..
        } => other == code && much == size,
        _ => false,
    }
}

/// Whether a line does the same as another one, but for the number of its operation.
pub(crate) fn is_copy(does: Doing, copy: Doing) -> bool
    ensures { IsTrue result ↔ (copy ≡ renumbered (unwrap_or (op_of copy) 0) does) }
{
    match does {
        Doing::Call {
            word,
            context,
            strand,
            thing,
            ..
        } => is_call(copy, word, context, strand, thing),
        Doing::Done { code, size, .. } => is_done(copy, code, size),
        Doing::Begin { code, size, .. } => is_begin(copy, code, size),
        Doing::Back { .. } => matches!(copy, Doing::Back { .. }),
        Doing::End { .. } => matches!(copy, Doing::End { .. }),
        Doing::Throw { .. } => matches!(copy, Doing::Throw { .. }),
        Doing::Drop { .. } => matches!(copy, Doing::Drop { .. }),
        Doing::Claim { thing } => matches!(copy, Doing::Claim { thing: other } if other == thing),
        Doing::Release { thing } =>
            matches!(copy, Doing::Release { thing: other } if other == thing),
        Doing::Lock { lock } => matches!(copy, Doing::Lock { lock: other } if other == lock),
        Doing::Unlock { lock } => matches!(copy, Doing::Unlock { lock: other } if other == lock),
        Doing::Mark { mark } => matches!(copy, Doing::Mark { mark: other } if other == mark),
        Doing::After { mark } => matches!(copy, Doing::After { mark: other } if other == mark),
        Doing::Cancel { thing } => matches!(copy, Doing::Cancel { thing: other } if other == thing),
        Doing::Work { context } =>
            matches!(copy, Doing::Work { context: other } if other == context),
        Doing::Stop { context } =>
            matches!(copy, Doing::Stop { context: other } if other == context),
        Doing::Restart { context } =>
            matches!(copy, Doing::Restart { context: other } if other == context),
    }
}

/// Whether a line ends an execution.
pub(crate) fn is_end(does: &Doing) -> bool
    ensures { result ≡ is_some (ends does.now) }
{
    matches!(*does, Doing::End { .. } | Doing::Throw { .. })
}

/// The operation that a line calls.
pub(crate) fn called_by(does: &Doing) -> Option<u64>
    ensures { result ≡ called_by does.now }
{
    match *does {
        Doing::Call { op, .. } => Some(op),
        _ => None,
    }
}

/// The operation that a line completes.
pub(crate) fn completed_by(does: &Doing) -> Option<u64>
    ensures { result ≡ completed_by does.now }
{
    match *does {
        Doing::Done { op, .. } => Some(op),
        _ => None,
    }
}

/// The point that a line marks.
pub(crate) fn marked_by(does: &Doing) -> Option<u64>
    ensures { result ≡ marked_by does.now }
{
    match *does {
        Doing::Mark { mark } => Some(mark),
        _ => None,
    }
}
