ghost use Rattle.std.specs.Prelude.{◌≡◌, ◌+◌, ◌≤◌, ◌++◌, filter, length, not};
ghost use Rattle.std.specs.Vec.{vec_capacity, vec_len};
ghost use Rattle.history_rules.specs.Waits.{all_completed_with, expiry_in};
ghost use Rattle.history_book.specs.Waiting.{is_chosen};

use asio_types::{Code, OpNo, TimerNo};
use history_rules::Wait;
use stream_rules::Completion;

/// Which waits complete together.
#[derive(Clone, Copy)]
pub enum Which<'a> {
    /// Those of a timer.
    OfTimer { timer: TimerNo },
    /// That of an operation.
    OfOperation { op: OpNo },
    /// Those whose timers have expired by now.
    Due { now: u64, expiries: &'a [u64] },
}

/// When a wait expires.
pub(crate) fn expiry_in(expiries: &[u64], wait: &Wait) -> u64
    ensures { result ≡ expiry_in expiries.now wait.now }
{
    expiries.get(wait.timer as usize).copied().unwrap_or(0)
}

impl<'a> Which<'a> {
    fn includes(&self, wait: &Wait) -> bool
        ensures { result ≡ is_chosen self.now wait.now }
    {
        match self {
            Which::OfTimer { timer } => wait.timer == *timer,
            Which::OfOperation { op } => wait.op == *op,
            Which::Due { now, expiries } => expiry_in(expiries, wait) <= *now,
        }
    }
}

/// Lists those of the waits that complete with this code.
fn list_waits(which: &Which, code: Code, waits: &[Wait], due: &mut Vec<Completion>)
    requires { vec_len due.old + length waits.now ≤ vec_capacity due.old }
    ensures due { due.new.items
        ≡ due.old.items ++ all_completed_with code (is_chosen which.now) waits.now }
    ensures room { vec_capacity due.new ≡ vec_capacity due.old }
{
    for wait in waits {
        if which.includes(wait) {
            due.push_reserved(Completion {
                op: wait.op,
                outcome: (code, 0),
            });
        }
    }
}

/// These waits complete with this code, in order of acceptance.
pub(crate) fn complete_waits(
    which: &Which,
    code: Code,
    waits: &mut Vec<Wait>,
    due: &mut Vec<Completion>,
)
    requires { vec_len due.old + vec_len waits.old ≤ vec_capacity due.old }
    ensures waits { waits.new.items
        ≡ filter (λ wait. not (is_chosen which.now wait)) waits.old.items }
    ensures due { due.new.items
        ≡ due.old.items ++ all_completed_with code (is_chosen which.now) waits.old.items }
    ensures waits_room { vec_capacity waits.new ≡ vec_capacity waits.old }
    ensures due_room { vec_capacity due.new ≡ vec_capacity due.old }
{
    list_waits(which, code, waits.as_slice(), due);
    waits.retain(|wait| !which.includes(wait));
}
