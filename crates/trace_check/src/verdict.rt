ghost use Rattle.std.specs.Prelude.{◌≡◌, ◌<◌, ◌^◌, length, IfOk};
ghost use Rattle.history_rules.specs.Legal.{state_of};
ghost use Rattle.history_rules.specs.State.{first_state};
ghost use Rattle.trace_check.specs.Verdict.{IsVerdict, legal_part};

use asio_types::{Event, NoMemory};
use history_book::Replay;
use session_script::Script;
use std::alloc::Global;

/// What is to be said of the events of a trace.
#[derive(Clone, Copy, Debug, PartialEq, Eq)]
pub enum Verdict {
    /// They are a legal history.
    Legal,
    /// The event with this number, from 1, may not happen after the events before it, which are
    /// legal so far.
    Illegal(u32),
    /// All are legal so far, but a round is open or a handler neither ran nor was destroyed.
    Incomplete,
}

/// The verdict on these events as a history of the replay's script, from its first event on. The
/// replay comes as far as they are legal. Takes no memory, and looks at each event once, and for it
/// at each act and stream at most a few times.
pub fn judge(replay: &mut Replay, events: &[Event]) -> Verdict
    requires few { length events.now < 2 ^ 32 }
    requires fresh { replay.old.state ≡ first_state replay.old.script replay.old.told }
    ensures verdict { IsVerdict replay.old.script replay.old.told events.now result }
    ensures state { replay.new.state
        ≡ state_of replay.old.script replay.old.told (legal_part result events.now) }
    ensures script { replay.new.script ≡ replay.old.script }
    ensures told { replay.new.told ≡ replay.old.told }
{
    for (i, event) in events.iter().enumerate() {
        if !replay.step(*event) {
            return Verdict::Illegal(i as u32 + 1);
        }
    }
    if replay.whole() {
        Verdict::Legal
    } else {
        Verdict::Incomplete
    }
}

/// The verdict on these events as a history of the script; `bytes_told` says whether the reactor
/// tells its bytes. Marks don't matter. Takes memory in proportion to the script, and looks at each
/// event once, and for it at each act and stream at most a few times.
pub fn check(
    alloc: Global,
    script: &Script,
    bytes_told: bool,
    events: &[Event],
) -> Result<Verdict, NoMemory>
    requires { length events.now < 2 ^ 32 }
    ensures { IfOk result (IsVerdict script.now bytes_told events.now) }
{
    let mut replay = Replay::make(alloc, script, bytes_told)?;
    Ok(judge(&mut replay, events))
}
