ghost use Rattle.std.specs.Prelude.{◌≡◌};
ghost use Rattle.history_rules.specs.Rounds.{runs};
ghost use Rattle.book_context.specs.BookSteps.{are_closed, is_round_open, open_round, wants_restart};

use crate::record::Record;
use session_script::{Pace, Round};

/// The round after those that are closed.
fn open_round(recording: &Record<'_>) -> Option<Round>
    ensures { result ≡ open_round recording.now }
{
    let rounds = recording.script().rounds();
    rounds.get(recording.closings() as usize).copied()
}

/// Whether a round is left, and its restart has come.
pub(crate) fn is_open(recording: &Record<'_>) -> bool
    ensures { result ≡ is_round_open recording.now }
{
    match open_round(recording) {
        Some(round) => !round.restart || recording.restarted(),
        None => false,
    }
}

/// Whether the workers of the round call `io_context::run`.
pub(crate) fn is_run(recording: &Record<'_>) -> bool
    ensures { result ≡ runs (open_round recording.now) }
{
    match open_round(recording) {
        Some(round) => round.pace == Pace::Run,
        None => false,
    }
}

/// Whether the round begins with a restart that hasn't come.
pub(crate) fn wants_restart(recording: &Record<'_>) -> bool
    ensures { result ≡ wants_restart recording.now }
{
    match open_round(recording) {
        Some(round) => round.restart && !recording.restarted(),
        None => false,
    }
}

/// Whether all rounds are closed.
pub(crate) fn are_closed(recording: &Record<'_>) -> bool
    ensures { result ≡ are_closed recording.now }
{
    recording.closings() as usize == recording.script().rounds().len()
}
