use crate::detail::Detail;
use crate::found::{Against, stands_against};
use crate::situation::Situation;
use asio_types::{ActNo, NoMemory};

/// What a history that isn't whole still owes, a line each: a round that isn't closed, and the
/// handlers that were neither run to their end nor destroyed.
pub(crate) fn owed(detail: &mut Detail, at: &Situation) -> Result<(), NoMemory> {
    owe_round(detail, at)?;
    for n in 0..at.replay.script().acts() {
        if stands_against(at.replay, Against::IsUnspent, n) {
            owe_act(detail, at, n)?;
        }
    }
    Ok(())
}

/// The line of a round that isn't closed.
fn owe_round(detail: &mut Detail, at: &Situation) -> Result<(), NoMemory> {
    let rounds = at.replay.script().rounds().len() as u64;
    if at.replay.closings() >= rounds || at.replay.has_failed() {
        return Ok(());
    }
    detail.field("owed: round ", at.replay.closings())?;
    detail.words(" isn't closed\n")
}

/// The line of an act.
fn owe_act(detail: &mut Detail, at: &Situation, n: ActNo) -> Result<(), NoMemory> {
    detail.words("owed: ")?;
    at.act(detail, n)?;
    detail.words("\n")
}
