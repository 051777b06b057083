ghost use Rattle.std.specs.Prelude.{◌≡◌, false, true};
ghost use Rattle.io_context.specs.Refused.{NoStrandWasFree, TransferWasRefused, WaitWasRefused, WasRefused};
ghost use Rattle.io_rules.specs.Names.{any_free};
ghost use Rattle.io_scheduler.specs.Accepted.{may_wait};
ghost use Rattle.io_scheduler.specs.Counted.{may_post};
ghost use Rattle.io_scheduler.specs.Sections.{NotesNothing};
ghost use Rattle.io_scheduler.specs.Transferred.{is_transfer, may_transfer};

use io_handlers::Handler;
use io_history::{HistoryTable, Named};
use io_rules::{Lane, Name};
use io_scheduler::{Scheduler, Section, Transfer};

/// Why a call from outside of all handlers is refused.
#[derive(Clone, Copy, Debug, PartialEq, Eq)]
pub enum Refusal {
    /// No place for one more is free.
    Full,
    /// Its strand is gone, or its timer, its stream or its listener.
    Gone,
}

/// A call from outside of all handlers that is refused: what it was given comes back.
#[derive(Drop)]
pub struct Refused<T, C: Named> {
    /// What it was given.
    pub back: T,
    /// Why.
    pub why: Refusal,
    /// The critical section, in which nothing was noted.
    pub section: Section<C>,
}

/// A handler that isn't accepted on this lane.
pub(crate) fn refuse<H: Handler, C: Named>(
    scheduler: &mut Scheduler<H, C>,
    table: &HistoryTable,
    lane: Lane,
    back: H,
) -> Refused<H, C>
    requires table { table.now ≡ C.table }
    requires may { may_post scheduler.old lane ≡ false }
    ensures same { scheduler.new ≡ scheduler.old }
    ensures refused { WasRefused C.limits lane result.why result.section.after }
    ensures nothing { NotesNothing C.limits result.section.before result.section.after scheduler.old }
    ensures back { result.back ≡ back }
{
    let section = scheduler.look(table);
    if scheduler.has_lane(lane) {
        let why = Refusal::Full;
        Refused { back, why, section }
    } else {
        let why = Refusal::Gone;
        Refused { back, why, section }
    }
}

/// A handler of a wait that isn't accepted.
pub(crate) fn refuse_wait<H: Handler, C: Named>(
    scheduler: &mut Scheduler<H, C>,
    table: &HistoryTable,
    lane: Lane,
    timer: Name,
    back: H,
) -> Refused<H, C>
    requires table { table.now ≡ C.table }
    requires may { may_wait scheduler.old lane timer ≡ false }
    ensures same { scheduler.new ≡ scheduler.old }
    ensures refused { WaitWasRefused C.limits lane timer result.why result.section.after }
    ensures nothing { NotesNothing C.limits result.section.before result.section.after scheduler.old }
    ensures back { result.back ≡ back }
{
    let section = scheduler.look(table);
    if scheduler.has_lane(lane) && scheduler.has_timer(timer) {
        let why = Refusal::Full;
        Refused { back, why, section }
    } else {
        let why = Refusal::Gone;
        Refused { back, why, section }
    }
}

/// An operation on a stream or a listener that isn't accepted.
pub(crate) fn refuse_transfer<H: Handler, C: Named>(
    scheduler: &mut Scheduler<H, C>,
    table: &HistoryTable,
    back: Transfer<H>,
) -> Refused<Transfer<H>, C>
    requires table { table.now ≡ C.table }
    requires kind { is_transfer back.kind ≡ true }
    requires may { may_transfer scheduler.old back.lane back.kind ≡ false }
    ensures same { scheduler.new ≡ scheduler.old }
    ensures refused { TransferWasRefused C.limits back.lane back.kind result.why result.section.after }
    ensures nothing { NotesNothing C.limits result.section.before result.section.after scheduler.old }
    ensures back { result.back ≡ back }
{
    let section = scheduler.look(table);
    if scheduler.has_lane(back.lane) && scheduler.has_target(back.kind) {
        let why = Refusal::Full;
        Refused { back, why, section }
    } else {
        let why = Refusal::Gone;
        Refused { back, why, section }
    }
}

/// The state of a strand that isn't made.
pub(crate) fn refuse_strand<H: Handler, C: Named>(
    scheduler: &mut Scheduler<H, C>,
    table: &HistoryTable,
    back: H::State,
) -> Refused<H::State, C>
    requires table { table.now ≡ C.table }
    requires none { any_free scheduler.old.names.strands ≡ false }
    ensures same { scheduler.new ≡ scheduler.old }
    ensures refused { NoStrandWasFree C.limits result.section.after }
    ensures nothing { NotesNothing C.limits result.section.before result.section.after scheduler.old }
    ensures back { result.back ≡ back }
{
    let section = scheduler.look(table);
    let why = Refusal::Full;
    Refused { back, why, section }
}
