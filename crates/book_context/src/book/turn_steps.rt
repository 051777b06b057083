ghost use Rattle.std.specs.Prelude.{◌≡◌, ◌≢◌, ◌⊎◌, [], IfSome, false, true};
ghost use Rattle.history_rules.specs.Requests.{reactor_after_take};
ghost use Rattle.history_rules.specs.Time.{next_time};
ghost use Rattle.proactor_core.specs.Proactor.{after_point};
ghost use Rattle.book_context.specs.Book.{KeepsHistory};
ghost use Rattle.book_context.specs.BookSteps.{passed_event};
ghost use Rattle.book_context.specs.InTurn.{HasBegun, HasBroken, HasBrokenOff};
ghost use Rattle.book_context.specs.Oldest.{with_request};
ghost use Rattle.book_context.specs.Recorded.{recorded_half};
ghost use Rattle.book_context.specs.Steps.{IsRoundOpen};
ghost use Rattle.book_context.specs.TurnSteps.{CanTurnNow, IsWaiting};

use crate::law::turns_are_recorded;
use crate::record::Record;
use crate::session::Session;
use asio_types::{ActNo, Event, Point};

/// A turn of the reactor begins: it takes a request that was the oldest one.
pub(super) fn begin_take<N: Session>(recording: &mut Record<'_>, a: ActNo)
    requires history { KeepsHistory N.script N.told N.run N.drop N.outside
        (with_request a recording.old) }
    requires can { CanTurnNow N.told recording.old }
    ensures history { KeepsHistory N.script N.told N.run N.drop N.outside recording.new }
    ensures begun { HasBegun N.told recording.old recording.new
        (reactor_after_take recording.old.script N.told (recorded_half N.told recording.old) a) }
{
    turns_are_recorded();
    recording.push(Event::Take { act: a });
}

/// The event of a time point that has passed.
fn passed_event(point: &Point) -> Event
    ensures { result ≡ passed_event point.now }
{
    match *point {
        Point::Time(now) => Event::Tick { now },
        Point::Last => Event::Last,
    }
}

/// A turn of the reactor begins: time moves to the next point.
pub(super) fn begin_tick<N: Session>(recording: &mut Record<'_>, point: &Point)
    requires history { KeepsHistory N.script N.told N.run N.drop N.outside recording.old }
    requires waiting { IsWaiting N.told recording.old }
    requires next { next_time recording.old.script (recorded_half N.told recording.old)
        ≡ point.now }
    ensures history { KeepsHistory N.script N.told N.run N.drop N.outside recording.new }
    ensures begun { HasBegun N.told recording.old recording.new
        (after_point recording.old.script N.told point.now (recorded_half N.told recording.old)) }
{
    turns_are_recorded();
    recording.push(passed_event(point));
}

/// The reactor has failed, before any of a turn was told.
pub(super) fn fail<N: Session>(recording: &mut Record<'_>)
    requires history { KeepsHistory N.script N.told N.run N.drop N.outside recording.old }
    requires round { IsRoundOpen recording.old }
    requires works { (recorded_half N.told recording.old).failed ≡ false }
    requires untold { ((recorded_half N.told recording.old).whole_turn ≡ true)
        ⊎ ((recorded_half N.told recording.old).due ≡ []) }
    requires some { recording.old.events ≢ [] }
    ensures history { KeepsHistory N.script N.told N.run N.drop N.outside recording.new }
    ensures broken { HasBroken N.told recording.old recording.new }
{
    turns_are_recorded();
    recording.push_fault();
}

/// The reactor has failed in a tick, after the time moved to this point, if it moved.
pub(super) fn break_off<N: Session>(recording: &mut Record<'_>, moved: Option<Point>)
    requires history { KeepsHistory N.script N.told N.run N.drop N.outside recording.old }
    requires waiting { IsWaiting N.told recording.old }
    requires next { IfSome moved
        (λ point. next_time recording.old.script (recorded_half N.told recording.old) ≡ point) }
    ensures history { KeepsHistory N.script N.told N.run N.drop N.outside recording.new }
    ensures broken { HasBrokenOff N.told recording.old recording.new moved }
{
    match moved {
        Some(point) => {
            begin_tick::<N>(recording, &point);
            fail::<N>(recording);
        }
        None => fail::<N>(recording),
    }
}
