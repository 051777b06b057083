//! One turn of the reactor: it takes a request, or passes to a time point, and all that completes
//! by that is told.
ghost use Rattle.std.specs.Prelude.{◌≡◌, ◌≤◌, ◌⊎◌, ◌∷◌, [], false, not, nat_lt, true, if◌then◌else◌, IfErr, IfSome};
ghost use Rattle.asio_types.specs.Faults.{Rose};
ghost use Rattle.asio_types.specs.declared.event.Event.{Event};
ghost use Rattle.history_rules.specs.Kinds.{is_control};
ghost use Rattle.history_rules.specs.Time.{next_time, pending_count};
ghost use Rattle.lane_logs.specs.Labels.{shows};
ghost use Rattle.lane_logs.specs.Parts.{fault_label};
ghost use Rattle.lane_logs.specs.ReactorTurns.{may_take, point_event, take_change};
ghost use Rattle.lane_turns.specs.Pens.{HasGone, MayGo};
ghost use Rattle.lane_turns.specs.Posting.{FitsClock};
ghost use Rattle.lane_turns.specs.Turning.{HasFailedAlone, HasTurned, HasTurnRoom, KeepsTurns, log_half};

use crate::pen::Pen;
use crate::telling::tell_all;
use asio_types::{ActNo, Event, Point};
use history_rules::is_control;
use lane_clock::{Change, Found, LaneClock};
use lane_logs::LaneSession;
use lane_map::LaneMap;
use proactor_core::Proactor;
use reactor_trait::Reactor;
use session_script::{Act, Script, scripts_are_well_formed};

/// What the take of a request changes, with so many guards held before it and after it.
fn take_change(act: &Act, before: u32, after: u32) -> Change
    ensures { result ≡ (if is_control act.now
        then (if nat_lt after before then Change.DownTwo else Change.Down) else Change.Same) }
{
    if !is_control(act) {
        return Change::Same;
    }
    if after < before {
        Change::DownTwo
    } else {
        Change::Down
    }
}

/// The event by which time moves to a point.
fn point_event(point: &Point) -> Event
    ensures { result ≡ point_event point.now }
{
    match *point {
        Point::Time(now) => Event::Tick { now },
        Point::Last => Event::Last,
    }
}

/// The reactor has failed.
fn draw_fault(pen: &mut Pen, clock: &LaneClock) -> Found
    requires clock { pen.old.seat.clock ≡ clock.now }
    requires room { MayGo pen.old 1 0 }
    ensures { HasGone (fault_label result ∷ []) pen.old pen.new }
{
    pen.draw(clock, Change::Stop, Event::Fault)
}

/// The reactor takes a request, and all that completes by it is told. Answers whether it did: where
/// the reactor fails, nothing is told but that.
pub fn take_request<'a, X: Reactor, N: LaneSession>(
    clock: &LaneClock,
    script: &'a Script,
    map: &LaneMap<'a>,
    pen: &mut Pen,
    proactor: &mut Proactor<'a, X>,
    a: ActNo,
) -> bool
    requires clock { pen.old.seat.clock ≡ clock.now }
    requires script { script.now ≡ N.names.script }
    requires map { map.now ≡ script.now }
    requires fits { FitsClock script.now clock.now }
    requires works { proactor.old.tables.failed ≡ false }
    requires keeps { KeepsTurns N.names X.state X.told X.faults N.faults
        (log_half N.names pen.old.log) proactor.old }
    requires room { HasTurnRoom N.names pen.old }
    requires request { may_take N.names.script (log_half N.names pen.old.log) a ≡ true }
    ensures keeps { KeepsTurns N.names X.state X.told X.faults N.faults
        (log_half N.names pen.new.log) proactor.new }
    ensures room { HasTurnRoom N.names pen.new }
    ensures turned { HasTurned N.names (Event.Take a)
        (take_change N.names.script (log_half N.names pen.old.log) a) (not result) pen.old
        pen.new }
    ensures stood { result ≡ true →
        X.faults proactor.new.reactor ≡ X.faults proactor.old.reactor }
    ensures rose { result ≡ false →
        Rose (X.faults proactor.old.reactor) (X.faults proactor.new.reactor) }
{
    scripts_are_well_formed(script);
    let act = script.act(a);
    let before = proactor.guards();
    match proactor.take(a) {
        Ok(()) => {
            let change = take_change(act, before, proactor.guards());
            pen.draw(clock, change, Event::Take { act: a });
            tell_all::<X, N>(clock, script, map, pen, proactor);
            true
        }
        Err(_) => {
            let change = take_change(act, before, proactor.guards());
            pen.draw(clock, change, Event::Take { act: a });
            draw_fault(pen, clock);
            false
        }
    }
}

/// Time moves to the next point, and all that completes there is told. Answers whether it did: where
/// the reactor fails, nothing is told but that, and that time moved, if it did.
pub fn pass_time<'a, X: Reactor, N: LaneSession>(
    clock: &LaneClock,
    script: &'a Script,
    map: &LaneMap<'a>,
    pen: &mut Pen,
    proactor: &mut Proactor<'a, X>,
) -> bool
    requires clock { pen.old.seat.clock ≡ clock.now }
    requires script { script.now ≡ N.names.script }
    requires map { map.now ≡ script.now }
    requires fits { FitsClock script.now clock.now }
    requires works { proactor.old.tables.failed ≡ false }
    requires keeps { KeepsTurns N.names X.state X.told X.faults N.faults
        (log_half N.names pen.old.log) proactor.old }
    requires room { HasTurnRoom N.names pen.old }
    requires pending { 1 ≤ pending_count (log_half N.names pen.old.log) }
    ensures keeps { KeepsTurns N.names X.state X.told X.faults N.faults
        (log_half N.names pen.new.log) proactor.new }
    ensures room { HasTurnRoom N.names pen.new }
    ensures passed { result ≡ true → HasTurned N.names
        (point_event (next_time N.names.script (log_half N.names pen.old.log))) Change.Same false
        pen.old pen.new }
    ensures failed { result ≡ false → HasTurned N.names
        (point_event (next_time N.names.script (log_half N.names pen.old.log))) Change.Same true
        pen.old pen.new ⊎ HasFailedAlone pen.old pen.new }
    ensures stood { result ≡ true →
        X.faults proactor.new.reactor ≡ X.faults proactor.old.reactor }
    ensures rose { result ≡ false →
        Rose (X.faults proactor.old.reactor) (X.faults proactor.new.reactor) }
{
    scripts_are_well_formed(script);
    match proactor.tick() {
        Ok(point) => {
            pen.draw(clock, Change::Same, point_event(&point));
            tell_all::<X, N>(clock, script, map, pen, proactor);
            true
        }
        Err(fault) => match fault.moved {
            Some(point) => {
                pen.draw(clock, Change::Same, point_event(&point));
                draw_fault(pen, clock);
                false
            }
            None => {
                draw_fault(pen, clock);
                false
            }
        },
    }
}
