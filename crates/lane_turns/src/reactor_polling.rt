//! One attempt at the reactor's lane.
ghost use Rattle.std.specs.Prelude.{◌≡◌, ◌↔◌, ◌+◌, ◌-◌, ◌^◌, ◌<◌, ◌≤◌, false, length, IsTrue};
ghost use Rattle.history_rules.specs.State.{ReactorHalf};
ghost use Rattle.history_rules.specs.Time.{pending_count};
ghost use Rattle.lane_map.specs.LaneNumbers.{cells_of};
ghost use Rattle.proactor_core.specs.Proactor.{Follows, IsSound};
ghost use Rattle.lane_logs.specs.Half.{held_guards};
ghost use Rattle.lane_logs.specs.Parts.{looks_empty, looks_full};
ghost use Rattle.lane_logs.specs.ReactorTurns.{may_take};
ghost use Rattle.lane_turns.specs.Pens.{HasGone};
ghost use Rattle.lane_turns.specs.Polling.{with_pen};
ghost use Rattle.lane_turns.specs.Posting.{FitsClock};
ghost use Rattle.lane_turns.specs.ReactorPolling.{TurnCameTo};
ghost use Rattle.lane_turns.specs.Turning.{HasTurnRoom, KeepsTurns, log_half};

use crate::lane::LaneState;
use crate::lane_poster::PenStart;
use crate::one::One;
use crate::polling::see_next;
use crate::turning::{pass_time, take_request};
use asio_types::ActNo;
use history_rules::is_posting;
use lane_clock::{LaneClock, Note};
use lane_logs::LaneSession;
use lane_map::LaneMap;
use proactor_core::Proactor;
use reactor_trait::Reactor;
use session_script::{Script, scripts_are_well_formed};

/// Whether an act is a request that wasn't taken.
fn may_take<'a, X: Reactor>(script: &Script, proactor: &Proactor<'a, X>, a: ActNo) -> bool
    requires script { proactor.now.script ≡ script.now }
    requires sound { IsSound X.state X.told proactor.now }
    ensures { (half : ReactorHalf) → Follows X.told proactor.now half →
        result ≡ may_take script.now half a }
{
    if a >= script.acts() {
        return false;
    }
    if is_posting(script.act(a)) {
        return false;
    }
    if script.is_stop(a) {
        return false;
    }
    !proactor.was_taken(a)
}

/// Whether time may pass where nothing else is outstanding: the round runs, and something is
/// pending.
fn may_wait<'a, X: Reactor>(proactor: &Proactor<'a, X>, running: bool) -> bool
    ensures { (half : ReactorHalf) → Follows X.told proactor.now half →
        IsTrue result ↔ (IsTrue running × (1 ≤ pending_count half)) }
{
    running && proactor.pending() > 0
}

/// How much work is outstanding where there is none but what is pending and what guards hold.
fn idle_work<'a, X: Reactor>(proactor: &Proactor<'a, X>) -> u64
    requires { length proactor.now.tables.guards < 256 }
    ensures { (half : ReactorHalf) → Follows X.told proactor.now half →
        pending_count half < 2 ^ 32 - 1 →
        result ≡ pending_count half + held_guards half }
{
    proactor.pending() as u64 + proactor.guards() as u64
}

/// Takes the request whose note was seen at the lane's next place, if it is one and wasn't taken,
/// unless a load behind the look finds that the context is stopped. Where the look began is named.
fn take_seen<'a, X: Reactor, N: LaneSession, S: PenStart>(
    clock: &LaneClock,
    script: &'a Script,
    map: &LaneMap<'a>,
    state: &mut LaneState,
    proactor: &mut Proactor<'a, X>,
    note: Note,
) -> One
    requires clock { state.old.pen.seat.clock ≡ clock.now }
    requires script { script.now ≡ N.names.script }
    requires map { map.now ≡ script.now }
    requires fits { FitsClock script.now clock.now }
    requires works { proactor.old.tables.failed ≡ false }
    requires keeps { KeepsTurns N.names X.state X.told X.faults N.faults
        (log_half N.names state.old.pen.log) proactor.old }
    requires room { HasTurnRoom N.names state.old.pen }
    requires seen { HasGone (looks_full state.old.lane state.old.place note) S.start
        state.old.pen }
    requires few { state.old.place + 1 < 2 ^ 32 }
    ensures came { TurnCameTo N.names X.faults result (with_pen state.old S.start) state.new
        proactor.old proactor.new }
    ensures keeps { KeepsTurns N.names X.state X.told X.faults N.faults
        (log_half N.names state.new.pen.log) proactor.new }
    ensures room { HasTurnRoom N.names state.new.pen }
{
    if !may_take(script, proactor, note.op) {
        state.at = state.at.missed_too(note.op);
        return One::Missing(note.op);
    }
    let found = state.pen.load(clock);
    if found.stops != state.at.base {
        return One::Stopped;
    }
    state.at = state.at.one_place_on();
    if !take_request::<X, N>(clock, script, map, &mut state.pen, proactor, note.op) {
        return One::Fault;
    }
    One::Turned
}

/// Lets time pass where nothing was seen at the lane's next place: in a running round, where
/// something is pending, and a load finds that nothing else is outstanding and the context isn't
/// stopped. Where the look began is named.
fn pass_seen<'a, X: Reactor, N: LaneSession, S: PenStart>(
    clock: &LaneClock,
    script: &'a Script,
    map: &LaneMap<'a>,
    state: &mut LaneState,
    proactor: &mut Proactor<'a, X>,
) -> One
    requires clock { state.old.pen.seat.clock ≡ clock.now }
    requires script { script.now ≡ N.names.script }
    requires map { map.now ≡ script.now }
    requires fits { FitsClock script.now clock.now }
    requires works { proactor.old.tables.failed ≡ false }
    requires keeps { KeepsTurns N.names X.state X.told X.faults N.faults
        (log_half N.names state.old.pen.log) proactor.old }
    requires room { HasTurnRoom N.names state.old.pen }
    requires seen { HasGone (looks_empty N.names.script state.old.lane state.old.place) S.start
        state.old.pen }
    ensures came { TurnCameTo N.names X.faults result (with_pen state.old S.start) state.new
        proactor.old proactor.new }
    ensures keeps { KeepsTurns N.names X.state X.told X.faults N.faults
        (log_half N.names state.new.pen.log) proactor.new }
    ensures room { HasTurnRoom N.names state.new.pen }
{
    scripts_are_well_formed(script);
    if !may_wait(proactor, state.at.running) {
        return One::Nothing;
    }
    let load = state.pen.load(clock);
    if load.stops != state.at.base {
        return One::Stopped;
    }
    if load.work != idle_work(proactor) {
        return One::Nothing;
    }
    if !pass_time::<X, N>(clock, script, map, &mut state.pen, proactor) {
        return One::Fault;
    }
    One::Turned
}

/// Looks at the lane's next place, and takes the request that it sees there. Where it sees none, time
/// passes to the next point, in a running round in which something is pending and nothing else is
/// outstanding. A load behind the look finds the outstanding work, and that the context isn't
/// stopped. Whether what is seen may be taken is asked before the load. Where it
/// begins is named.
pub fn poll_reactor<'a, X: Reactor, N: LaneSession, S: PenStart>(
    clock: &LaneClock,
    script: &'a Script,
    map: &LaneMap<'a>,
    state: &mut LaneState,
    proactor: &mut Proactor<'a, X>,
) -> One
    requires start { S.start ≡ state.old.pen }
    requires clock { state.old.pen.seat.clock ≡ clock.now }
    requires script { script.now ≡ N.names.script }
    requires map { map.now ≡ script.now }
    requires fits { FitsClock script.now clock.now }
    requires lane { state.old.lane < length (cells_of script.now) }
    requires keeps { KeepsTurns N.names X.state X.told X.faults N.faults
        (log_half N.names state.old.pen.log) proactor.old }
    requires room { HasTurnRoom N.names state.old.pen }
    ensures came { TurnCameTo N.names X.faults result state.old state.new proactor.old
        proactor.new }
    ensures keeps { KeepsTurns N.names X.state X.told X.faults N.faults
        (log_half N.names state.new.pen.log) proactor.new }
    ensures room { HasTurnRoom N.names state.new.pen }
{
    if proactor.failed() {
        state.pen.load(clock);
        return One::Stopped;
    }
    match see_next(clock, map, &mut state.pen, state.at.lane, state.at.place) {
        Some(note) => take_seen::<X, N, S>(clock, script, map, state, proactor, note),
        None => pass_seen::<X, N, S>(clock, script, map, state, proactor),
    }
}
