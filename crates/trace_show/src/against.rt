ghost use Rattle.std.specs.Prelude.{IfNone, IfSome};
ghost use Rattle.asio_types.specs.declared.event.Event.TheVariants as event;
ghost use Rattle.history_rules.specs.Executions.{MayBeginOutside};
ghost use Rattle.history_rules.specs.Legal.{MayHappen};
ghost use Rattle.history_rules.specs.Requests.{MayTurn};
ghost use Rattle.history_rules.specs.Time.{IsIdle};
ghost use Rattle.trace_show.specs.Earlier.{begin_earlier, idle_earlier, turn_earlier};
ghost use Rattle.trace_show.specs.Reason.{Breaks, Fails, begin_condition, idle_condition, turn_condition};

use crate::reason::Reason;
use asio_types::{ActNo, Code, Event, Lane, OpNo, Point};
use history_book::Replay;
use history_rules::ActPhase;

/// Why a call may not come; nothing where it may.
fn against_call(replay: &Replay, a: ActNo) -> Option<Reason>
    ensures some { IfSome result
        (Breaks replay.now.script replay.now.told replay.now.state (event.Call a)) }
    ensures none { IfNone result
        (MayHappen replay.now.script replay.now.told replay.now.state (event.Call a)) }
{
    if !replay.may_call(a) {
        Some(Reason::MayCall)
    } else {
        None
    }
}

/// Why a call may not be back.
fn against_return(replay: &Replay, a: ActNo) -> Option<Reason>
    ensures some { IfSome result
        (Breaks replay.now.script replay.now.told replay.now.state (event.Back a)) }
    ensures none { IfNone result
        (MayHappen replay.now.script replay.now.told replay.now.state (event.Back a)) }
{
    if !replay.may_return(a) {
        Some(Reason::MayReturn)
    } else {
        None
    }
}

/// Why an act may not stop the context.
fn against_stop(replay: &Replay, a: ActNo) -> Option<Reason>
    ensures some { IfSome result
        (Breaks replay.now.script replay.now.told replay.now.state (event.Stop (Some a))) }
    ensures none { IfNone result
        (MayHappen replay.now.script replay.now.told replay.now.state (event.Stop (Some a))) }
{
    if !replay.may_stop(a) {
        Some(Reason::MayStop)
    } else {
        None
    }
}

/// Why nobody may stop the context from outside.
fn against_outside_stop(replay: &Replay) -> Option<Reason>
    ensures some { IfSome result
        (Breaks replay.now.script replay.now.told replay.now.state (event.Stop None)) }
    ensures none { IfNone result
        (MayHappen replay.now.script replay.now.told replay.now.state (event.Stop None)) }
{
    if !replay.round_is_open() {
        Some(Reason::RoundIsOpen)
    } else {
        None
    }
}

/// Why a handler may not begin outside a call.
fn against_outside(replay: &Replay, o: OpNo, code: Code, size: u32) -> Option<Reason>
    ensures some { IfSome result (Fails (MayBeginOutside replay.now.script
        replay.now.state.context o code size)
        (begin_condition replay.now.script replay.now.state o code size)
        (begin_earlier replay.now.script replay.now.state o code size)) }
    ensures none { IfNone result
        (MayBeginOutside replay.now.script replay.now.state.context o code size) }
{
    if !replay.round_is_open() {
        Some(Reason::RoundIsOpen)
    } else if !replay.is_ready_with(o, code, size) {
        Some(Reason::IsReady)
    } else if !replay.lane_is_free(o) {
        Some(Reason::LaneIsFree)
    } else if !replay.is_first_of_lane(o) {
        Some(Reason::IsFirstOfLane)
    } else if !replay.may_start(replay.lane(o)) {
        Some(Reason::MayStart)
    } else {
        None
    }
}

/// Why a handler may not begin.
fn against_begin(replay: &Replay, o: OpNo, code: Code, size: u32) -> Option<Reason>
    ensures some { IfSome result
        (Breaks replay.now.script replay.now.told replay.now.state (event.Begin o code size)) }
    ensures none { IfNone result
        (MayHappen replay.now.script replay.now.told replay.now.state (event.Begin o code size)) }
{
    if replay.may_begin_inside(o, code, size) {
        None
    } else if replay.act(o).phase == ActPhase::Inside {
        Some(Reason::MayBeginInside)
    } else {
        against_outside(replay, o, code, size)
    }
}

/// Why a handler may not end.
fn against_end(replay: &Replay, o: OpNo, mark: u64) -> Option<Reason>
    ensures some { IfSome result
        (Breaks replay.now.script replay.now.told replay.now.state (event.End o mark)) }
    ensures none { IfNone result
        (MayHappen replay.now.script replay.now.told replay.now.state (event.End o mark)) }
{
    if !replay.may_end(o) {
        Some(Reason::MayEnd)
    } else {
        None
    }
}

/// Why no turn of the reactor may begin.
fn against_turn(replay: &Replay) -> Option<Reason>
    ensures some { IfSome result (Fails (MayTurn replay.now.script replay.now.state)
        (turn_condition replay.now.script replay.now.state)
        (turn_earlier replay.now.script replay.now.state)) }
    ensures none { IfNone result (MayTurn replay.now.script replay.now.state) }
{
    if !replay.round_is_open() {
        Some(Reason::RoundIsOpen)
    } else if replay.has_failed() {
        Some(Reason::IsWorking)
    } else if !replay.nothing_due() {
        Some(Reason::NothingIsDue)
    } else if !replay.is_drained() {
        Some(Reason::IsDrained)
    } else if !replay.may_start(Lane::Reactor) {
        Some(Reason::MayStart)
    } else {
        None
    }
}

/// Why a request may not be taken.
fn against_take(replay: &Replay, a: ActNo) -> Option<Reason>
    ensures some { IfSome result
        (Breaks replay.now.script replay.now.told replay.now.state (event.Take a)) }
    ensures none { IfNone result
        (MayHappen replay.now.script replay.now.told replay.now.state (event.Take a)) }
{
    if let Some(reason) = against_turn(replay) {
        Some(reason)
    } else if !replay.is_untaken(a) {
        Some(Reason::IsUntaken)
    } else if !replay.is_first_request(a) {
        Some(Reason::IsFirstRequest)
    } else {
        None
    }
}

/// Why an operation may not complete so.
fn against_done(replay: &Replay, o: OpNo, code: Code, size: u32) -> Option<Reason>
    ensures some { IfSome result
        (Breaks replay.now.script replay.now.told replay.now.state (event.Done o code size)) }
    ensures none { IfNone result
        (MayHappen replay.now.script replay.now.told replay.now.state (event.Done o code size)) }
{
    if replay.has_failed() {
        Some(Reason::IsWorking)
    } else if !replay.may_tell(o, code, size) {
        Some(Reason::MayTell)
    } else if replay.nothing_due() && !replay.is_in_turn() {
        Some(Reason::IsInTurn)
    } else {
        None
    }
}

/// Why the context isn't idle.
fn against_idle(replay: &Replay) -> Option<Reason>
    ensures some { IfSome result (Fails (IsIdle replay.now.script replay.now.state)
        (idle_condition replay.now.script replay.now.state)
        (idle_earlier replay.now.script replay.now.state)) }
    ensures none { IfNone result (IsIdle replay.now.script replay.now.state) }
{
    if let Some(reason) = against_turn(replay) {
        Some(reason)
    } else if !replay.runs() {
        Some(Reason::IsRunning)
    } else if !replay.no_call_is_open() {
        Some(Reason::NoCallIsOpen)
    } else if !replay.all_quiet() {
        Some(Reason::AllQuiet)
    } else if replay.pending() == 0 {
        Some(Reason::HasPending)
    } else {
        None
    }
}

/// Why time may not move to this moment.
fn against_tick(replay: &Replay, now: u64) -> Option<Reason>
    ensures some { IfSome result
        (Breaks replay.now.script replay.now.told replay.now.state (event.Tick now)) }
    ensures none { IfNone result
        (MayHappen replay.now.script replay.now.told replay.now.state (event.Tick now)) }
{
    if let Some(reason) = against_idle(replay) {
        Some(reason)
    } else if replay.next_time() != Point::Time(now) {
        Some(Reason::IsNextTime)
    } else {
        None
    }
}

/// Why the last time point may not have passed.
fn against_last(replay: &Replay) -> Option<Reason>
    ensures some { IfSome result
        (Breaks replay.now.script replay.now.told replay.now.state event.Last) }
    ensures none { IfNone result
        (MayHappen replay.now.script replay.now.told replay.now.state event.Last) }
{
    if let Some(reason) = against_idle(replay) {
        Some(reason)
    } else if replay.next_time() != Point::Last {
        Some(Reason::IsNextTime)
    } else {
        None
    }
}

/// Why the reactor may not fail.
fn against_fault(replay: &Replay) -> Option<Reason>
    ensures some { IfSome result
        (Breaks replay.now.script replay.now.told replay.now.state event.Fault) }
    ensures none { IfNone result
        (MayHappen replay.now.script replay.now.told replay.now.state event.Fault) }
{
    if replay.has_failed() {
        Some(Reason::IsWorking)
    } else if replay.event_count() != 0 && !replay.may_break_off() {
        Some(Reason::MayBreakOff)
    } else {
        None
    }
}

/// Why a round may not close for want of work.
fn against_ended(replay: &Replay) -> Option<Reason>
    ensures some { IfSome result
        (Breaks replay.now.script replay.now.told replay.now.state event.Ended) }
    ensures none { IfNone result
        (MayHappen replay.now.script replay.now.told replay.now.state event.Ended) }
{
    if !replay.round_is_open() {
        Some(Reason::RoundIsOpen)
    } else if replay.is_stopped() {
        Some(Reason::IsGoing)
    } else if replay.outstanding() != 0 {
        Some(Reason::HasNoWork)
    } else {
        None
    }
}

/// Why a round may not close as stopped.
fn against_stopped(replay: &Replay) -> Option<Reason>
    ensures some { IfSome result
        (Breaks replay.now.script replay.now.told replay.now.state event.Stopped) }
    ensures none { IfNone result
        (MayHappen replay.now.script replay.now.told replay.now.state event.Stopped) }
{
    if !replay.round_is_open() {
        Some(Reason::RoundIsOpen)
    } else if !replay.is_stopped() {
        Some(Reason::IsStopped)
    } else if !replay.no_call_is_open() {
        Some(Reason::NoCallIsOpen)
    } else if !replay.nothing_runs() {
        Some(Reason::NothingRuns)
    } else if !replay.nothing_due() {
        Some(Reason::NothingIsDue)
    } else if !replay.is_drained() {
        Some(Reason::IsDrained)
    } else if replay.has_failed() {
        Some(Reason::IsWorking)
    } else {
        None
    }
}

/// Why a round of polling may not close.
fn against_polled(replay: &Replay) -> Option<Reason>
    ensures some { IfSome result
        (Breaks replay.now.script replay.now.told replay.now.state event.Polled) }
    ensures none { IfNone result
        (MayHappen replay.now.script replay.now.told replay.now.state event.Polled) }
{
    if !replay.round_is_open() {
        Some(Reason::RoundIsOpen)
    } else if replay.runs() {
        Some(Reason::IsPolling)
    } else if replay.is_stopped() {
        Some(Reason::IsGoing)
    } else if replay.outstanding() == 0 {
        Some(Reason::HasWork)
    } else if !replay.all_quiet() {
        Some(Reason::AllQuiet)
    } else if !replay.nothing_due() {
        Some(Reason::NothingIsDue)
    } else if !replay.is_drained() {
        Some(Reason::IsDrained)
    } else {
        None
    }
}

/// Why the context may not be restarted.
fn against_restart(replay: &Replay) -> Option<Reason>
    ensures some { IfSome result
        (Breaks replay.now.script replay.now.told replay.now.state event.Restart) }
    ensures none { IfNone result
        (MayHappen replay.now.script replay.now.told replay.now.state event.Restart) }
{
    if !replay.has_round_left() {
        Some(Reason::HasRoundLeft)
    } else if !replay.restarts() {
        Some(Reason::HasRestart)
    } else if replay.is_restarted() {
        Some(Reason::IsRestartedOnce)
    } else if !replay.nothing_runs() {
        Some(Reason::NothingRuns)
    } else if replay.has_failed() {
        Some(Reason::IsWorking)
    } else {
        None
    }
}

/// Why a handler may not be destroyed.
fn against_drop(replay: &Replay, o: OpNo, mark: u64) -> Option<Reason>
    ensures some { IfSome result
        (Breaks replay.now.script replay.now.told replay.now.state (event.Dropped o mark)) }
    ensures none { IfNone result
        (MayHappen replay.now.script replay.now.told replay.now.state (event.Dropped o mark)) }
{
    if !replay.is_over() {
        Some(Reason::IsOver)
    } else if !replay.is_next_dropped(o) {
        Some(Reason::IsNextDropped)
    } else {
        None
    }
}

/// The first condition of an event that doesn't hold of the events so far; nothing where the event
/// may come next. Takes no memory, and looks at each act, stream and line of the world a few times.
pub fn reason_against(replay: &Replay, event: Event) -> Option<Reason>
    ensures some { IfSome result
        (Breaks replay.now.script replay.now.told replay.now.state event) }
    ensures none { IfNone result
        (MayHappen replay.now.script replay.now.told replay.now.state event) }
{
    match event {
        Event::Call { act } => against_call(replay, act),
        Event::Back { act } => against_return(replay, act),
        Event::Stop { act: Some(act) } => against_stop(replay, act),
        Event::Stop { act: None } => against_outside_stop(replay),
        Event::Begin { op, code, size } => against_begin(replay, op, code, size),
        Event::End { op, mark } => against_end(replay, op, mark),
        Event::Take { act } => against_take(replay, act),
        Event::Done { op, code, size } => against_done(replay, op, code, size),
        Event::Tick { now } => against_tick(replay, now),
        Event::Last => against_last(replay),
        Event::Fault => against_fault(replay),
        Event::Ended => against_ended(replay),
        Event::Stopped => against_stopped(replay),
        Event::Polled => against_polled(replay),
        Event::Restart => against_restart(replay),
        Event::Dropped { op, mark } => against_drop(replay, op, mark),
    }
}
