use crate::detail::Detail;
use crate::found::Against;
use crate::lines::EventKind;
use crate::reason::Reason;
use crate::situation::Situation;
use asio_types::{ActNo, Code, Event, Lane, NoMemory, OpNo, Point};
use history_rules::{ActPhase, CallPhase, Cause};

/// What stands against an event that breaks this condition, with its lines.
pub(crate) fn explain(
    detail: &mut Detail,
    at: &Situation,
    event: Event,
    reason: Reason,
) -> Result<(), NoMemory> {
    detail.subject(event)?;
    detail.words(": ")?;
    explain_event(detail, at, event, reason)?;
    detail.words("\n")
}

fn explain_event(
    detail: &mut Detail,
    at: &Situation,
    event: Event,
    reason: Reason,
) -> Result<(), NoMemory> {
    match event {
        Event::Call { act } => explain_call(detail, at, act),
        Event::Back { act } => explain_return(detail, at, act),
        Event::Stop { act: Some(act) } => explain_stop(detail, at, act),
        Event::Take { act } => explain_take(detail, at, act, reason),
        other => explain_of_handler(detail, at, other, reason),
    }
}

fn explain_of_handler(
    detail: &mut Detail,
    at: &Situation,
    event: Event,
    reason: Reason,
) -> Result<(), NoMemory> {
    match event {
        Event::Begin { op, .. } => explain_begin(detail, at, op, reason),
        Event::End { op, .. } => explain_end(detail, at, op),
        Event::Done { op, .. } => explain_done(detail, at, op, reason),
        Event::Dropped { op, .. } => explain_drop(detail, at, op, reason),
        _ => explain_context(detail, at, reason),
    }
}

fn explain_call(detail: &mut Detail, at: &Situation, a: ActNo) -> Result<(), NoMemory> {
    let script = at.replay.script();
    if a >= script.acts() {
        return at.act(detail, a);
    }
    match script.parent_of(a) {
        Some((o, class)) => at.body(detail, o, class),
        None => explain_opening(detail, at),
    }
}

/// What stands against a call of `open`.
fn explain_opening(detail: &mut Detail, at: &Situation) -> Result<(), NoMemory> {
    if at.replay.has_failed() {
        return detail.at_line(
            "the reactor failed before `open`, at line ",
            at.line_of_event(Event::Fault),
        );
    }
    detail.words("it stands in `open`, where ")?;
    at.next_call(detail, at.replay.script().opening())
}

fn explain_return(detail: &mut Detail, at: &Situation, a: ActNo) -> Result<(), NoMemory> {
    let script = at.replay.script();
    if a >= script.acts() {
        return at.act(detail, a);
    }
    match at.replay.act(a).call {
        CallPhase::Open { .. } => explain_open_call(detail, at, a, script.is_stop(a)),
        _ => at.call(detail, a),
    }
}

fn explain_open_call(
    detail: &mut Detail,
    at: &Situation,
    a: ActNo,
    is_stop: bool,
) -> Result<(), NoMemory> {
    if is_stop {
        return detail.words("it is a `stop` that hasn't stopped the context");
    }
    detail.words("what it dispatched runs inside its call: ")?;
    at.act(detail, a)
}

fn explain_stop(detail: &mut Detail, at: &Situation, a: ActNo) -> Result<(), NoMemory> {
    let script = at.replay.script();
    if a >= script.acts() {
        return at.act(detail, a);
    }
    if script.is_stop(a) {
        return at.call(detail, a);
    }
    detail.field("act ", a as u64)?;
    detail.words(" is no `stop`")
}

fn explain_begin(
    detail: &mut Detail,
    at: &Situation,
    o: OpNo,
    reason: Reason,
) -> Result<(), NoMemory> {
    match reason {
        Reason::MayBeginInside => {
            detail.words("it was dispatched, and begins with `ok 0` while its call is open")
        }
        Reason::IsReady => {
            detail.words("it isn't ready with this code and size: ")?;
            at.act(detail, o)
        }
        Reason::LaneIsFree => explain_busy_lane(detail, at, o),
        Reason::IsFirstOfLane => explain_order(detail, at, o),
        Reason::MayStart => explain_stopped_lane(detail, at, at.replay.lane(o)),
        other => explain_context(detail, at, other),
    }
}

fn explain_busy_lane(detail: &mut Detail, at: &Situation, o: OpNo) -> Result<(), NoMemory> {
    at.lane(detail, at.replay.lane(o))?;
    detail.words(" isn't free: ")?;
    match at.first(Against::RunsOnLaneOf(o)) {
        Some(n) => explain_running(detail, at, n),
        None => Ok(()),
    }
}

fn explain_running(detail: &mut Detail, at: &Situation, n: ActNo) -> Result<(), NoMemory> {
    detail.field("operation ", n as u64)?;
    detail.at_line(" runs there since line ", at.line(EventKind::Begun, n))
}

fn explain_order(detail: &mut Detail, at: &Situation, o: OpNo) -> Result<(), NoMemory> {
    let Some(n) = at.first(Against::GoesBefore(o)) else {
        return Ok(());
    };
    detail.field("operation ", n as u64)?;
    detail.words(" of ")?;
    at.lane(detail, at.replay.lane(o))?;
    explain_ready_before(detail, at, n)
}

fn explain_ready_before(detail: &mut Detail, at: &Situation, n: ActNo) -> Result<(), NoMemory> {
    detail.words(" goes before it: ")?;
    match at.replay.act(n).phase {
        ActPhase::Ready {
            cause: Cause::Completed { .. },
            ..
        } => detail.at_line("it was told at line ", at.line(EventKind::Done, n)),
        _ => detail.at_line("its posting was back at line ", at.line(EventKind::Back, n)),
    }
}

fn explain_stopped_lane(detail: &mut Detail, at: &Situation, lane: Lane) -> Result<(), NoMemory> {
    at.lane(detail, lane)?;
    detail.words(" may begin nothing more: the context was stopped")?;
    detail.at_line(" at line ", at.line_of_stop())?;
    detail.at_line(
        ", and the lane had its one more turn at line ",
        at.line_since_stop(lane),
    )
}

fn explain_end(detail: &mut Detail, at: &Situation, o: OpNo) -> Result<(), NoMemory> {
    match at.replay.act(o).phase {
        ActPhase::Running { class, .. } => {
            detail.words("its calls aren't all back: ")?;
            at.body(detail, o, class)
        }
        _ => at.act(detail, o),
    }
}

fn explain_take(
    detail: &mut Detail,
    at: &Situation,
    a: ActNo,
    reason: Reason,
) -> Result<(), NoMemory> {
    match reason {
        Reason::IsUntaken => {
            detail.words("it isn't a request that waits: ")?;
            at.act(detail, a)
        }
        Reason::IsFirstRequest => match at.first(Against::IsTakenBefore(a)) {
            Some(n) => {
                detail.field("request ", n as u64)?;
                let line = at.line(EventKind::Back, n);
                detail.at_line(" is taken before it: its call was back at line ", line)
            }
            None => Ok(()),
        },
        other => explain_context(detail, at, other),
    }
}

fn explain_done(
    detail: &mut Detail,
    at: &Situation,
    o: OpNo,
    reason: Reason,
) -> Result<(), NoMemory> {
    match (reason, at.replay.next_due()) {
        (Reason::MayTell, Some(head)) => {
            explain_due(
                detail,
                "what is due next is operation ",
                head.op,
                " with ",
                head.outcome,
            )?;
            at.sizes_cut_off(detail, head.op, head.outcome.0)
        }
        (Reason::MayTell, None) => {
            detail.words("it doesn't complete so now, and nothing is due: ")?;
            at.act(detail, o)?;
            at.sizes_untold(detail, o)
        }
        (other, _) => explain_context(detail, at, other),
    }
}

/// What is due next, and its outcome behind these words.
fn explain_due(
    detail: &mut Detail,
    words: &str,
    op: OpNo,
    with: &str,
    outcome: (Code, u32),
) -> Result<(), NoMemory> {
    detail.field(words, op as u64)?;
    detail.words(with)?;
    detail.outcome(outcome.0, outcome.1)
}

fn explain_drop(
    detail: &mut Detail,
    at: &Situation,
    o: OpNo,
    reason: Reason,
) -> Result<(), NoMemory> {
    match (reason, at.first(Against::IsUnspent)) {
        (Reason::IsNextDropped, Some(n)) if n < o => {
            detail.field("operation ", n as u64)?;
            detail.words(" is destroyed before it")
        }
        (Reason::IsNextDropped, _) => at.act(detail, o),
        (other, _) => explain_context(detail, at, other),
    }
}

/// What stands against what the whole context does.
fn explain_context(detail: &mut Detail, at: &Situation, reason: Reason) -> Result<(), NoMemory> {
    match context_words(reason) {
        Some(words) => detail.words(words),
        None => explain_rounds(detail, at, reason),
    }
}

/// What stands against an event, where it is nothing of any act, line or round.
fn context_words(reason: Reason) -> Option<&'static str> {
    match reason {
        Reason::IsInTurn => Some("no turn of the reactor has begun since the round began"),
        Reason::HasPending => Some("nothing is pending"),
        Reason::IsStopped => Some("the context isn't stopped"),
        Reason::HasWork => Some("nothing is outstanding"),
        _ => None,
    }
}

/// What of the rounds and the time stands against an event.
fn explain_rounds(detail: &mut Detail, at: &Situation, reason: Reason) -> Result<(), NoMemory> {
    match reason {
        Reason::RoundIsOpen | Reason::HasRoundLeft => explain_round(detail, at),
        Reason::MayBreakOff => explain_turn(detail, at),
        Reason::MayStart => explain_stopped_lane(detail, at, Lane::Reactor),
        Reason::IsNextTime => explain_time(detail, at),
        other => explain_kind_of_round(detail, at, other),
    }
}

/// What of the kind of the round stands against an event.
fn explain_kind_of_round(
    detail: &mut Detail,
    at: &Situation,
    reason: Reason,
) -> Result<(), NoMemory> {
    match reason {
        Reason::IsRunning => explain_pace(detail, at, "round ", " is one of `poll`"),
        Reason::IsPolling => explain_pace(detail, at, "round ", " is one of `run`"),
        Reason::HasRestart => explain_pace(detail, at, "round ", " has no `restart`"),
        Reason::IsOver => explain_going_on(detail, at),
        other => explain_quiet(detail, at, other),
    }
}

/// Why the session isn't over.
fn explain_going_on(detail: &mut Detail, at: &Situation) -> Result<(), NoMemory> {
    if at.replay.has_failed() {
        explain_first(
            detail,
            at,
            "the reactor failed, and a handler isn't done: ",
            Against::Runs,
        )
    } else {
        explain_pace(detail, at, "the session goes on: round ", " isn't closed")
    }
}

fn explain_turn(detail: &mut Detail, at: &Situation) -> Result<(), NoMemory> {
    match at.replay.next_due() {
        Some(head) if at.replay.round_is_open() => explain_due(
            detail,
            "a part of this turn was told, and operation ",
            head.op,
            " is due with ",
            head.outcome,
        ),
        _ => explain_round(detail, at),
    }
}

fn explain_round(detail: &mut Detail, at: &Situation) -> Result<(), NoMemory> {
    let rounds = at.replay.script().rounds().len() as u64;
    if at.replay.closings() >= rounds {
        detail.words("no round is open: all are closed")
    } else if !at.replay.has_round_left() {
        detail.words("no round is open: in `open` ")?;
        at.next_call(detail, at.replay.script().opening())
    } else {
        explain_closed_round(detail, at)
    }
}

/// Why the next round isn't open, though `open` is over.
fn explain_closed_round(detail: &mut Detail, at: &Situation) -> Result<(), NoMemory> {
    if at.replay.restarts() && !at.replay.is_restarted() {
        explain_pace(
            detail,
            at,
            "no round is open: the `restart` of round ",
            " hasn't come",
        )
    } else {
        detail.words("no round is open: handlers are being destroyed")
    }
}

/// The number of the round, between these words.
fn explain_pace(
    detail: &mut Detail,
    at: &Situation,
    before: &str,
    behind: &str,
) -> Result<(), NoMemory> {
    detail.field(before, at.replay.closings())?;
    detail.words(behind)
}

fn explain_time(detail: &mut Detail, at: &Situation) -> Result<(), NoMemory> {
    match at.replay.next_time() {
        Point::Time(now) => detail.field("the next time point is ", now),
        Point::Last => detail.words("no time point is left: `last` comes"),
    }
}

/// What has to be over first.
fn explain_quiet(detail: &mut Detail, at: &Situation, reason: Reason) -> Result<(), NoMemory> {
    match reason {
        Reason::NothingIsDue => match at.replay.next_due() {
            Some(head) => explain_due(
                detail,
                "not all of the last turn was told: operation ",
                head.op,
                " is due with ",
                head.outcome,
            ),
            None => Ok(()),
        },
        Reason::IsGoing => {
            detail.words("the context was stopped")?;
            detail.at_line(" at line ", at.line_of_stop())
        }
        Reason::IsDrained => {
            let line = at.line_of_event(Event::Last);
            detail.at_line(
                "operations of streams are still to complete since `last` at line ",
                line,
            )?;
            explain_first(detail, at, ": ", Against::IsPendingOnStream)
        }
        other => explain_since(detail, at, other),
    }
}

/// The line of the event after which a condition no longer holds.
fn explain_since(detail: &mut Detail, at: &Situation, reason: Reason) -> Result<(), NoMemory> {
    let (event, words) = match reason {
        Reason::IsWorking => (Event::Fault, "the reactor failed at line "),
        Reason::IsRestartedOnce => (Event::Restart, "the `restart` of this round came at line "),
        other => return explain_acts(detail, at, other),
    };
    detail.at_line(words, at.line_of_event(event))
}

/// What has become of the first act that stands against an event.
fn explain_acts(detail: &mut Detail, at: &Situation, reason: Reason) -> Result<(), NoMemory> {
    match reason {
        Reason::AllQuiet => explain_first(detail, at, "not idle: ", Against::IsNotQuiet),
        Reason::NoCallIsOpen => explain_first(
            detail,
            at,
            "a call is open: ",
            Against::IsBeingCalled,
        ),
        Reason::NothingRuns => explain_first(detail, at, "", Against::Runs),
        Reason::HasNoWork => {
            detail.field("outstanding is ", at.replay.outstanding())?;
            explain_first(detail, at, ": ", Against::IsOutstanding)
        }
        _ => Ok(()),
    }
}

fn explain_first(
    detail: &mut Detail,
    at: &Situation,
    words: &str,
    against: Against,
) -> Result<(), NoMemory> {
    detail.words(words)?;
    match (against, at.first(against)) {
        (Against::IsBeingCalled, Some(n)) => at.call(detail, n),
        (_, Some(n)) => at.act(detail, n),
        (_, None) => detail.words("a guard is held"),
    }
}
