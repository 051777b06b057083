ghost use Rattle.std.specs.Prelude.{◌≡◌, ◌<◌, ◌^◌, slice_get};
ghost use Rattle.history_rules.specs.Time.{next_time};
ghost use Rattle.session_orders.specs.Order.{mark_of};
ghost use Rattle.session_orders.specs.Place.{act_event, begin_in, done_in, event_at, other_event, place_of, places_of, tick_in};

use crate::bounds::ReactorKind;
use crate::own::{CODES, SIZES, base, done_place, has_own, own_event_at};
use asio_types::{ActNo, Code, Event, OpNo, Point};
use history_book::Replay;
use history_rules::ActPhase;
use session_script::Script;

/// How many events an act may have next, and how many may come that belong to no act.
pub(crate) const COLUMNS: u64 = 8;

/// What a handler returns, whether it ran or is destroyed.
fn mark(op: OpNo) -> u64
    ensures { result ≡ mark_of op }
{
    1000 + op as u64
}

/// How many places there are.
pub(crate) fn place_count(script: &Script, kind: ReactorKind) -> u64
    ensures count { result ≡ places_of script.now kind }
    ensures small { result < 2 ^ 36 }
{
    let base = base(script);
    if kind.told {
        base
    } else {
        base + CODES * script.acts() as u64 * SIZES
    }
}

/// How a handler may begin.
fn begin_of(phase: ActPhase, op: OpNo) -> Option<Event>
    ensures { result ≡ begin_in phase op }
{
    match phase {
        ActPhase::Ready { code, size, .. } => Some(Event::Begin { op, code, size }),
        ActPhase::Inside => Some(Event::Begin {
            op,
            code: Code::Ok,
            size: 0,
        }),
        _ => None,
    }
}

/// The event of an act in a column.
fn act_event_at(replay: &Replay, act: ActNo, column: u64) -> Option<Event>
    ensures { result ≡ act_event replay.now.state act column }
{
    match column {
        0 => Some(Event::Call { act }),
        1 => Some(Event::Back { act }),
        2 => Some(Event::Stop { act: Some(act) }),
        3 => begin_of(replay.act(act).phase, act),
        4 => Some(Event::End {
            op: act,
            mark: mark(act),
        }),
        5 => Some(Event::Take { act }),
        6 => Some(Event::Dropped {
            op: act,
            mark: mark(act),
        }),
        _ => None,
    }
}

/// How what is due next is told, unless that has a place of its own.
fn done_next(replay: &Replay, kind: ReactorKind) -> Option<Event>
    ensures { result
        ≡ done_in replay.now.script kind (slice_get replay.now.state.reactor.due 0) }
{
    let next = replay.next_due()?;
    if has_own(replay.script(), kind, next.op, next.outcome.1) {
        return None;
    }
    Some(Event::Done {
        op: next.op,
        code: next.outcome.0,
        size: next.outcome.1,
    })
}

/// How time moves next.
fn tick_next(replay: &Replay) -> Option<Event>
    ensures { result ≡ tick_in (next_time replay.now.script replay.now.state.reactor) }
{
    match replay.next_time() {
        Point::Time(now) => Some(Event::Tick { now }),
        Point::Last => None,
    }
}

/// The event of no act in a column.
fn other_event_at(replay: &Replay, kind: ReactorKind, column: u64) -> Option<Event>
    ensures { result ≡ other_event replay.now.script kind replay.now.state.reactor column }
{
    match column {
        0 => done_next(replay, kind),
        1 => tick_next(replay),
        2 => Some(Event::Last),
        3 => if kind.failing {
            Some(Event::Fault)
        } else {
            None
        },
        4 => Some(Event::Ended),
        5 => Some(Event::Stopped),
        6 => Some(Event::Polled),
        _ => Some(Event::Restart),
    }
}

/// The event that may come next at this place, if any may.
pub(crate) fn event_next(replay: &Replay, kind: ReactorKind, place: u64) -> Option<Event>
    requires { place < 2 ^ 36 }
    ensures { result ≡ event_at replay.now.script kind replay.now.state place }
{
    let row = place / COLUMNS;
    let script = replay.script();
    if row < script.acts() as u64 {
        return act_event_at(replay, row as u32, place % COLUMNS);
    }
    let base = base(script);
    if place < base {
        other_event_at(replay, kind, place % COLUMNS)
    } else {
        own_event_at(script, place - base)
    }
}

/// The place of an event.
pub(crate) fn place(script: &Script, kind: ReactorKind, event: Event) -> u64
    ensures place { result ≡ place_of script.now kind event }
    ensures small { result < 2 ^ 50 }
{
    let others = COLUMNS * script.acts() as u64;
    match event {
        Event::Call { act } => COLUMNS * act as u64,
        Event::Back { act } => COLUMNS * act as u64 + 1,
        Event::Stop { act: Some(act) } => COLUMNS * act as u64 + 2,
        Event::Begin { op, .. } => COLUMNS * op as u64 + 3,
        Event::End { op, .. } => COLUMNS * op as u64 + 4,
        Event::Take { act } => COLUMNS * act as u64 + 5,
        Event::Dropped { op, .. } => COLUMNS * op as u64 + 6,
        Event::Done { op, code, size } => done_place(script, kind, op, code, size),
        Event::Tick { .. } => others + 1,
        Event::Last => others + 2,
        Event::Fault => others + 3,
        Event::Ended => others + 4,
        Event::Stopped => others + 5,
        Event::Polled => others + 6,
        Event::Restart | Event::Stop { act: None } => others + 7,
    }
}
