//! Which acts the logs of a session have called, and which operations began in them.
ghost use Rattle.std.specs.Prelude.{◌≡◌, ◌||◌, ◌&&◌, ◌==◌, ◌<◌, ◌∷◌, [], ℕ, All, false, length, map, not, slice_index_or};
ghost use Rattle.std.specs.List.{flat_map};
ghost use Rattle.lane_logs.specs.Drops.{has_call};
ghost use Rattle.lane_logs.specs.Labels.{events_in};
ghost use Rattle.lane_logs.specs.LaneLog.{has_begun};

use asio_types::{Event, OpNo};
use lane_logs::LogEntry;
use std::marker::Model;

// Marks a number, if it is among those of the list.
fn mark(marks: &mut [bool], at: u32)
    ensures { (n : ℕ) → n < length marks.old →
        slice_index_or marks.new n false ≡ (slice_index_or marks.old n false || (at == n)) }
{
    if (at as usize) < marks.len() {
        marks[at as usize] = true;
    }
}

// Marks what an event calls or begins.
fn see(event: &Event, called: &mut [bool], begun: &mut [bool])
    ensures called { (n : ℕ) → n < length called.old →
        slice_index_or called.new n false
        ≡ (slice_index_or called.old n false || has_call n (event.now ∷ [])) }
    ensures begun { (n : ℕ) → n < length begun.old →
        slice_index_or begun.new n false
        ≡ (slice_index_or begun.old n false || has_begun n (event.now ∷ [])) }
{
    match *event {
        Event::Call { act } => mark(called, act),
        Event::Begin { op, .. } => mark(begun, op),
        _ => {}
    }
}

// Marks what the events of one log call and begin.
fn see_log(log: &[LogEntry], called: &mut [bool], begun: &mut [bool])
    ensures called { (n : ℕ) → n < length called.old →
        slice_index_or called.new n false
        ≡ (slice_index_or called.old n false || has_call n (events_in log.now)) }
    ensures begun { (n : ℕ) → n < length begun.old →
        slice_index_or begun.new n false
        ≡ (slice_index_or begun.old n false || has_begun n (events_in log.now)) }
{
    for entry in log {
        see(&entry.event, called, begun);
    }
}

// Marks what the events of all logs call and begin.
fn see_logs(logs: &[Vec<LogEntry>], called: &mut [bool], begun: &mut [bool])
    ensures called { (n : ℕ) → n < length called.old →
        slice_index_or called.new n false
        ≡ (slice_index_or called.old n false
        || has_call n (flat_map events_in (map (λ log. log.items) logs.now))) }
    ensures begun { (n : ℕ) → n < length begun.old →
        slice_index_or begun.new n false
        ≡ (slice_index_or begun.old n false
        || has_begun n (flat_map events_in (map (λ log. log.items) logs.now))) }
{
    for log in logs {
        see_log(log.as_slice(), called, begun);
    }
}

/// Which acts the logs of a session have called, and which operations began in them.
#[derive(Drop)]
pub struct SeenActs<'l> {
    logs: &'l [Vec<LogEntry>],
    called: Vec<bool>,
    begun: Vec<bool>,
}

impl<'l> Model for SeenActs<'l> {
    ghost use Rattle.std.specs.Prelude.{length, map};
    ghost use Rattle.std.specs.List.{flat_map};
    ghost use Rattle.lane_turns.specs.Discarding.{AreSeen, SeenView};
    ghost use Rattle.lane_logs.specs.Labels.{events_in};

    ghost Value = { SeenView };

    ghost view = { λ s. record {
      events = flat_map events_in (map (λ log. log.items) s.logs.now);
      acts = length s.called.items;
    } };

    ghost invariant = { λ s. AreSeen (flat_map events_in (map (λ log. log.items) s.logs.now))
        s.called.items s.begun.items };
}

impl<'l> SeenActs<'l> {
    /// Looks through all logs. The room has a mark for each act, and none is set.
    pub fn in_logs(
        logs: &'l [Vec<LogEntry>],
        mut called: Vec<bool>,
        mut begun: Vec<bool>,
    ) -> SeenActs<'l>
        requires calls { All (λ is. is ≡ false) called.items }
        requires begins { All (λ is. is ≡ false) begun.items }
        requires same { length begun.items ≡ length called.items }
        ensures events { result.events ≡ flat_map events_in (map (λ log. log.items) logs.now) }
        ensures acts { result.acts ≡ length called.items }
    {
        see_logs(logs, called.as_mut_slice(), begun.as_mut_slice());
        SeenActs {
            logs,
            called,
            begun,
        }
    }

    /// Whether an operation was initiated and never began.
    pub fn is_left(&self, op: OpNo) -> bool
        requires { op < self.now.acts }
        ensures { result ≡ (has_call op self.now.events && not (has_begun op self.now.events)) }
    {
        self.called[op as usize] && !self.begun[op as usize]
    }

    /// Whether the handler of an operation began.
    pub fn has_begun(&self, op: OpNo) -> bool
        requires { op < self.now.acts }
        ensures { result ≡ has_begun op self.now.events }
    {
        self.begun[op as usize]
    }
}
