//! Logs that are written by hand: who draws the next position, and for which event.

ghost use Rattle.std.specs.Prelude.{◌≡◌, ◌≤◌, ◌<◌, ◌+◌, [], ◌∷◌, ◌++◌, length, map};
ghost use Rattle.history_merge.specs.Ordering.{ArePositioned};

use crate::wanted::MEMORY;
use asio_types::Event;
use lane_logs::LogEntry;
use std::alloc::Global;
use std::process::Abort;

/// Draws in the order of their positions: the number of the seat, and the event.
pub(crate) type Draws = &'static [(u8, Event)];

/// Adds a log.
fn add_log<R: Abort>(rt: &R, logs: &mut Vec<Vec<LogEntry>>, log: Vec<LogEntry>)
    ensures { logs.new.items ≡ logs.old.items ++ log ∷ [] }
{
    logs.push(log).expect(rt, MEMORY);
}

/// The logs of so many seats of which none drew anything.
fn empty_logs<R: Abort>(rt: &R, alloc: Global, seats: u8) -> Vec<Vec<LogEntry>>
    ensures { ArePositioned (map (λ log. log.items) result.items) 0 }
{
    let mut logs = Vec::new(alloc);
    for _ in 0..seats {
        add_log(rt, &mut logs, Vec::new(alloc));
    }
    logs
}

/// Appends an entry to a log.
fn add<R: Abort>(rt: &R, log: &mut Vec<LogEntry>, entry: LogEntry)
    ensures { log.new.items ≡ log.old.items ++ entry ∷ [] }
{
    log.push(entry).expect(rt, MEMORY);
}

/// A seat draws the next position.
fn draw<R: Abort>(rt: &R, logs: &mut Vec<Vec<LogEntry>>, count: u32, seat: u8, event: Event)
    requires there { seat < length logs.old.items }
    requires positioned { ArePositioned (map (λ log. log.items) logs.old.items) count }
    ensures { ArePositioned (map (λ log. log.items) logs.new.items) (count + 1) }
{
    let log = &mut logs[seat as usize];
    let entry = LogEntry {
        position: count as u64,
        event,
    };
    add(rt, log, entry);
}

/// The logs of so many seats that drew so, and how many draws there were.
pub(crate) fn logs_of<R: Abort>(
    rt: &R,
    alloc: Global,
    seats: u8,
    draws: &[(u8, Event)],
) -> (Vec<Vec<LogEntry>>, u32)
    requires { length draws.now ≤ 32 }
    ensures positioned { ArePositioned (map (λ log. log.items) result.0.items) result.1 }
    ensures count { result.1 ≤ 32 }
{
    let mut logs = empty_logs(rt, alloc, seats);
    let mut count = 0u32;
    for &(seat, event) in draws {
        assert!(rt; (seat as usize) < logs.len());
        draw(rt, &mut logs, count, seat, event);
        count += 1;
    }
    (logs, count)
}
