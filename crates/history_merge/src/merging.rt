ghost use Rattle.std.specs.Prelude.{◌≡◌, ◌+◌, ◌≤◌, ◌++◌, length, map};
ghost use Rattle.lane_logs.specs.KeptLogs.{logs_in};
ghost use Rattle.lane_logs.specs.Logs.{AreLogs};
ghost use Rattle.history_merge.specs.Merging.{IsLegalMerging, IsMerging, IsPutTogether};
ghost use Rattle.history_merge.specs.Ordering.{ArePositioned};
ghost use Rattle.history_merge.specs.Room.{most_merged};

use crate::law::{logs_are_positioned, merged_logs_are_legal, merged_logs_fit};
use crate::ordering::in_order;
use crate::room::HistoryRoom;
use asio_types::Event;
use history_book::History;
use lane_logs::{LaneSession, LogEntry, Logs};
use session_script::{Script, scripts_are_well_formed};

/// Appends events to a history in the room that it has.
fn append(history: History, events: &[Event]) -> History
    requires { length events.now ≤ history.spare }
    ensures events { result.events ≡ history.events ++ events.now }
    ensures spare { result.spare + length events.now ≡ history.spare }
{
    let mut longer = history;
    for event in events {
        longer.push_reserved(*event);
    }
    longer
}

/// Puts the entries of all logs in the order of their positions, which are the numbers below the
/// count, and the drops behind them. Takes no memory but the room that is given. Linear in the events.
pub fn put_together(
    entries: &[Vec<LogEntry>],
    drops: &[Event],
    count: u32,
    room: HistoryRoom,
) -> History
    requires positioned { ArePositioned (map (λ log. log.items) entries.now) count }
    requires room { count + length drops.now ≤ room }
    ensures { IsPutTogether (map (λ log. log.items) entries.now) count drops.now result.events }
{
    let HistoryRoom { ordered, history } = room;
    let ordered = in_order(entries, count, ordered);
    append(append(history, ordered.as_slice()), drops)
}

/// Puts the logs of a session together: what comes out is one legal history of its script on one
/// `io_context`, with the marks that are named. Takes no memory but the room that is given, which is
/// made by `HistoryRoom::make` for the script. Linear in the events.
pub fn merge<N: LaneSession>(logs: &Logs, script: &Script, room: HistoryRoom) -> History
    requires script { script.now ≡ N.names.script }
    requires logs { AreLogs N.names (logs_in logs.now) }
    requires room { most_merged script.now ≤ room }
    ensures merging { IsMerging (logs_in logs.now) result.events }
    ensures legal { IsLegalMerging N.names (logs_in logs.now) result.events }
{
    scripts_are_well_formed(script);
    logs_are_positioned();
    merged_logs_fit();
    merged_logs_are_legal();
    put_together(logs.entries(), logs.drops(), logs.positions() as u32, room)
}
