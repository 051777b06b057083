//! How tasks end by the history.
ghost use Rattle.std.specs.Prelude.{length};
ghost use Rattle.op_future.specs.Gathering.{AreEndsBy};
ghost use Rattle.op_future.specs.Seats.{IsRoomFor};
ghost use Rattle.op_future.specs.Sessions.{IsUnfoundEnd};

use crate::task_end::TaskEnd;
use asio_types::Event;
use history_book::History;

/// How a task ends that wants what isn't in the history.
fn unfound_end(history: &History) -> TaskEnd
    ensures { IsUnfoundEnd history.now.events result }
{
    let events = history.events();
    if events.contains(&Event::Fault) {
        return TaskEnd::Fault;
    }
    if events.contains(&Event::Ended) {
        return TaskEnd::Ended;
    }
    TaskEnd::Stopped
}

/// How each task ends: as is known, and else by the history. Linear in the events.
pub(crate) fn ends_by(
    history: &History,
    found: &[Option<TaskEnd>],
    ends: Vec<TaskEnd>,
) -> Vec<TaskEnd>
    requires room { IsRoomFor (length found.now) ends }
    ensures { AreEndsBy history.now.events found.now result.items }
{
    let unfound = unfound_end(history);
    let mut ends = ends;
    for &end in found {
        ends.push_reserved(end.unwrap_or(unfound));
    }
    ends
}
