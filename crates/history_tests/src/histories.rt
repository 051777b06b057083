//! Histories of given events.
ghost use Rattle.std.specs.Prelude.{◌<◌, ◌^◌, length};

use asio_types::{Event, NoMemory};
use history_book::History;
use std::alloc::Global;

/// The history of these events.
pub(crate) fn history_of(alloc: Global, events: &[Event]) -> Result<History, NoMemory>
    requires { length events.now < 2 ^ 32 }
{
    let mut history = History::with_room(alloc, events.len() as u32)?;
    for event in events {
        history.push_reserved(*event);
    }
    Ok(history)
}
