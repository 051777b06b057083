ghost use Rattle.std.specs.Prelude.{◌≡◌, [], ◌∷◌, IfOk};
ghost use Rattle.asio_types.specs.declared.event.Event.TheVariants as event;

use asio_types::{Event, NoMemory};
use history_book::History;
use std::alloc::Global;

/// The history of a context whose reactor couldn't be set up.
pub(crate) fn broken_history(alloc: Global) -> Result<History, NoMemory>
    ensures { IfOk result (λ history. history.events ≡ event.Fault ∷ []) }
{
    let mut history = History::with_room(alloc, 1)?;
    history.push_reserved(Event::Fault);
    Ok(history)
}
