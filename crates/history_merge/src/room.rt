ghost use Rattle.std.specs.Prelude.{◌≡◌, IfOk};
ghost use Rattle.history_merge.specs.Room.{most_merged};

use asio_types::{Event, NoMemory};
use history_book::History;
use session_script::{Script, scripts_are_well_formed};
use std::alloc::Global;
use std::marker::Model;

/// Room for one history, and for putting its events in order. It is made before the session, so that
/// the merging takes no memory. Contracts see for how many events it is.
#[derive(Drop)]
pub struct HistoryRoom {
    pub(crate) ordered: Vec<Event>,
    pub(crate) history: History,
}

impl Model for HistoryRoom {
    ghost use Rattle.std.specs.Prelude.{◌≡◌, ◌≤◌, ℕ, [], vec_capacity};

    ghost Value = { ℕ };

    ghost view = { λ r. r.history.spare };

    ghost invariant = { λ r. record {
      empty : r.ordered.items ≡ [];
      room : r.history.spare ≤ vec_capacity r.ordered;
      none : r.history.events ≡ [];
    } };
}

/// For how many events the history of a session needs room.
fn most_merged(script: &Script) -> u32
    ensures { result ≡ most_merged script.now }
{
    scripts_are_well_formed(script);
    let rounds = script.rounds().len() as u32;
    let lines = script.world().lines.as_slice().len() as u32;
    7 * script.acts() + 19 * rounds + lines + 2
}

impl HistoryRoom {
    /// Room for so many events.
    pub fn with_room(alloc: Global, events: u32) -> Result<HistoryRoom, NoMemory>
        ensures { IfOk result (λ room. room ≡ events) }
    {
        Ok(HistoryRoom {
            ordered: Vec::with_capacity(alloc, events as usize)?,
            history: History::with_room(alloc, events)?,
        })
    }

    /// Room for the history of any session of a script. Takes memory in proportion to its acts, its
    /// time points, and its rounds with their workers.
    pub fn make(alloc: Global, script: &Script) -> Result<HistoryRoom, NoMemory>
        ensures { IfOk result (λ room. room ≡ most_merged script.now) }
    {
        HistoryRoom::with_room(alloc, most_merged(script))
    }
}
