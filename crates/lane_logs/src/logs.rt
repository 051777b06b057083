ghost use Rattle.std.specs.Prelude.{◌≡◌, map};

use crate::log::LogEntry;
use asio_types::{Event, OpNo};
use lane_clock::{Found, LaneCopy};
use std::marker::Model;

/// What a session without a lock leaves: the log of each seat, and the drops behind them all. Put in
/// the order of the positions these are the history of one `io_context`.
#[derive(Drop)]
pub struct Logs {
    entries: Vec<Vec<LogEntry>>,
    missed: Vec<Option<OpNo>>,
    drops: Vec<Event>,
    // the sum of the drop marks of the handlers that were destroyed without an event
    let_go: u128,
    last: Found,
    // what was known of all steps when the clock was closed; it has no bytes
    known: LaneCopy,
}

impl Model for Logs {
    ghost use Rattle.std.specs.Prelude.{map};
    ghost use Rattle.lane_logs.specs.KeptLogs.{KeptLogs};

    ghost Value = { KeptLogs };

    ghost view = { λ l. record {
      known = l.known;
      last = l.last;
      entries = map (λ log. log.items) l.entries.items;
      missed = l.missed.items;
      drops = l.drops.items;
      let_go = l.let_go;
    } };
}

impl Logs {
    /// The logs of a session: the entries of each seat, of each lane the operation that it missed
    /// first, the drops, the sum of the drop marks of the handlers that were destroyed without an event,
    /// what the clock word held in the end, and what was known of all steps then.
    pub fn of(
        entries: Vec<Vec<LogEntry>>,
        missed: Vec<Option<OpNo>>,
        drops: Vec<Event>,
        let_go: u128,
        last: Found,
        known: LaneCopy,
    ) -> Logs
        ensures { result ≡ record {
          known = known;
          last = last;
          entries = map (λ log. log.items) entries.items;
          missed = missed.items;
          drops = drops.items;
          let_go = let_go;
        } }
    {
        Logs {
            entries,
            missed,
            drops,
            let_go,
            last,
            known,
        }
    }

    /// The entries of each log, by the number of its seat: those of the lanes, then those of the
    /// workers, and last the opener's.
    pub fn entries(&self) -> &[Vec<LogEntry>]
        ensures { map (λ log. log.items) result.now ≡ self.now.entries }
    {
        self.entries.as_slice()
    }

    /// The drops of the operations that were initiated and never began, by rising number.
    pub fn drops(&self) -> &[Event]
        ensures { result.now ≡ self.now.drops }
    {
        self.drops.as_slice()
    }

    /// The sum of the drop marks of the handlers whose operations were never initiated: they were
    /// destroyed, and no event shows it.
    pub fn let_go(&self) -> u128
        ensures { result ≡ self.now.let_go }
    {
        self.let_go
    }

    /// Of each lane the operation that it missed first: a legal session has none.
    pub fn missed(&self) -> &[Option<OpNo>]
        ensures { result.now ≡ self.now.missed }
    {
        self.missed.as_slice()
    }

    /// How many positions were drawn: the entries have the positions below this.
    pub fn positions(&self) -> u64
        ensures { result ≡ self.now.last.clock }
    {
        self.last.clock
    }
}
