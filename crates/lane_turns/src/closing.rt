//! How a round is closed.
ghost use Rattle.std.specs.Prelude.{◌≡◌};
ghost use Rattle.lane_logs.specs.OpenerLog.{closing_change};
ghost use Rattle.lane_turns.specs.Closing.{closing_event};

use asio_types::Event;
use lane_clock::Change;

/// How a round is closed (Asio reference, io_context::run, ::poll, ::stopped).
#[derive(Clone, Copy, Debug, PartialEq, Eq)]
pub enum Closing {
    /// No work was left.
    Ended,
    /// The context was stopped.
    Stopped,
    /// Nothing was ready.
    Polled,
}

impl Closing {
    /// The event that closes a round so.
    pub fn event(self) -> Event
        ensures { result ≡ closing_event self }
    {
        match self {
            Closing::Ended => Event::Ended,
            Closing::Stopped => Event::Stopped,
            Closing::Polled => Event::Polled,
        }
    }

    /// What that changes: running out of work stops the context.
    pub fn change(self) -> Change
        ensures { result ≡ closing_change (closing_event self) }
    {
        match self {
            Closing::Ended => Change::Stop,
            _ => Change::Same,
        }
    }
}
