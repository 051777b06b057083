use asio_types::Event;

/// One entry of a log: an event, and its position among all events of the session.
#[derive(Clone, Copy, Debug, PartialEq, Eq)]
pub struct LogEntry {
    /// The clock that the draw of this event found.
    pub position: u64,
    /// The event.
    pub event: Event,
}
