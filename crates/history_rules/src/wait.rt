use asio_types::{OpNo, TimerNo};

/// A wait of a timer that hasn't completed.
#[derive(Clone, Copy, Debug, PartialEq, Eq)]
pub struct Wait {
    /// The operation.
    pub op: OpNo,
    /// Its timer.
    pub timer: TimerNo,
}
