use asio_types::Failed;
use mio::{Events, Poll};
use std::time::Duration;

/// How long one pause lasts at most, in milliseconds.
const PAUSE: u64 = 100;

/// Pauses in the kernel's poll, which end as soon as a socket that is registered has become
/// readable.
#[derive(Drop)]
pub(crate) struct Pauses {
    pub(crate) poll: Poll,
    pub(crate) events: Events,
}

impl Pauses {
    pub(crate) fn pause(&mut self) -> Result<(), Failed> {
        match self
            .poll
            .poll(&mut self.events, Some(Duration::from_millis(PAUSE)))
        {
            Ok(()) => Ok(()),
            Err(_) => Err(Failed),
        }
    }
}
