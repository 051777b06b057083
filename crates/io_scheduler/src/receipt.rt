ghost use Rattle.std.specs.Prelude.{◌≡◌, true};
ghost use Rattle.io_scheduler.specs.Told.{is_call_in};

use crate::section::Section;
use io_history::Named;

/// That an operation was initiated from outside of all handlers: its call stands in the history behind this
/// critical section.
#[derive(Drop)]
pub struct Receipt<C: Named> {
    /// Its number.
    pub op: u64,
    /// What noted the call.
    pub section: Section<C>,
    ghost called: { is_call_in op section.after ≡ true },
}
