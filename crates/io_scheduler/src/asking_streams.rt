ghost use Rattle.std.specs.Prelude.{◌≡◌, ◌&&◌, not, true};
ghost use Rattle.io_rules.specs.Calls.{is_target_gone};
ghost use Rattle.io_rules.specs.Names.{is_alive};
ghost use Rattle.io_rules.specs.Operations.{target_of};
ghost use Rattle.io_rules.specs.State.{stream_at};
ghost use Rattle.io_scheduler.specs.Transferred.{is_transfer};
ghost use Rattle.io_names.specs.Tables.{name_at};

use crate::scheduler::Scheduler;
use io_handlers::Handler;
use io_history::Named;
use io_rules::{Name, Operation};

impl<H: Handler, C: Named> Scheduler<H, C> {
    /// The name of the stream or the listener that is at this place, or of the next one.
    pub fn stream_name(&self, place: u32) -> Name
        ensures { result ≡ name_at self.now.names.streams place }
    {
        self.names.streams.name_at(place)
    }

    /// Whether a stream or a listener is there: its name isn't gone.
    pub fn has_stream(&self, stream: Name) -> bool
        ensures { result ≡ is_alive self.now.names.streams stream }
    {
        self.names.streams.is_alive(stream)
    }

    /// Whether a listener is there: its name isn't gone.
    pub fn has_listener(&self, listener: Name) -> bool
        ensures { result ≡ (is_alive self.now.names.streams listener && (stream_at self.now.streams listener).listener) }
    {
        self.names.streams.is_alive(listener) && self.streams.is_listener(listener)
    }

    /// Whether the stream or the listener of an operation is there, and is one for it.
    pub fn has_target(&self, kind: Operation) -> bool
        requires { is_transfer kind ≡ true }
        ensures { result ≡ not (is_target_gone self.now kind (target_of kind)) }
    {
        !self.is_target_gone(kind)
    }
}
