ghost use Rattle.std.specs.Prelude.{◌≡◌, ◌↔◌, IsTrue};
ghost use Rattle.history_rules.specs.Time.{IsIdle, MayTick, MayDrain, MayBreakOff, MayFault, context_after_fault};

use crate::context::ContextReplay;
use crate::replay::Replay;
use asio_types::Point;

impl ContextReplay {
    /// The reactor failed: its turn is over, and the context is stopped.
    pub(crate) fn fault(&mut self)
        ensures { self.new ≡ context_after_fault self.old }
    {
        self.stopped = true;
        self.turn = None;
        self.count();
    }
}

impl<'a> Replay<'a> {
    /// Whether nothing is left to do but to wait for the outside. Looks at each act and stream.
    fn is_idle(&self) -> bool
        ensures { IsTrue result ↔ IsIdle self.now.script self.now.state }
    {
        self.may_turn()
            && self.context.runs(self.reactor.works().script())
            && self.all_quiet()
            && self.context.no_call_is_open()
            && 1 <= self.reactor.works().pending_count()
    }

    /// Whether time may move to this moment. Looks at each act, stream and line of the world.
    pub(crate) fn may_tick(&self, now: u64) -> bool
        ensures { IsTrue result ↔ MayTick self.now.script self.now.state now }
    {
        self.is_idle() && self.reactor.works().next_time() == Point::Time(now)
    }

    /// Whether the last time point has passed. Looks at each act, stream and line of the world.
    pub(crate) fn may_drain(&self) -> bool
        ensures { IsTrue result ↔ MayDrain self.now.script self.now.state }
    {
        self.is_idle() && self.reactor.works().next_time() == Point::Last
    }

    /// Whether a turn of the reactor breaks off before any of it was told, or there is none.
    pub fn may_break_off(&self) -> bool
        ensures { IsTrue result ↔ MayBreakOff self.now.script self.now.state }
    {
        self.context.round_is_open(self.reactor.works().script())
            && (self.reactor.works().is_whole_turn() || self.reactor.works().nothing_due())
    }

    /// Whether the reactor may fail.
    pub(crate) fn may_fault(&self) -> bool
        ensures { IsTrue result ↔ MayFault self.now.script self.now.state }
    {
        !self.reactor.works().has_failed() && (self.context.events == 0 || self.may_break_off())
    }
}
