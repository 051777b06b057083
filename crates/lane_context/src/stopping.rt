//! Stopping a context, and asking whether it is stopped and what work is left.
ghost use Rattle.std.specs.Prelude.{◌≡◌};
ghost use Rattle.lane_clock.specs.declared.found.Found.{Found};
ghost use Rattle.lane_turns.specs.Scanning.{HasLooked};
ghost use Rattle.lane_turns.specs.Workers.{Stops, is_set, may_draw_stop};

use crate::context::Context;
use crate::worker::Worker;
use lane_logs::LaneSession;
use op_handlers::CompletionHandler;
use reactor_trait::Reactor;

impl<'a, X: Reactor, H: CompletionHandler, N: LaneSession> Context<'a, X, H, N> {
    /// Stops the context from outside of every handler (Asio reference, io_context::stop): one draw,
    /// where a round is open in which this worker drew none yet. From then on the worker executes
    /// nothing until a restart. Takes no memory.
    pub fn stop(&self, worker: &mut Worker<'a, X, H, N>)
        ensures stops { Stops worker.old.seat worker.new.seat (may_draw_stop worker.old.seat) }
        ensures turns { worker.new.turns ≡ worker.old.turns }
        ensures kept { worker.new.kept ≡ worker.old.kept }
        ensures last { worker.new.last ≡ worker.old.last }
    {
        worker.stop(&self.clock);
    }

    /// Whether the context is stopped (Asio reference, io_context::stopped), by one load: the stops
    /// aren't those of the last restart, or this worker was asked to stop since then. Takes no memory.
    pub fn stopped(&self, worker: &mut Worker<'a, X, H, N>) -> bool
        ensures { (found : Found) × HasLooked worker.old worker.new found
            × (result ≡ is_set worker.old.seat found) }
    {
        let found = worker.read(&self.clock);
        worker.is_set(found)
    }

    /// How much work is outstanding, by one load (Asio reference, io_context::run). Takes no
    /// memory.
    pub fn work(&self, worker: &mut Worker<'a, X, H, N>) -> u64
        ensures { (found : Found) × HasLooked worker.old worker.new found
            × (result ≡ found.work) }
    {
        worker.read(&self.clock).work
    }
}
