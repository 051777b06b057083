//! One attempt to do something for a context.
ghost use Rattle.std.specs.Prelude.{◌≡◌};
ghost use Rattle.lane_turns.specs.Attempts.{IsSeated};
ghost use Rattle.lane_turns.specs.LaneValues.{terms, tries};
ghost use Rattle.lane_turns.specs.Runs.{HasPolled};
ghost use Rattle.lane_turns.specs.Scanning.{GoesOn};
ghost use Rattle.lane_context.specs.StopCauses.{StoppedFor};

use crate::context::Context;
use crate::worker::Worker;
use lane_logs::LaneSession;
use lane_turns::One;
use op_handlers::CompletionHandler;
use reactor_trait::Reactor;

impl<'a, X: Reactor, H: CompletionHandler, N: LaneSession> Context<'a, X, H, N> {
    /// Executes at most one handler, with those that execute inside it, or makes one reactor turn,
    /// and waits for nobody (Asio reference, io_context::poll_one). The worker reads the clock word
    /// first; then it looks at all lanes, each once, beginning at the one behind that at which it
    /// looked last. `Stopped` has its cause: the worker keeps the failed reactor, was asked to stop, or
    /// read that no round is open or other stops than those with which its round began; or a lane that
    /// it met last loaded such stops, stands in another round, or has the failed reactor. Takes no memory.
    pub fn poll_one(&self, worker: &mut Worker<'a, X, H, N>) -> One
        requires turns { IsSeated self.now worker.old }
        ensures polled { HasPolled
            (tries (terms N.names H.marks X.state X.told X.faults N.faults N.clock) 1) self.now.lanes result
            worker.old worker.new }
        ensures cause { result ≡ One.Stopped → StoppedFor
            (tries (terms N.names H.marks X.state X.told X.faults N.faults N.clock) 1) worker.old worker.new }
        ensures turns { IsSeated self.now worker.new }
        ensures on { GoesOn worker.old worker.new }
    {
        let found = worker.read(&self.clock);
        if worker.is_barred(found) {
            return One::Stopped;
        }
        self.look_round(worker, 1)
    }
}
