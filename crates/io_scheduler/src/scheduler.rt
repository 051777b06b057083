ghost use Rattle.std.specs.Prelude.{◌≡◌, [], IfOk, None};
ghost use Rattle.io_rules.specs.State.{first_state};

use crate::counts::Counts;
use crate::making::{hold_few, make_parts};
use crate::streaming::Streaming;
use crate::tally::Tally;
use crate::waiting::Waiting;
use io_handlers::Handler;
use io_history::{Keeper, Named};
use io_jobs::Jobs;
use io_names::NameTables;
use io_rules::Limits;
use io_strands::{ReadyOp, Strand};
use io_streams::Streams;
use io_timers::Timers;
use std::alloc::Global;
use std::marker::Model;

/// What lies under the lock of a context. Contracts see the state of its history so far.
pub struct Scheduler<H: Handler, C: Named> {
    // the history, in proofs alone
    pub(crate) keeper: Keeper<C>,
    pub(crate) counts: Counts,
    pub(crate) names: NameTables,
    // by place
    pub(crate) strands: Vec<Strand<H, H::State>>,
    // what may begin
    pub(crate) jobs: Jobs<ReadyOp<H>>,
    // expiries, and the waits that are pending
    pub(crate) timers: Timers<Waiting<H>>,
    // streams and listeners, and what is pending on them
    pub(crate) streams: Streams<Streaming<H>>,
    pub(crate) tally: Tally,
}

impl<H: Handler, C: Named> Model for Scheduler<H, C> {
    ghost use Rattle.std.specs.Prelude.{◌≡◌, None};
    ghost use Rattle.io_rules.specs.Legal.{state_of};
    ghost use Rattle.io_rules.specs.State.{ContextState};
    ghost use Rattle.io_names.specs.Tables.{names_of};
    ghost use Rattle.io_scheduler.specs.Shown.{Shows};
    ghost use Rattle.io_scheduler.specs.Streams.{ShowsStreams};
    ghost use Rattle.io_scheduler.specs.Tallied.{IsTally};
    ghost use Rattle.io_scheduler.specs.Waits.{ShowsWaits};

    ghost Value = { ContextState };

    ghost view = { λ s. state_of C.limits s.keeper.past };

    ghost invariant = { λ s. (s.keeper.held ≡ None)
        × Shows H.marks C.limits s.counts (names_of s.names) s.strands.items s.jobs (state_of C.limits s.keeper.past)
        × IsTally s.tally (state_of C.limits s.keeper.past)
        × ShowsWaits H.marks C.limits s.timers (state_of C.limits s.keeper.past)
        × ShowsStreams H.marks C.limits s.streams (state_of C.limits s.keeper.past) };
}

impl<H: Handler, C: Named> Scheduler<H, C> {
    /// The scheduler of a context with such limits, whose history is empty. Takes memory for all that it may
    /// ever keep; gives the keeper back where it is refused.
    pub fn make(
        alloc: Global,
        limits: Limits,
        keeper: Keeper<C>,
    ) -> Result<Scheduler<H, C>, Keeper<C>>
        requires limits { limits ≡ C.limits }
        requires new { keeper ≡ record { past = []; held = None } }
        ensures { IfOk result (λ made. made ≡ first_state C.limits) }
    {
        let Ok(names) = NameTables::make(alloc, &limits) else {
            return Err(keeper);
        };
        hold_few(limits.streams);
        let Ok(streams) = Streams::make(alloc, limits.streams, limits.operations) else {
            return Err(keeper);
        };
        match make_parts(alloc, &limits) {
            Ok((strands, jobs, timers)) => Ok(Scheduler {
                keeper,
                counts: Counts::new(limits),
                names,
                strands,
                jobs,
                timers,
                streams,
                tally: Tally::new(),
            }),
            Err(_) => {
                streams.destroy();
                Err(keeper)
            }
        }
    }
}
