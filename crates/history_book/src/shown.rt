ghost use Rattle.std.specs.Prelude.{◌≡◌, ◌↔◌, [], IsSome, IsTrue, slice_get};
ghost use Rattle.session_script.specs.Lanes.{lane_of};
ghost use Rattle.history_rules.specs.Calls.{MayCall, MayReturn, MayStop};
ghost use Rattle.history_rules.specs.Executions.{IsReadyWith, LaneIsFree, MayBeginInside, MayEnd};
ghost use Rattle.history_rules.specs.Order.{IsFirstOfLane, was_taken};
ghost use Rattle.history_rules.specs.Requests.{MayTell};
ghost use Rattle.history_rules.specs.Rounds.{HasRoundLeft, IsDrained, IsNextDropped, NoCallIsOpen, NothingRuns, RoundIsOpen, restarts, runs, this_round};
ghost use Rattle.history_rules.specs.State.{act_at, phase_at};
ghost use Rattle.history_rules.specs.Stopping.{MayStart};
ghost use Rattle.history_rules.specs.Time.{next_time, pending_count};

use crate::executions::is_ready_with;
use crate::replay::Replay;
use asio_types::{ActNo, Code, Lane, OpNo, Point};
use history_rules::{ActState, lane_at};
use session_script::Script;
use stream_rules::Completion;

/// What a reader of a history asks of the state that its events left, a question each. None of them
/// changes anything or takes memory.
impl<'a> Replay<'a> {
    /// The script that the events are held to.
    pub fn script(&self) -> &'a Script
        ensures { result.now ≡ self.now.script }
    {
        self.reactor.works().script()
    }

    /// What has become of an act.
    pub fn act(&self, n: ActNo) -> ActState
        ensures { result ≡ act_at self.now.state.context n }
    {
        self.context.act(n)
    }

    /// The lane of an act; a number that no act has counts to the reactor's.
    pub fn lane(&self, n: ActNo) -> Lane
        ensures { result ≡ lane_of self.now.script n }
    {
        lane_at(self.reactor.works().script(), n)
    }

    /// Whether the reactor took an act.
    pub fn was_taken(&self, n: ActNo) -> bool
        ensures { result ≡ was_taken self.now.state.reactor n }
    {
        self.reactor.works().was_taken(n)
    }

    /// Whether a body makes this call next.
    pub fn may_call(&self, a: ActNo) -> bool
        ensures { IsTrue result
            ↔ MayCall self.now.script self.now.state.reactor.failed self.now.state.context a }
    {
        let works = self.reactor.works();
        self.context.may_call(works.script(), works.has_failed(), a)
    }

    /// Whether an act's call may return.
    pub fn may_return(&self, a: ActNo) -> bool
        ensures { IsTrue result ↔ MayReturn self.now.script self.now.state.context a }
    {
        self.context.may_return(self.reactor.works().script(), a)
    }

    /// Whether an act's call is to stop the context now.
    pub fn may_stop(&self, a: ActNo) -> bool
        ensures { IsTrue result ↔ MayStop self.now.script self.now.state.context a }
    {
        self.context.may_stop(self.reactor.works().script(), a)
    }

    /// Whether workers may call the context.
    pub fn round_is_open(&self) -> bool
        ensures { IsTrue result ↔ RoundIsOpen self.now.script self.now.state.context }
    {
        self.context.round_is_open(self.reactor.works().script())
    }

    /// Whether all calls of `open` are back, and not all rounds are closed.
    pub fn has_round_left(&self) -> bool
        ensures { IsTrue result ↔ HasRoundLeft self.now.script self.now.state.context }
    {
        self.context.has_round_left(self.reactor.works().script())
    }

    /// Whether the round's workers call `io_context::run`.
    pub fn runs(&self) -> bool
        ensures { result ≡ runs (this_round self.now.script self.now.state.context) }
    {
        self.context.runs(self.reactor.works().script())
    }

    /// Whether the round has a restart.
    pub fn restarts(&self) -> bool
        ensures { result ≡ restarts (this_round self.now.script self.now.state.context) }
    {
        self.context.restarts(self.reactor.works().script())
    }

    /// Whether the restart of this round has come.
    pub fn is_restarted(&self) -> bool
        ensures { result ≡ self.now.state.context.restarted }
    {
        self.context.restarted
    }

    /// Whether the context is stopped.
    pub fn is_stopped(&self) -> bool
        ensures { result ≡ self.now.state.context.stopped }
    {
        self.context.stopped
    }

    /// Whether the reactor has failed.
    pub fn has_failed(&self) -> bool
        ensures { result ≡ self.now.state.reactor.failed }
    {
        self.reactor.works().has_failed()
    }

    /// How many events there were, without stops from outside.
    pub fn event_count(&self) -> u64
        ensures { result ≡ self.now.state.context.events }
    {
        self.context.events
    }

    /// How many rounds are closed.
    pub fn closings(&self) -> u64
        ensures { result ≡ self.now.state.context.closings }
    {
        self.context.closings
    }

    /// Whether nothing of the lane of this operation runs. Looks at each act.
    pub fn lane_is_free(&self, o: OpNo) -> bool
        ensures { IsTrue result ↔ LaneIsFree self.now.script self.now.state.context o }
    {
        self.context.lane_is_free(self.reactor.works().script(), o)
    }

    /// Whether no ready handler of its lane goes before this operation's. Looks at each act.
    pub fn is_first_of_lane(&self, o: OpNo) -> bool
        ensures { IsTrue result ↔ IsFirstOfLane self.now.script self.now.state.context o }
    {
        self.context
            .is_first_of_lane(self.reactor.works().script(), o)
    }

    /// Whether a handler is ready with this code and size.
    pub fn is_ready_with(&self, o: OpNo, code: Code, size: u32) -> bool
        ensures { IsTrue result ↔ IsReadyWith (phase_at self.now.state.context o) code size }
    {
        is_ready_with(self.context.act(o).phase, code, size)
    }

    /// Whether a lane may begin something.
    pub fn may_start(&self, lane: Lane) -> bool
        ensures { IsTrue result ↔ MayStart self.now.state.context lane }
    {
        self.context.allowances.may_start(lane)
    }

    /// Whether a dispatched handler may begin inside its call.
    pub fn may_begin_inside(&self, o: OpNo, code: Code, size: u32) -> bool
        ensures { IsTrue result ↔ MayBeginInside self.now.state.context o code size }
    {
        self.context.may_begin_inside(o, code, size)
    }

    /// Whether a handler's calls were made and are back.
    pub fn may_end(&self, o: OpNo) -> bool
        ensures { IsTrue result ↔ MayEnd self.now.script self.now.state.context o }
    {
        self.context.may_end(self.reactor.works().script(), o)
    }

    /// Whether nothing is due.
    pub fn nothing_due(&self) -> bool
        ensures { IsTrue result ↔ (self.now.state.reactor.due ≡ []) }
    {
        self.reactor.works().nothing_due()
    }

    /// Whether no operation of a stream is left after the last time point.
    pub fn is_drained(&self) -> bool
        ensures { IsTrue result ↔ IsDrained self.now.state.reactor }
    {
        self.reactor.works().is_drained()
    }

    /// Whether a turn of the reactor has begun that no closing of a round ended.
    pub fn is_in_turn(&self) -> bool
        ensures { IsTrue result ↔ IsSome self.now.state.context.turn }
    {
        self.context.turn.is_some()
    }

    /// Whether this operation may be told so: as the head of what is due, or where bytes are untold
    /// as its stream gives it.
    pub fn may_tell(&self, o: OpNo, code: Code, size: u32) -> bool
        ensures { IsTrue result
            ↔ MayTell self.now.script self.now.told self.now.state.reactor o code size }
    {
        self.reactor.works().may_tell(o, code, size)
    }

    /// What is due next.
    pub fn next_due(&self) -> Option<Completion>
        ensures { result ≡ slice_get self.now.state.reactor.due 0 }
    {
        self.reactor.works().due.first().copied()
    }

    /// Whether no handler runs. Looks at each act.
    pub fn nothing_runs(&self) -> bool
        ensures { IsTrue result ↔ NothingRuns self.now.state.context }
    {
        self.context.nothing_runs()
    }

    /// Whether each call that was made has returned. Looks at each act.
    pub fn no_call_is_open(&self) -> bool
        ensures { IsTrue result ↔ NoCallIsOpen self.now.state.context }
    {
        self.context.no_call_is_open()
    }

    /// How many operations are pending, those that are due among them.
    pub fn pending(&self) -> usize
        ensures { result ≡ pending_count self.now.state.reactor }
    {
        self.reactor.works().pending_count()
    }

    /// The least time point above now, or that there is none. Looks at each wait and world line.
    pub fn next_time(&self) -> Point
        ensures { result ≡ next_time self.now.script self.now.state.reactor }
    {
        self.reactor.works().next_time()
    }

    /// Whether this operation's handler is the next to be destroyed. Looks at each act.
    pub fn is_next_dropped(&self, o: OpNo) -> bool
        ensures { IsTrue result ↔ IsNextDropped self.now.state.context o }
    {
        self.context.is_next_dropped(o)
    }
}
