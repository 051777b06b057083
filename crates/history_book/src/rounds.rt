ghost use Rattle.std.specs.Prelude.{◌≡◌, ◌↔◌, ◌≤◌, ◌<◌, ℕ, length, count_by, IsTrue, All, IfNone, IfSome, false, true};
ghost use Rattle.history_rules.specs.Rounds.{this_round, restarts, runs, HasRoundLeft, RoundIsOpen, NothingRuns, NoCallIsOpen, AllClosed, is_unspent, is_outstanding, is_act_outstanding, outstanding_work, is_quiet, AllQuiet, MayEndRound, MayStopRound, MayEndPoll, MayRestart, IsOver, MayDrop, IsNextDropped, after_poll, after_closing, after_restart, after_outside_stop, after_drop};
ghost use Rattle.std.specs.List.{range_with_len};
ghost use Rattle.session_script.specs.Limits.{most_acts};
ghost use Rattle.history_rules.specs.State.{phase_at};

use crate::calls::is_open;
use crate::context::ContextReplay;
use crate::executions::is_running;
use crate::replay::Replay;
use asio_types::OpNo;
use history_rules::{ActPhase, Allowance};
use session_script::{Pace, Round, Script};

impl ContextReplay {
    /// The round after those that are closed.
    fn this_round(&self, script: &Script) -> Option<Round>
        ensures { result ≡ this_round script.now self.now }
    {
        script.rounds().get(self.closings as usize).copied()
    }

    /// Whether the round has a restart.
    pub(crate) fn restarts(&self, script: &Script) -> bool
        ensures { result ≡ restarts (this_round script.now self.now) }
    {
        match self.this_round(script) {
            None => false,
            Some(round) => round.restart,
        }
    }

    /// Whether the round's workers call `io_context::run`.
    pub(crate) fn runs(&self, script: &Script) -> bool
        ensures { result ≡ runs (this_round script.now self.now) }
    {
        match self.this_round(script) {
            None => false,
            Some(round) => round.pace == Pace::Run,
        }
    }

    /// Whether all calls of `open` are back, and not all rounds are closed.
    pub(crate) fn has_round_left(&self, script: &Script) -> bool
        ensures { IsTrue result ↔ HasRoundLeft script.now self.now }
    {
        self.opening.back == script.opening().len() as u64
            && self.closings < script.rounds().len() as u64
    }

    /// Whether workers may call the context.
    pub(crate) fn round_is_open(&self, script: &Script) -> bool
        ensures { IsTrue result ↔ RoundIsOpen script.now self.now }
    {
        self.has_round_left(script) && (self.restarted || !self.restarts(script)) && !self.dropping
    }

    /// Whether no handler runs. Looks at each act.
    pub(crate) fn nothing_runs(&self) -> bool
        ensures { IsTrue result ↔ NothingRuns self.now }
    {
        self.acts.iter().all(|act| !is_running(act.phase))
    }

    /// Whether each call that was made has returned. Looks at each act.
    pub(crate) fn no_call_is_open(&self) -> bool
        ensures { IsTrue result ↔ NoCallIsOpen self.now }
    {
        self.acts.iter().all(|act| !is_open(act.call))
    }

    /// Whether each accepted operation's handler was run or destroyed. Looks at each act.
    pub(crate) fn all_spent(&self) -> bool
        ensures { IsTrue result ↔ All (λ act. is_unspent act.phase ≡ false) self.now.acts }
    {
        self.acts.iter().all(|act| !is_unspent(act.phase))
    }

    /// Whether all rounds are closed.
    pub(crate) fn all_closed(&self, script: &Script) -> bool
        ensures { IsTrue result ↔ AllClosed script.now self.now }
    {
        self.closings == script.rounds().len() as u64
    }

    /// The least operation whose handler wasn't spent. Looks at each act.
    fn first_unspent(&self) -> Option<usize>
        ensures none { IfNone result ((other : ℕ) → is_unspent (phase_at self.now other) ≡ false) }
        ensures some { IfSome result (λ o. is_unspent (phase_at self.now o) ≡ true) }
        ensures least { IfSome result
            (λ o. (other : ℕ) → other < o → is_unspent (phase_at self.now other) ≡ false) }
    {
        for (n, act) in self.acts.iter().enumerate() {
            if is_unspent(act.phase) {
                return Some(n);
            }
        }
        None
    }

    /// Whether this operation's handler is the next to be destroyed. Looks at each act.
    pub(crate) fn is_next_dropped(&self, o: OpNo) -> bool
        ensures { IsTrue result ↔ IsNextDropped self.now o }
    {
        self.first_unspent() == Some(o as usize)
    }

    /// A round of polling closes: the reactor's turn is over.
    pub(crate) fn end_poll(&mut self)
        ensures { self.new ≡ after_poll self.old }
    {
        self.closings = self.closings.saturating_add(1);
        self.restarted = false;
        self.turn = None;
        self.count();
    }

    /// A round closes: the context is stopped, and no lane may begin anything.
    pub(crate) fn close(&mut self)
        ensures { self.new ≡ after_closing self.old }
    {
        self.end_poll();
        self.stopped = true;
        self.allowances.put_all(Allowance::Nothing);
    }

    /// The context is restarted.
    pub(crate) fn restart(&mut self)
        ensures { self.new ≡ after_restart self.old }
    {
        self.stopped = false;
        self.allowances.put_all(Allowance::Free);
        self.restarted = true;
        self.count();
    }

    /// The context is stopped from outside.
    pub(crate) fn stop_from_outside(&mut self)
        ensures { self.new ≡ after_outside_stop self.old }
    {
        self.stopped = true;
    }

    /// A handler that never ran is destroyed.
    pub(crate) fn drop_op(&mut self, o: OpNo)
        ensures { self.new ≡ after_drop self.old o }
    {
        self.put_phase(o, ActPhase::Dropped);
        self.dropping = true;
        self.count();
    }
}

/// Whether an operation was accepted and its handler wasn't spent.
pub(crate) fn is_unspent(phase: ActPhase) -> bool
    ensures { result ≡ is_unspent phase }
{
    match phase {
        ActPhase::Inside | ActPhase::Requested => true,
        ActPhase::Ready { .. } | ActPhase::Running { .. } => true,
        ActPhase::Absent | ActPhase::Ended | ActPhase::Dropped | ActPhase::Asked => false,
    }
}

/// Whether an act keeps the context from running out of work.
fn is_outstanding(phase: ActPhase, taken: bool) -> bool
    ensures { result ≡ is_outstanding phase taken }
{
    match phase {
        ActPhase::Asked => !taken,
        other => is_unspent(other),
    }
}

/// Whether no handler of this act is ready or runs, and it doesn't wait as a request.
fn is_quiet(phase: ActPhase, taken: bool) -> bool
    ensures { result ≡ is_quiet phase taken }
{
    match phase {
        ActPhase::Ready { .. } | ActPhase::Running { .. } => false,
        ActPhase::Requested | ActPhase::Asked => taken,
        _ => true,
    }
}

impl<'a> Replay<'a> {
    fn acts_outstanding(&self) -> u64
        ensures count { result
            ≡ count_by (is_act_outstanding self.now.state)
            (range_with_len 0 (length self.now.state.context.acts)) }
        ensures few { result ≤ most_acts }
    {
        let acts = 0..self.reactor.works().script().acts();
        acts.filter(|n| is_outstanding(
            self.context.act(*n).phase,
            self.reactor.works().was_taken(*n),
        ))
        .count() as u64
    }

    /// The outstanding work of the context. Looks at each act.
    pub fn outstanding(&self) -> u64
        ensures { result ≡ outstanding_work self.now.state }
    {
        self.acts_outstanding() + self.reactor.works().guards_held() as u64
    }

    /// Whether no handler is ready or runs, and no request waits. Looks at each act.
    pub fn all_quiet(&self) -> bool
        ensures { IsTrue result ↔ AllQuiet self.now.state }
    {
        for n in 0..self.reactor.works().script().acts() {
            if !is_quiet(self.context.act(n).phase, self.reactor.works().was_taken(n)) {
                return false;
            }
        }
        true
    }

    /// Whether the context ran out of work. Looks at each act.
    pub(crate) fn may_end_round(&self) -> bool
        ensures { IsTrue result ↔ MayEndRound self.now.script self.now.state }
    {
        self.context.round_is_open(self.reactor.works().script())
            && !self.context.stopped
            && self.outstanding() == 0
    }

    /// Whether a round may close because the context was stopped. Looks at each act and stream.
    pub(crate) fn may_stop_round(&self) -> bool
        ensures { IsTrue result ↔ MayStopRound self.now.script self.now.state }
    {
        self.context.round_is_open(self.reactor.works().script())
            && self.context.stopped
            && self.context.nothing_runs()
            && self.context.no_call_is_open()
            && self.reactor.works().nothing_due()
            && self.reactor.works().is_drained()
            && !self.reactor.works().has_failed()
    }

    /// Whether polling has done all that it can without waiting. Looks at each act and stream.
    pub(crate) fn may_end_poll(&self) -> bool
        ensures { IsTrue result ↔ MayEndPoll self.now.script self.now.state }
    {
        self.context.round_is_open(self.reactor.works().script())
            && !self.context.runs(self.reactor.works().script())
            && !self.context.stopped
            && 1 <= self.outstanding()
            && self.all_quiet()
            && self.reactor.works().nothing_due()
            && self.reactor.works().is_drained()
    }

    /// Whether the context may be restarted. Looks at each act.
    pub(crate) fn may_restart(&self) -> bool
        ensures { IsTrue result ↔ MayRestart self.now.script self.now.state }
    {
        let script = self.reactor.works().script();
        self.context.has_round_left(script)
            && self.context.restarts(script)
            && !self.context.restarted
            && self.context.nothing_runs()
            && !self.reactor.works().has_failed()
    }

    pub fn is_over(&self) -> bool
        ensures { IsTrue result ↔ IsOver self.now.script self.now.state }
    {
        self.context.all_closed(self.reactor.works().script())
            || (self.reactor.works().has_failed() && self.context.nothing_runs())
    }

    /// Whether the handler of this operation is the next to be destroyed. Looks at each act.
    pub(crate) fn may_drop(&self, o: OpNo) -> bool
        ensures { IsTrue result ↔ MayDrop self.now.script self.now.state o }
    {
        self.is_over() && self.context.is_next_dropped(o)
    }
}
