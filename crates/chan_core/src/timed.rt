ghost use Rattle.std.specs.Prelude.{◌≡◌, ◌<◌, ◌≤◌, [], length, slice_index_or, true, IfErr, IfNone, IfOk, IfSome, IsTrue, OnErr, OnOk, slice_set};
ghost use Rattle.asio_types.specs.Faults.{Rose};
ghost use Rattle.history_rules.specs.Kinds.{is_act};
ghost use Rattle.history_rules.specs.Order.{was_taken};
ghost use Rattle.history_rules.specs.Performing.{performed};
ghost use Rattle.history_rules.specs.Requests.{reactor_after_take};
ghost use Rattle.history_rules.specs.Rounds.{IsDrained};
ghost use Rattle.history_rules.specs.State.{ReactorHalf};
ghost use Rattle.history_rules.specs.Time.{next_time};
ghost use Rattle.reactor_trait.specs.Reactor.{state_at};
ghost use Rattle.proactor_core.specs.Proactor.{Follows, IsSound, after_point, moved_state, point_ahead, tells};
ghost use Rattle.proactor_core.specs.Room.{IsUntaken};
ghost use Rattle.chan_core.specs.Timed.{TellsNext, after_io, succeeds, waits_for_timer};

use crate::channel::ChanCore;
use crate::timed_done::TimedDone;
use asio_types::{ActNo, Code, OpNo, Point};
use proactor_core::{Fault, Proactor, TickFault};
use reactor_trait::Reactor;
use session_script::{Act, Script};
use std::marker::Model;

/// A channel beside a proactor, whose waits are deadlines of the channel's operations: where a wait
/// of a timer completes with `Code::Ok`, the pending sends and receives with that deadline are
/// cancelled. Takes no memory.
#[derive(Drop)]
pub struct TimedChan<'a, X: Reactor> {
    chan: ChanCore,
    proactor: Proactor<'a, X>,
}

impl<'a, X: Reactor> Model for TimedChan<'a, X> {
    ghost use Rattle.chan_core.specs.Timed.{TimedView};

    ghost Value = { TimedView X };

    ghost view = { λ t. record { chan = t.chan; proactor = t.proactor } };
}

impl<'a, X: Reactor> TimedChan<'a, X> {
    ghost use Rattle.std.specs.Borrow.{sem};
    ghost use Rattle.chan_core.specs.Lending.{LendsChan};

    /// Puts a channel and a proactor together, where neither has completions to tell.
    pub fn of(chan: ChanCore, proactor: Proactor<'a, X>) -> TimedChan<'a, X>
        requires chan_told { chan.due ≡ [] }
        requires nothing_due { proactor.tables.due.coming ≡ [] }
        ensures { result ≡ record { chan = chan; proactor = proactor.entry } }
    {
        TimedChan { chan, proactor }
    }

    /// Lends the channel, for its calls.
    pub fn chan(&mut self) -> &mut ChanCore
        ensures* lends { sem 𝓛 (LendsChan X.row X.Reactor self.entry result) }
        ensures value { result.now ≡ self.old.chan }
    {
        &mut self.chan
    }

    /// Takes a request, as `Proactor::take` does; the channel stays as it is.
    pub fn take(&mut self, a: ActNo) -> Result<(), Fault>
        requires sound { IsSound X.state X.told self.old.proactor }
        requires nothing_due { self.old.proactor.tables.due.coming ≡ [] }
        requires chan_told { self.old.chan.due ≡ [] }
        requires untaken { IsUntaken a self.old.proactor.tables }
        ensures chan { self.new.chan ≡ self.old.chan }
        ensures script { self.new.proactor.script ≡ self.old.proactor.script }
        ensures taken { self.new.proactor.tables.taken
            ≡ slice_set self.old.proactor.tables.taken a true }
        ensures tells { tells (X.told self.new.proactor.reactor)
            ≡ tells (X.told self.old.proactor.reactor) }
        ensures sound { OnOk result (IsSound X.state X.told self.new.proactor) }
        ensures follows { OnOk result ((half : ReactorHalf) →
            Follows X.told self.old.proactor half → Follows X.told self.new.proactor
            (reactor_after_take self.old.proactor.script
            (tells (X.told self.old.proactor.reactor)) half a)) }
        ensures now { (X.state self.new.proactor.reactor).now
            ≡ (X.state self.old.proactor.reactor).now }
        ensures up { IsTrue (X.state self.new.proactor.reactor).up }
        ensures guards { (half : ReactorHalf) → Follows X.told self.old.proactor half →
            self.new.proactor.tables.guards
            ≡ (performed self.old.proactor.script a half).guards }
        ensures counted { OnOk result
            (X.faults self.new.proactor.reactor ≡ X.faults self.old.proactor.reactor) }
        ensures rose { OnErr result
            (Rose (X.faults self.old.proactor.reactor) (X.faults self.new.proactor.reactor)) }
        ensures later { X.faults self.old.proactor.reactor ≤ X.faults self.new.proactor.reactor }
        ensures failed { OnErr result (self.new.proactor.tables.failed ≡ true) }
        ensures dropped { OnErr result (self.new.proactor.tables.due.coming ≡ []) }
    {
        self.proactor.take(a)
    }

    /// Moves time to the next time point, as `Proactor::tick` does; the channel stays as it is.
    pub fn tick(&mut self) -> Result<Point, TickFault>
        requires sound { IsSound X.state X.told self.old.proactor }
        requires nothing_due { self.old.proactor.tables.due.coming ≡ [] }
        requires chan_told { self.old.chan.due ≡ [] }
        ensures chan { self.new.chan ≡ self.old.chan }
        ensures script { self.new.proactor.script ≡ self.old.proactor.script }
        ensures taken { self.new.proactor.tables.taken ≡ self.old.proactor.tables.taken }
        ensures guards { self.new.proactor.tables.guards ≡ self.old.proactor.tables.guards }
        ensures tells { tells (X.told self.new.proactor.reactor)
            ≡ tells (X.told self.old.proactor.reactor) }
        ensures up { IsTrue (X.state self.new.proactor.reactor).up }
        ensures sound { OnOk result (IsSound X.state X.told self.new.proactor) }
        ensures point { IfOk result (λ point.
            point ≡ point_ahead self.old.proactor.script self.old.proactor.tables) }
        ensures next { IfOk result (λ point. (half : ReactorHalf) →
            Follows X.told self.old.proactor half →
            next_time self.old.proactor.script half ≡ point) }
        ensures follows { IfOk result (λ point. (half : ReactorHalf) →
            Follows X.told self.old.proactor half → Follows X.told self.new.proactor
            (after_point self.old.proactor.script (tells (X.told self.old.proactor.reactor))
            point half)) }
        ensures state { IfOk result (λ point. X.state self.new.proactor.reactor
            ≡ state_at point (X.state self.old.proactor.reactor)) }
        ensures counted { OnOk result
            (X.faults self.new.proactor.reactor ≡ X.faults self.old.proactor.reactor) }
        ensures rose { OnErr result
            (Rose (X.faults self.old.proactor.reactor) (X.faults self.new.proactor.reactor)) }
        ensures later { X.faults self.old.proactor.reactor ≤ X.faults self.new.proactor.reactor }
        ensures failed { OnErr result (self.new.proactor.tables.failed ≡ true) }
        ensures dropped { OnErr result (self.new.proactor.tables.due.coming ≡ []) }
        ensures moved { IfErr result (λ fault. X.state self.new.proactor.reactor ≡
            moved_state fault.moved (X.state self.old.proactor.reactor)) }
        ensures to { IfErr result (λ fault. IfSome fault.moved (λ point.
            point ≡ point_ahead self.old.proactor.script self.old.proactor.tables)) }
        ensures to_next { IfErr result (λ fault. IfSome fault.moved (λ point.
            (half : ReactorHalf) → Follows X.told self.old.proactor half →
            next_time self.old.proactor.script half ≡ point)) }
    {
        self.proactor.tick()
    }

    /// Whether an act was taken, as `Proactor::was_taken`.
    pub fn was_taken(&self, a: ActNo) -> bool
        requires { a < length self.now.proactor.tables.taken }
        ensures taken { result ≡ slice_index_or self.now.proactor.tables.taken a true }
        ensures half { (half : ReactorHalf) → Follows X.told self.now.proactor half →
            result ≡ was_taken half a }
    {
        self.proactor.was_taken(a)
    }

    /// Takes the completion out that is told next, the channel's before the proactor's; `None`
    /// exactly where neither has one. A wait of a timer that completes with `Code::Ok` lapses the
    /// channel, in time in proportion to what is pending in it.
    pub fn next(&mut self) -> Option<TimedDone>
        requires { IsSound X.state X.told self.old.proactor }
        ensures sound { IsSound X.state X.told self.new.proactor }
        ensures told { IfSome result (λ done. TellsNext X.told done self.old self.new) }
        ensures none { IfNone result (self.old.proactor.tables.due.coming ≡ []) }
        ensures chan_none { IfNone result (self.old.chan.due ≡ []) }
        ensures unchanged { IfNone result (self.new ≡ self.old) }
        ensures over { IfNone result ((half : ReactorHalf) →
            Follows X.told self.old.proactor half → half.due ≡ []) }
        ensures drained { IfNone result ((half : ReactorHalf) →
            Follows X.told self.old.proactor half → IsDrained half) }
    {
        if let Some(done) = self.chan.next_due() {
            return Some(TimedDone::Chan(done));
        }
        let (op, code, size) = self.proactor.next_due()?;
        lapse_by(&mut self.chan, self.proactor.script(), op, code);
        Some(TimedDone::Io(op, code, size))
    }
}

/// An operation of the proactor has completed: where it is a wait with `Code::Ok`, the channel
/// lapses by it.
fn lapse_by(chan: &mut ChanCore, script: &Script, op: OpNo, code: Code)
    requires { chan.old.due ≡ [] }
    ensures { chan.new ≡ after_io script.now op code chan.old }
{
    if waits_for_timer(script, op) && succeeds(code) {
        chan.lapse(op);
    }
}

/// Whether the act with a number is a wait of a timer; a number that no act has is none.
fn waits_for_timer(script: &Script, op: OpNo) -> bool
    ensures { result ≡ is_act waits_for_timer script.now op }
{
    op < script.acts() && matches!(script.act(op), Act::Wait { .. })
}

fn succeeds(code: Code) -> bool
    ensures { result ≡ succeeds code }
{
    matches!(code, Code::Ok)
}
