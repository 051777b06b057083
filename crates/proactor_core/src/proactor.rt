ghost use Rattle.std.specs.Prelude.{◌≡◌, ◌≤◌, ◌<◌, ◌+◌, ◌∷◌, Some, None, [], count_by, length, replicate, slice_index_or, slice_set, false, true, IfErr, IfNone, IfOk, IfSome, IsTrue, OnErr, OnOk};
ghost use Rattle.asio_types.specs.Faults.{Rose};
ghost use Rattle.session_script.specs.Script.{act_of};
ghost use Rattle.history_rules.specs.Order.{was_taken};
ghost use Rattle.history_rules.specs.Performing.{performed};
ghost use Rattle.history_rules.specs.Requests.{MayTell, reactor_after_done, reactor_after_take, slot_in};
ghost use Rattle.history_rules.specs.Rounds.{IsDrained, is_held};
ghost use Rattle.history_rules.specs.Settling.{settled};
ghost use Rattle.history_rules.specs.State.{ReactorHalf, first_reactor};
ghost use Rattle.history_rules.specs.Time.{next_time, pending_count};
ghost use Rattle.reactor_trait.specs.Reactor.{state_at, state_ready};
ghost use Rattle.proactor_core.specs.Proactor.{AreAtStart, CountsRefusal, Follows, FollowsInTurn, SetupIsRefused, IsSound, IsTurning, StandsAt, after_point, moved_state, point_ahead, tells};
ghost use Rattle.proactor_core.specs.Counts.{within_32_bits};
ghost use Rattle.proactor_core.specs.Room.{IsUntaken};
ghost use Rattle.proactor_core.specs.Streams.{pending_in_all};
ghost use Rattle.proactor_core.specs.Tables.{slot_left};

use crate::reach::slot_at;
use crate::streams::Streams;
use crate::tables::Tables;
use asio_types::{ActNo, Code, NoMemory, OpNo, Point, SetupFault};
use composed_ops::acts_are_sized;
use reactor_trait::Reactor;
use session_script::{Script, acts_fit, scripts_are_well_formed};
use std::alloc::Global;
use std::marker::Model;

/// The reactor has failed.
#[derive(Debug, Drop)]
pub struct Fault;

/// The reactor has failed in a tick.
#[derive(Debug, Drop)]
pub struct TickFault {
    /// Where the time moved before it failed; `None` exactly where it didn't.
    pub moved: Option<Point>,
}

/// What an io_context has under way (Asio reference, Overview, "The Proactor Design Pattern"):
/// timers and their waits, cancellation slots, guards, streams with their operations, and what
/// completed and wasn't told yet. No call but `start` takes memory.
#[derive(Drop)]
pub struct Proactor<'a, X: Reactor> {
    pub(crate) script: &'a Script,
    pub(crate) tables: Tables,
    pub(crate) streams: Streams<'a>,
    pub(crate) reactor: X,
}

impl<'a, X: Reactor> Model for Proactor<'a, X> {
    ghost use Rattle.proactor_core.specs.Proactor.{ProactorView};

    ghost Value = { ProactorView X };

    ghost view = { λ p. record {
      script = p.script.now;
      tables = p.tables;
      streams = p.streams;
      reactor = p.reactor;
    } };
}

/// The parts of a proactor that take memory.
fn parts_of<'a>(alloc: Global, script: &'a Script) -> Result<(Tables, Streams<'a>), NoMemory>
    ensures { IfOk result (λ parts. AreAtStart script.now parts.0 parts.1) }
{
    let tables = Tables::make(alloc, script)?;
    let streams = Streams::make(alloc, script)?;
    Ok((tables, streams))
}

impl<'a, X: Reactor> Proactor<'a, X> {
    /// A proactor of a script before anything was taken, over a reactor that is set up once. Where
    /// that is refused it gives the reactor back. Takes memory for each act once.
    pub fn start(
        alloc: Global,
        script: &'a Script,
        mut reactor: X,
    ) -> Result<Proactor<'a, X>, (SetupFault, X)>
        ensures script { IfOk result (λ made. made.script ≡ script.now) }
        ensures sound { IfOk result (IsSound X.state X.told) }
        ensures taken { IfOk result
            (λ made. made.tables.taken ≡ replicate (length script.now.acts) false) }
        ensures nothing_due { IfOk result (λ made. made.tables.due.coming ≡ []) }
        ensures working { IfOk result (λ made. made.tables.failed ≡ false) }
        ensures tells { IfOk result (λ made. tells (X.told made.reactor) ≡ tells (X.told reactor)) }
        ensures follows { IfOk result
            (λ made. Follows X.told made (first_reactor script.now (tells (X.told reactor)))) }
        ensures ready { IfOk result (λ made. X.state made.reactor ≡ state_ready script.now.world) }
        ensures counted { IfOk result (λ made. X.faults made.reactor ≡ X.faults reactor) }
        ensures refused { IfErr result
            (λ refusal. SetupIsRefused refusal.0 (X.state reactor) (X.state refusal.1)) }
        ensures told_refused { IfErr result (λ refusal. X.told refusal.1 ≡ X.told reactor) }
        ensures counts { IfErr result
            (λ refusal. CountsRefusal refusal.0 (X.faults reactor) (X.faults refusal.1)) }
    {
        scripts_are_well_formed(script);
        let (tables, streams) = match parts_of(alloc, script) {
            Ok(parts) => parts,
            Err(_) => return Err((SetupFault::NoMemory, reactor)),
        };
        match reactor.set_up(alloc, script.world()) {
            Ok(()) => Ok(Proactor {
                script,
                tables,
                streams,
                reactor,
            }),
            Err(fault) => Err((fault, reactor)),
        }
    }

    /// Takes a request: performs it, and lists what completes by it. Where the reactor fails,
    /// nothing of the turn is told. A second close of a stream has no effect.
    pub fn take(&mut self, a: ActNo) -> Result<(), Fault>
        requires sound { IsSound X.state X.told self.old }
        requires nothing_due { self.old.tables.due.coming ≡ [] }
        requires untaken { IsUntaken a self.old.tables }
        ensures script { self.new.script ≡ self.old.script }
        ensures taken { self.new.tables.taken ≡ slice_set self.old.tables.taken a true }
        ensures tells { tells (X.told self.new.reactor) ≡ tells (X.told self.old.reactor) }
        ensures sound { OnOk result (IsSound X.state X.told self.new) }
        ensures follows { OnOk result ((half : ReactorHalf) → Follows X.told self.old half →
            Follows X.told self.new
            (reactor_after_take self.old.script (tells (X.told self.old.reactor)) half a)) }
        ensures now { (X.state self.new.reactor).now ≡ (X.state self.old.reactor).now }
        ensures up { IsTrue (X.state self.new.reactor).up }
        ensures guards { (half : ReactorHalf) → Follows X.told self.old half →
            self.new.tables.guards ≡ (performed self.old.script a half).guards }
        ensures counted { OnOk result (X.faults self.new.reactor ≡ X.faults self.old.reactor) }
        ensures rose { OnErr result (Rose (X.faults self.old.reactor) (X.faults self.new.reactor)) }
        ensures later { X.faults self.old.reactor ≤ X.faults self.new.reactor }
        ensures failed { OnErr result (self.new.tables.failed ≡ true) }
        ensures dropped { OnErr result (self.new.tables.due.coming ≡ []) }
    {
        self.perform(a);
        self.settle()
    }

    /// Moves time to the next time point, which it answers: the least of the expiries of pending
    /// waits and of the times of the world above now. Lists what completes there. Where the reactor
    /// fails, nothing of the turn is told.
    pub fn tick(&mut self) -> Result<Point, TickFault>
        requires sound { IsSound X.state X.told self.old }
        requires nothing_due { self.old.tables.due.coming ≡ [] }
        ensures script { self.new.script ≡ self.old.script }
        ensures taken { self.new.tables.taken ≡ self.old.tables.taken }
        ensures guards { self.new.tables.guards ≡ self.old.tables.guards }
        ensures tells { tells (X.told self.new.reactor) ≡ tells (X.told self.old.reactor) }
        ensures up { IsTrue (X.state self.new.reactor).up }
        ensures sound { OnOk result (IsSound X.state X.told self.new) }
        ensures point { IfOk result (λ point. point ≡ point_ahead self.old.script self.old.tables) }
        ensures next { IfOk result (λ point. (half : ReactorHalf) → Follows X.told self.old half →
            next_time self.old.script half ≡ point) }
        ensures follows { IfOk result (λ point.
            (half : ReactorHalf) → Follows X.told self.old half →
            Follows X.told self.new
            (after_point self.old.script (tells (X.told self.old.reactor)) point half)) }
        ensures state { IfOk result
            (λ point. X.state self.new.reactor ≡ state_at point (X.state self.old.reactor)) }
        ensures counted { OnOk result (X.faults self.new.reactor ≡ X.faults self.old.reactor) }
        ensures rose { OnErr result (Rose (X.faults self.old.reactor) (X.faults self.new.reactor)) }
        ensures later { X.faults self.old.reactor ≤ X.faults self.new.reactor }
        ensures failed { OnErr result (self.new.tables.failed ≡ true) }
        ensures dropped { OnErr result (self.new.tables.due.coming ≡ []) }
        ensures moved { IfErr result (λ fault. X.state self.new.reactor ≡
            moved_state fault.moved (X.state self.old.reactor)) }
        ensures to { IfErr result (λ fault. IfSome fault.moved (λ point.
            point ≡ point_ahead self.old.script self.old.tables)) }
        ensures to_next { IfErr result (λ fault.
            IfSome fault.moved (λ point.
            (half : ReactorHalf) → Follows X.told self.old half →
            next_time self.old.script half ≡ point)) }
    {
        let point = match self.reactor.advance(self.tables.next_expiry()) {
            Ok(point) => point,
            Err(_) => {
                self.tables.fail();
                return Err(TickFault { moved: None });
            }
        };
        scripts_are_well_formed(self.script);
        self.tables.pass(&point);
        match self.settle() {
            Ok(()) => Ok(point),
            Err(_) => Err(TickFault { moved: Some(point) }),
        }
    }

    /// Takes the completion out that is told next, and its operation leaves its slot; `None`
    /// exactly where none is due.
    pub fn next_due(&mut self) -> Option<(OpNo, Code, u32)>
        requires sound { IsSound X.state X.told self.old }
        ensures sound { IsSound X.state X.told self.new }
        ensures none { IfNone result (self.old.tables.due.coming ≡ []) }
        ensures unchanged { IfNone result (self.new ≡ self.old) }
        ensures over { IfNone result
            ((half : ReactorHalf) → Follows X.told self.old half → half.due ≡ []) }
        ensures drained { IfNone result
            ((half : ReactorHalf) → Follows X.told self.old half → IsDrained half) }
        ensures head { IfSome result (λ done. self.old.tables.due.coming ≡
            record { op = done.0; outcome = (done.1, done.2) } ∷ self.new.tables.due.coming) }
        ensures others { IfSome result (λ done.
            self.new
            ≡ record self.old {
              tables =
                  slot_left (slot_in (act_of self.old.script done.0)) done.0
                  (record self.old.tables { due = self.new.tables.due });
            }) }
        ensures allowed { IfSome result (λ done.
            (half : ReactorHalf) → Follows X.told self.old half →
            MayTell self.old.script (tells (X.told self.old.reactor)) half done.0 done.1
            done.2) }
        ensures follows { IfSome result (λ done.
            (half : ReactorHalf) → Follows X.told self.old half →
            Follows X.told self.new (reactor_after_done self.old.script half done.0)) }
    {
        let done = self.tables.next_due()?;
        self.tables
            .disconnect(slot_at(self.script, done.op), done.op);
        let (code, size) = done.outcome;
        Some((done.op, code, size))
    }

    /// A turn of the reactor, after which nothing more completes by itself.
    pub(crate) fn settle(&mut self) -> Result<(), Fault>
        requires turning { IsTurning X.state X.told self.old }
        ensures script { self.new.script ≡ self.old.script }
        ensures counted { OnOk result (X.faults self.new.reactor ≡ X.faults self.old.reactor) }
        ensures rose { OnErr result (Rose (X.faults self.old.reactor) (X.faults self.new.reactor)) }
        ensures later { X.faults self.old.reactor ≤ X.faults self.new.reactor }
        ensures state { X.state self.new.reactor ≡ X.state self.old.reactor }
        ensures taken { self.new.tables.taken ≡ self.old.tables.taken }
        ensures guards { self.new.tables.guards ≡ self.old.tables.guards }
        ensures tells { tells (X.told self.new.reactor) ≡ tells (X.told self.old.reactor) }
        ensures sound { OnOk result (IsSound X.state X.told self.new) }
        ensures follows { OnOk result ((half : ReactorHalf) → FollowsInTurn X.told self.old half →
            Follows X.told self.new (settled (tells (X.told self.old.reactor)) half)) }
        ensures failed { OnErr result (self.new.tables.failed ≡ true) }
        ensures dropped { OnErr result (self.new.tables.due.coming ≡ []) }
    {
        self.tables.complete_waits();
        let tables = &mut self.tables;
        match self.streams.serve_all(&mut self.reactor, &mut tables.due) {
            Ok(()) => Ok(()),
            Err(_) => {
                self.tables.fail();
                Err(Fault)
            }
        }
    }

    /// Whether an act was taken.
    pub fn was_taken(&self, a: ActNo) -> bool
        requires { a < length self.now.tables.taken }
        ensures taken { result ≡ slice_index_or self.now.tables.taken a true }
        ensures half { (half : ReactorHalf) → Follows X.told self.now half →
            result ≡ was_taken half a }
    {
        self.tables.was_taken(a)
    }

    /// The script that `start` got.
    pub fn script(&self) -> &'a Script
        ensures { result.now ≡ self.now.script }
    {
        self.script
    }

    /// How many operations are pending, those that are due among them, as far as 32 bits count. May
    /// be asked after a fault too. Costs the number of streams.
    pub fn pending(&self) -> u32
        ensures count { result
            ≡ within_32_bits
            (length self.now.tables.waiting.waits + pending_in_all self.now.streams
            + length self.now.tables.due.coming) }
        ensures half { (half : ReactorHalf) → Follows X.told self.now half →
            result ≡ within_32_bits (pending_count half) }
    {
        self.tables
            .waits()
            .saturating_add(self.streams.pending())
            .saturating_add(self.tables.count_due())
    }

    /// How many guards hold the context, as far as 32 bits count. May be asked after a fault too.
    pub fn guards(&self) -> u32
        ensures count { result
            ≡ within_32_bits (count_by (λ held. held) self.now.tables.guards) }
        ensures half { (half : ReactorHalf) → Follows X.told self.now half →
            result ≡ within_32_bits (count_by is_held half.guards) }
    {
        self.tables.guards()
    }

    /// Whether the reactor has failed.
    pub fn failed(&self) -> bool
        ensures { result ≡ self.now.tables.failed }
    {
        self.tables.has_failed()
    }

    /// Gives the reactor back. Between turns it stands at the half of a history's state that the
    /// proactor follows.
    pub fn into_reactor(self) -> X
        ensures reactor { result ≡ self.entry.reactor }
        ensures stands { (half : ReactorHalf) → IsSound X.state X.told self.entry →
            Follows X.told self.entry half → StandsAt (X.state result) (X.told result) half }
    {
        self.reactor
    }
}
