ghost use Rattle.std.specs.Prelude.{◌≡◌, ◌↔◌, length, IsTrue, IfOk};
ghost use Rattle.std.specs.Bool.{OnTrue, OnFalse};
ghost use Rattle.history_rules.specs.Time.{CanTurn};
ghost use Rattle.history_rules.specs.Legal.{MayHappen, IsWhole, after_event, context_after, reactor_after};
ghost use Rattle.history_rules.specs.State.{first_state};

use crate::context::ContextReplay;
use crate::reactor_replay::ReactorReplay;
use asio_types::{Event, NoMemory};
use session_script::Script;
use std::alloc::Global;
use std::marker::Model;

/// A history of a script as it is replayed, event by event. A step takes no memory, looks at each
/// act and stream at most a few times, and never at the events before it.
#[derive(Drop)]
pub struct Replay<'a> {
    pub(crate) context: ContextReplay,
    pub(crate) reactor: ReactorReplay<'a>,
}

impl<'a> Model for Replay<'a> {
    ghost use Rattle.std.specs.Prelude.{◌≡◌, length};
    ghost use Rattle.history_book.specs.Replay.{Replayed};

    ghost Value = { Replayed };

    ghost view = { λ r. record {
      script = r.reactor.script;
      told = r.reactor.told;
      state = record { context = r.context; reactor = r.reactor.half };
    } };

    ghost invariant = { λ r. length r.context.acts ≡ length r.reactor.script.acts };
}

impl<'a> Replay<'a> {
    /// The state before the first event; `bytes_told` says whether the reactor tells its bytes.
    /// Takes memory in proportion to the acts, the lines of the world and their bytes.
    pub fn make(alloc: Global, script: &'a Script, bytes_told: bool) -> Result<Replay<'a>, NoMemory>
        ensures script { IfOk result (λ replay. replay.script ≡ script.now) }
        ensures told { IfOk result (λ replay. replay.told ≡ bytes_told) }
        ensures state { IfOk result (λ replay. replay.state ≡ first_state script.now bytes_told) }
    {
        let context = ContextReplay::make(alloc, script)?;
        let reactor = ReactorReplay::make(alloc, script, bytes_told)?;
        Ok(Replay { context, reactor })
    }

    /// Takes the event where it is legal; else nothing changes.
    pub fn step(&mut self, event: Event) -> bool
        ensures legal { IsTrue result
            ↔ MayHappen self.old.script self.old.told self.old.state event }
        ensures next { OnTrue result
            (self.new.state ≡ after_event self.old.script self.old.told self.old.state event) }
        ensures unchanged { OnFalse result (self.new.state ≡ self.old.state) }
        ensures script { self.new.script ≡ self.old.script }
        ensures told { self.new.told ≡ self.old.told }
    {
        let legal = self.may_happen(event);
        if legal {
            self.perform(event);
        }
        legal
    }

    /// Whether all rounds are closed or the reactor failed, and each accepted operation's handler
    /// was run or destroyed.
    pub fn whole(&self) -> bool
        ensures { IsTrue result ↔ IsWhole self.now.script self.now.state }
    {
        (self.context.all_closed(self.reactor.works().script())
            || self.reactor.works().has_failed())
            && self.context.all_spent()
    }

    fn may_happen(&self, event: Event) -> bool
        ensures { IsTrue result ↔ MayHappen self.now.script self.now.told self.now.state event }
    {
        let script = self.reactor.works().script();
        match event {
            Event::Call { act } => self
                .context
                .may_call(script, self.reactor.works().has_failed(), act),
            Event::Back { act } => self.context.may_return(script, act),
            Event::Stop { act: Some(act) } => self.context.may_stop(script, act),
            Event::Stop { act: None } => self.context.round_is_open(script),
            Event::Begin { op, code, size } => self.context.may_begin(script, op, code, size),
            Event::End { op, .. } => self.context.may_end(script, op),
            Event::Take { act } => self.may_take(act),
            Event::Done { op, code, size } => self.may_complete(op, code, size),
            Event::Tick { now } => self.may_tick(now),
            Event::Last => self.may_drain(),
            Event::Fault => self.may_fault(),
            Event::Ended => self.may_end_round(),
            Event::Stopped => self.may_stop_round(),
            Event::Polled => self.may_end_poll(),
            Event::Restart => self.may_restart(),
            Event::Dropped { op, .. } => self.may_drop(op),
        }
    }

    /// The event happens.
    fn perform(&mut self, event: Event)
        requires { MayHappen self.old.script self.old.told self.old.state event }
        ensures { self.new
            ≡ record self.old
            { state = after_event self.old.script self.old.told self.old.state event } }
    {
        self.context.perform(self.reactor.works().script(), event);
        self.reactor.perform(event);
    }
}

impl ContextReplay {
    /// What an event makes of the context.
    fn perform(&mut self, script: &Script, event: Event)
        ensures { self.new ≡ context_after script.now self.old event }
    {
        match event {
            Event::Call { act } => self.call(script, act),
            Event::Back { act } => self.back(script, act),
            Event::Stop { act: Some(act) } => self.stop(act),
            Event::Stop { act: None } => self.stop_from_outside(),
            Event::Begin { op, code, .. } => self.begin(script, op, code),
            Event::End { op, .. } => self.end(op),
            Event::Done { op, code, size } => self.done(op, code, size),
            Event::Take { .. } | Event::Tick { .. } | Event::Last => self.begin_turn(),
            Event::Fault => self.fault(),
            Event::Ended | Event::Stopped => self.close(),
            Event::Polled => self.end_poll(),
            Event::Restart => self.restart(),
            Event::Dropped { op, .. } => self.drop_op(op),
        }
    }
}

impl<'a> ReactorReplay<'a> {
    /// What an event makes of the reactor.
    fn perform(&mut self, event: Event)
        requires { CanTurn self.old.script self.old.half event }
        ensures { self.new
            ≡ record self.old
            { half = reactor_after self.old.script self.old.told self.old.half event } }
    {
        match event {
            Event::Take { act } => self.take(act),
            Event::Done { op, .. } => self.done(op),
            Event::Tick { now } => self.tick(now),
            Event::Last => self.last(),
            Event::Fault => self.fault(),
            _ => {}
        }
    }
}
