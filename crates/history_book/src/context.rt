ghost use Rattle.std.specs.Prelude.{◌≡◌, IfOk};
ghost use Rattle.history_rules.specs.State.{act_at, with_act, with_call, with_phase, counted, first_context};

use crate::stopping::LaneAllowances;
use asio_types::{ActNo, NoMemory};
use history_rules::{ActPhase, ActState, Allowance, CallPhase, Progress};
use session_script::Script;
use std::alloc::Global;
use std::marker::Model;

const FRESH: ActState = ActState {
    call: CallPhase::Uncalled,
    phase: ActPhase::Absent,
};

pub(crate) const NO_PROGRESS: Progress = Progress { made: 0, back: 0 };

/// What has become of each act and of the context.
#[derive(Drop)]
pub(crate) struct ContextReplay {
    pub(crate) acts: Vec<ActState>,
    pub(crate) opening: Progress,
    pub(crate) stopped: bool,
    pub(crate) allowances: LaneAllowances,
    pub(crate) closings: u64,
    pub(crate) restarted: bool,
    pub(crate) dropping: bool,
    pub(crate) events: u64,
    pub(crate) turn: Option<u64>,
}

impl Model for ContextReplay {
    ghost use Rattle.history_rules.specs.State.{ContextState};

    ghost Value = { ContextState };

    ghost view = { λ c. record {
      acts = c.acts.items;
      opening = c.opening;
      stopped = c.stopped;
      allowances = c.allowances;
      closings = c.closings;
      restarted = c.restarted;
      dropping = c.dropping;
      events = c.events;
      turn = c.turn;
    } };
}

impl ContextReplay {
    /// The state before the first event. Takes memory for each act and each strand.
    pub(crate) fn make(alloc: Global, script: &Script) -> Result<ContextReplay, NoMemory>
        ensures { IfOk result (λ context. context ≡ first_context script.now) }
    {
        let acts = vec![in alloc; FRESH; script.acts() as usize]?;
        let allowances = LaneAllowances::make(alloc, script.strands() as usize)?;
        Ok(ContextReplay {
            acts,
            opening: NO_PROGRESS,
            stopped: false,
            allowances,
            closings: 0,
            restarted: false,
            dropping: false,
            events: 0,
            turn: None,
        })
    }

    /// What has become of an act.
    pub(crate) fn act(&self, n: ActNo) -> ActState
        ensures { result ≡ act_at self.now n }
    {
        self.acts.get(n as usize).copied().unwrap_or(FRESH)
    }

    /// An act comes to this; nothing changes where there is none.
    pub(crate) fn put(&mut self, n: ActNo, new: ActState)
        ensures { self.new ≡ with_act self.old n new }
    {
        if let Some(act) = self.acts.get_mut(n as usize) {
            *act = new;
        }
    }

    /// The call of an act comes to this.
    pub(crate) fn put_call(&mut self, n: ActNo, call: CallPhase)
        ensures { self.new ≡ with_call self.old n call }
    {
        let phase = self.act(n).phase;
        self.put(n, ActState { call, phase });
    }

    /// An act comes to this beyond its call.
    pub(crate) fn put_phase(&mut self, n: ActNo, phase: ActPhase)
        ensures { self.new ≡ with_phase self.old n phase }
    {
        let call = self.act(n).call;
        self.put(n, ActState { call, phase });
    }

    /// One more event.
    pub(crate) fn count(&mut self)
        ensures { self.new ≡ counted self.old }
    {
        self.events = self.events.saturating_add(1);
    }
}
