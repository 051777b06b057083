ghost use Rattle.std.specs.Prelude.{◌≡◌, ◌<◌, IfOk, false, length};
ghost use Rattle.history_rules.specs.Order.{was_taken};
ghost use Rattle.history_rules.specs.Requests.{reactor_after_done, reactor_after_take};
ghost use Rattle.history_rules.specs.State.{first_reactor};
ghost use Rattle.history_rules.specs.Time.{next_time, reactor_after_fault, reactor_after_last, reactor_after_tick};

use crate::reactor_half::ReactorWorks;
use asio_types::{ActNo, NoMemory, OpNo, Point};
use session_script::{Script, acts_fit, scripts_are_well_formed};
use std::alloc::Global;
use std::marker::Model;

/// The reactor's half of a replay, between its turns.
#[derive(Drop)]
pub(crate) struct ReactorReplay<'a> {
    works: ReactorWorks<'a>,
}

impl<'a> Model for ReactorReplay<'a> {
    ghost use Rattle.history_book.specs.Replay.{ReactorReplayed};
    ghost use Rattle.history_book.specs.Turns.{IsSettled};

    ghost Value = { ReactorReplayed };

    ghost view = { λ r. r.works };

    ghost invariant = { λ r. IsSettled r.works.script r.works.half };
}

impl<'a> ReactorReplay<'a> {
    /// Before the first event. Takes memory for each act and world line, and where bytes are told
    /// for all that the lines bring.
    pub(crate) fn make(
        alloc: Global,
        script: &'a Script,
        told: bool,
    ) -> Result<ReactorReplay<'a>, NoMemory>
        ensures { IfOk result (λ replay.
            replay
            ≡ record {
              script = script.now;
              told = told;
              half = first_reactor script.now told;
            }) }
    {
        let acts = script.acts();
        let works = ReactorWorks::make(alloc, script, told)?;
        Ok(ReactorReplay { works })
    }

    /// The questions, which change nothing.
    pub(crate) fn works(&self) -> &ReactorWorks<'a>
        ensures { result.now ≡ self.now }
    {
        &self.works
    }

    /// The act is taken and performed, and what completes by it is due.
    pub(crate) fn take(&mut self, a: ActNo)
        requires there { a < length self.old.script.acts }
        requires untaken { was_taken self.old.half a ≡ false }
        ensures { self.new
            ≡ record self.old
            { half = reactor_after_take self.old.script self.old.told self.old.half a } }
    {
        let script = self.works.script();
        acts_fit(script);
        self.works.take(a);
    }

    /// The operation has completed, and that was told.
    pub(crate) fn done(&mut self, o: OpNo)
        ensures { self.new
            ≡ record self.old { half = reactor_after_done self.old.script self.old.half o } }
    {
        self.works.done(o);
    }

    /// Time moves to the next time point, which is this.
    pub(crate) fn tick(&mut self, now: u64)
        requires { next_time self.old.script self.old.half ≡ Point.Time now }
        ensures { self.new
            ≡ record self.old
            { half = reactor_after_tick self.old.script self.old.told self.old.half now } }
    {
        let script = self.works.script();
        scripts_are_well_formed(script);
        self.works.tick(now);
    }

    /// The last time point has passed.
    pub(crate) fn last(&mut self)
        ensures { self.new
            ≡ record self.old { half = reactor_after_last self.old.told self.old.half } }
    {
        self.works.end();
    }

    /// The reactor fails.
    pub(crate) fn fault(&mut self)
        ensures { self.new ≡ record self.old { half = reactor_after_fault self.old.half } }
    {
        self.works.fault();
    }
}
