ghost use Rattle.std.specs.Prelude.{◌≡◌, true};
ghost use Rattle.io_rules.specs.declared.event.Event.TheVariants as event;
ghost use Rattle.io_rules.specs.Legal.{IsStep};
ghost use Rattle.io_rules.specs.Stopping.{has_no_ops};
ghost use Rattle.io_scheduler.specs.Sections.{NotesIf};
ghost use Rattle.io_scheduler.specs.Steps.{IsStepIf};
ghost use Rattle.io_scheduler.specs.Tallied.{is_at_rest, is_over};

use crate::outside::{note_outside, note_section};
use crate::scheduler::Scheduler;
use crate::section::Section;
use io_handlers::Handler;
use io_history::{HistoryTable, Named};
use std::marker::Brand;

impl<H: Handler, C: Named> Scheduler<H, C> {
    /// Whether a call of `run` returns: the context is stopped, or out of work (no operation is left, and no
    /// guard is out).
    pub fn is_over(&self) -> bool
        ensures { result ≡ is_over self.now }
    {
        self.counts.stopped || (self.has_no_ops() && self.counts.holds == 0)
    }

    /// Whether no operation is left.
    fn has_no_ops(&self) -> bool
        ensures { result ≡ has_no_ops self.now.ops }
    {
        if !self.tally.is_none() {
            return false;
        }
        match self.timers.next_expiry() {
            None => true,
            Some(_) => false,
        }
    }

    /// A call of `run` returns: the context is stopped from now on (`io_context::run`).
    pub fn returned(&mut self, table: &HistoryTable)
        requires table { table.now ≡ C.table }
        requires over { is_over self.old ≡ true }
        ensures { IsStep self.old event.Returned self.new }
    {
        note_outside::<C, Brand>(table, &mut self.keeper);
        self.counts.stopped = true;
    }

    /// Handlers may begin again (`io_context::restart`). `false` exactly where one executes or a socket is in
    /// a system call, and then nothing has changed.
    pub fn restart(&mut self, table: &HistoryTable) -> (bool, Section<C>)
        requires { table.now ≡ C.table }
        ensures rest { result.0 ≡ is_at_rest self.old }
        ensures step { IsStepIf result.0 self.old event.Restarted self.new }
        ensures noted { NotesIf result.0 C.limits event.Restarted
            result.1.before result.1.after self.old self.new }
    {
        if !self.tally.rests() {
            return (false, self.look(table));
        }
        let section = note_section::<C, Brand>(table, &mut self.keeper);
        self.counts.stopped = false;
        (true, section)
    }
}
