ghost use Rattle.std.specs.Prelude.{◌≡◌, ◌<◌, None};
ghost use Rattle.io_rules.specs.declared.control.Control.TheVariants as control;
ghost use Rattle.io_rules.specs.declared.event.Event.TheVariants as event;
ghost use Rattle.io_rules.specs.Legal.{IsStep};
ghost use Rattle.io_scheduler.specs.Holding.{may_hold};
ghost use Rattle.io_scheduler.specs.Sections.{Notes, NotesIf};
ghost use Rattle.io_scheduler.specs.Steps.{IsStepIf};

use crate::outside::note_section;
use crate::scheduler::Scheduler;
use crate::section::Section;
use io_handlers::Handler;
use io_history::{HistoryTable, Named};
use std::marker::Brand;

impl<H: Handler, C: Named> Scheduler<H, C> {
    /// One more work guard is out (`executor_work_guard`): `run` goes on though nothing is left to do. `false`
    /// exactly where 2^64 - 1 are out already, and then nothing has changed.
    pub fn hold(&mut self, table: &HistoryTable) -> (bool, Section<C>)
        requires { table.now ≡ C.table }
        ensures held { result.0 ≡ may_hold self.old }
        ensures step { IsStepIf result.0 self.old (event.Changed None control.Hold) self.new }
        ensures noted { NotesIf result.0 C.limits (event.Changed None control.Hold)
            result.1.before result.1.after self.old self.new }
    {
        if self.counts.holds == u64::MAX {
            return (false, self.look(table));
        }
        let section = note_section::<C, Brand>(table, &mut self.keeper);
        self.counts.holds += 1;
        (true, section)
    }

    /// A guard is reset (`executor_work_guard::reset`). One is out.
    pub fn release(&mut self, table: &HistoryTable) -> Section<C>
        requires table { table.now ≡ C.table }
        requires out { 0 < self.old.holds }
        ensures step { IsStep self.old (event.Changed None control.Release) self.new }
        ensures noted { Notes C.limits (event.Changed None control.Release)
            result.before result.after self.old self.new }
    {
        let section = note_section::<C, Brand>(table, &mut self.keeper);
        self.counts.holds = self.counts.holds.saturating_sub(1);
        section
    }
}
