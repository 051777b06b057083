ghost use Rattle.std.specs.Prelude.{◌≡◌, None};
ghost use Rattle.io_rules.specs.declared.control.Control.TheVariants as control;
ghost use Rattle.io_rules.specs.declared.event.Event.TheVariants as event;
ghost use Rattle.io_rules.specs.Legal.{IsStep};
ghost use Rattle.io_scheduler.specs.Sections.{Notes};

use crate::outside::note_section;
use crate::scheduler::Scheduler;
use crate::section::Section;
use io_handlers::Handler;
use io_history::{HistoryTable, Named};
use std::marker::Brand;

impl<H: Handler, C: Named> Scheduler<H, C> {
    /// No handler begins any more (`io_context::stop`).
    pub fn stop(&mut self, table: &HistoryTable) -> Section<C>
        requires { table.now ≡ C.table }
        ensures step { IsStep self.old (event.Changed None control.Stop) self.new }
        ensures noted { Notes C.limits (event.Changed None control.Stop)
            result.before result.after self.old self.new }
    {
        let section = note_section::<C, Brand>(table, &mut self.keeper);
        self.counts.stopped = true;
        section
    }

    /// Whether it is stopped (`io_context::stopped`).
    pub fn is_stopped(&self) -> bool
        ensures { result ≡ self.now.stopped }
    {
        self.counts.stopped
    }
}
