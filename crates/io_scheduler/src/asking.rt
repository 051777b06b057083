ghost use Rattle.std.specs.Prelude.{◌≡◌, not, false, nat_lt};
ghost use Rattle.io_rules.specs.Calls.{is_lane_gone};
ghost use Rattle.io_rules.specs.Names.{is_alive};
ghost use Rattle.io_scheduler.specs.Begun.{NoneMayBegin};
ghost use Rattle.io_scheduler.specs.Sections.{NotesNothing};
ghost use Rattle.io_scheduler.specs.Told.{IsOnLane};

use crate::initiating::is_there;
use crate::running::Running;
use crate::scheduler::Scheduler;
use crate::section::Section;
use io_handlers::Handler;
use io_history::{HistoryTable, Named};
use io_rules::{Lane, Name};

impl<H: Handler, C: Named> Scheduler<H, C> {
    /// Whether a handler may begin.
    pub fn may_begin(&self) -> bool
        ensures { result ≡ false → NoneMayBegin self.now }
    {
        if self.counts.stopped || self.counts.numbers_left() == 0 {
            return false;
        }
        if self.jobs.is_empty() {
            return false;
        }
        true
    }

    /// Whether a lane is there: on a strand its name isn't gone.
    pub fn has_lane(&self, lane: Lane) -> bool
        ensures { result ≡ not (is_lane_gone self.now.names lane) }
    {
        is_there(&self.names, lane)
    }

    /// Whether a timer is there: its name isn't gone.
    pub fn has_timer(&self, timer: Name) -> bool
        ensures { result ≡ is_alive self.now.names.timers timer }
    {
        self.names.timers.is_alive(timer)
    }

    /// Whether a work guard is out.
    pub fn has_guards(&self) -> bool
        ensures { result ≡ nat_lt 0 self.now.holds }
    {
        self.counts.holds > 0
    }

    /// A critical section in which nothing is noted. Two loads.
    pub fn look(&mut self, table: &HistoryTable) -> Section<C>
        requires { table.now ≡ C.table }
        ensures same { self.new ≡ self.old }
        ensures nothing { NotesNothing C.limits result.before result.after self.old }
    {
        let before = self.keeper.tell(table);
        let after = self.keeper.tell(table);
        Section { before, after }
    }
}

impl<C: Named> Running<C> {
    /// What is held is on the lane that contracts see.
    pub fn learn(&self)
        ensures { IsOnLane self.now }
    {
        let _op = self.op;
    }
}
