ghost use Rattle.std.specs.Prelude.{◌≡◌, IfNone, IfSome};
ghost use Rattle.io_scheduler.specs.Begun.{IsBegun, NoneMayBegin};

use crate::noting::note_begun;
use crate::running::Running;
use crate::scheduler::Scheduler;
use crate::taking::{Taken, take_first};
use io_handlers::{Completion, Handler};
use io_history::{HistoryTable, Named};
use io_strands::ReadyOp;
use std::marker::Brand;

/// A handler that begins, to be executed with the lock free.
pub struct Begun<H: Handler, C: Named> {
    /// That it executes.
    pub running: Running<C>,
    /// The handler.
    pub handler: H,
    /// How its operation completed.
    pub done: Completion,
    /// The state of its strand, if it has one.
    pub state: Option<H::State>,
}

impl<H: Handler, C: Named> Scheduler<H, C> {
    /// The first handler that may begin does, and comes out; `None` exactly where none may.
    pub fn begin(&mut self, table: &HistoryTable) -> Option<Begun<H, C>>
        requires { table.now ≡ C.table }
        ensures begun { IfSome result (λ b. IsBegun H.marks self.old self.new b.running b.handler b.done b.state) }
        ensures none { IfNone result (NoneMayBegin self.old) }
        ensures same { IfNone result (self.new ≡ self.old) }
    {
        if self.counts.stopped || self.counts.numbers_left() == 0 {
            return None;
        }
        match take_first(&mut self.strands, &mut self.jobs, &self.names.strands) {
            None => None,
            Some(Taken { lane, op, state }) => {
                let ReadyOp {
                    number,
                    code,
                    size,
                    buffer,
                    made,
                    handler,
                } = op;
                let spares = self.names.keep_all(number);
                let grant = self.counts.grant();
                note_begun::<C, Brand>(table, &mut self.keeper, number, spares);
                let claim = self.keeper.give_out(table);
                self.counts.promised += u64::from(grant) + 1;
                self.counts.room -= grant;
                self.tally.begin();
                let running = Running {
                    claim,
                    op: number,
                    lane,
                    own: true,
                    grant,
                    spares,
                };
                let done = Completion {
                    code,
                    size,
                    buffer,
                    made,
                    now: self.counts.clock,
                };
                Some(Begun {
                    running,
                    handler,
                    done,
                    state,
                })
            }
        }
    }
}
