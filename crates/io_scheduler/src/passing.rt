ghost use Rattle.std.specs.Prelude.{◌≡◌, ◌∷◌, None, if◌then◌else◌, nat_lt};
ghost use Rattle.io_rules.specs.declared.event.Event.TheVariants as event;
ghost use Rattle.io_rules.specs.Legal.{MayHappen, state_of};
ghost use Rattle.io_rules.specs.Timers.{due, earliest};
ghost use Rattle.io_names.specs.Tables.{names_of};
ghost use Rattle.io_timers.specs.Pending.{expiry_by};
ghost use Rattle.io_scheduler.specs.Come.{HavePassed};
ghost use Rattle.io_scheduler.specs.Expired.{HasPassed, HaveExpired};
ghost use Rattle.io_scheduler.specs.Outside.{IsOutside};
ghost use Rattle.io_scheduler.specs.Shown.{Shows};
ghost use Rattle.io_scheduler.specs.Tallied.{IsTally};
ghost use Rattle.io_scheduler.specs.Waits.{ShowsWaits};

use crate::counts::Counts;
use crate::expiring::expire_one;
use crate::outside::note_outside;
use crate::scheduler::Scheduler;
use crate::tally::Tally;
use crate::waiting::Waiting;
use io_handlers::Handler;
use io_history::{Happening, HistoryTable, Keeper, Named};
use io_jobs::Jobs;
use io_names::NameTables;
use io_strands::{ReadyOp, Strand};
use io_timers::Timers;
use std::marker::Brand;

/// Notes that the clock has come to this time.
fn note_passed<C: Named, E: Happening>(table: &HistoryTable, keeper: &mut Keeper<C>, now: u64)
    requires table { table.now ≡ C.table }
    requires event { E.event ≡ event.Passed now }
    requires outside { IsOutside E.event }
    requires may { MayHappen (state_of C.limits keeper.old.past) E.event }
    requires none { keeper.old.held ≡ None }
    ensures may { MayHappen (state_of C.limits keeper.old.past) (event.Passed now) }
    ensures past { keeper.new.past ≡ event.Passed now ∷ keeper.old.past }
    ensures none { keeper.new.held ≡ None }
{
    note_outside::<C, E>(table, keeper);
}

/// The greater of two readings of the clock.
fn later(clock: u64, now: u64) -> u64
    ensures { result ≡ (if nat_lt now clock then clock else now) }
{
    if now < clock { clock } else { now }
}

/// All waits that are due complete.
fn expire_all<H: Handler, C: Named>(
    table: &HistoryTable,
    keeper: &mut Keeper<C>,
    counts: &Counts,
    names: &NameTables,
    timers: &mut Timers<Waiting<H>>,
    strands: &mut Vec<Strand<H, H::State>>,
    jobs: &mut Jobs<ReadyOp<H>>,
    tally: &mut Tally,
)
    requires table { table.now ≡ C.table }
    requires none { keeper.old.held ≡ None }
    requires shows { Shows H.marks C.limits counts.now (names_of names.now) strands.old.items jobs.old
        (state_of C.limits keeper.old.past) }
    requires waits { ShowsWaits H.marks C.limits timers.old (state_of C.limits keeper.old.past) }
    requires tally { IsTally tally.old (state_of C.limits keeper.old.past) }
    ensures expired { HaveExpired C.limits keeper.old.past keeper.new.past }
    ensures over { due (state_of C.limits keeper.new.past) ≡ None }
    ensures none { keeper.new.held ≡ None }
    ensures shows { Shows H.marks C.limits counts.now (names_of names.now) strands.new.items jobs.new
        (state_of C.limits keeper.new.past) }
    ensures waits { ShowsWaits H.marks C.limits timers.new (state_of C.limits keeper.new.past) }
    ensures tally { IsTally tally.new (state_of C.limits keeper.new.past) }
{
    let mut more = true;
    'waits: while more {
        more = expire_one(table, keeper, counts, names, timers, strands, jobs, tally);
    }
}

/// The clock was read: it comes to this time, unless it has come further already, and all waits that are due
/// then complete.
fn pass_to<H: Handler, C: Named>(
    table: &HistoryTable,
    keeper: &mut Keeper<C>,
    counts: &mut Counts,
    names: &NameTables,
    timers: &mut Timers<Waiting<H>>,
    strands: &mut Vec<Strand<H, H::State>>,
    jobs: &mut Jobs<ReadyOp<H>>,
    tally: &mut Tally,
    now: u64,
)
    requires table { table.now ≡ C.table }
    requires none { keeper.old.held ≡ None }
    requires shows { Shows H.marks C.limits counts.old (names_of names.now) strands.old.items jobs.old
        (state_of C.limits keeper.old.past) }
    requires waits { ShowsWaits H.marks C.limits timers.old (state_of C.limits keeper.old.past) }
    requires tally { IsTally tally.old (state_of C.limits keeper.old.past) }
    ensures passed { HasPassed C.limits (if nat_lt now counts.old.clock then counts.old.clock else now)
        keeper.old.past keeper.new.past }
    ensures over { due (state_of C.limits keeper.new.past) ≡ None }
    ensures none { keeper.new.held ≡ None }
    ensures shows { Shows H.marks C.limits counts.new (names_of names.now) strands.new.items jobs.new
        (state_of C.limits keeper.new.past) }
    ensures waits { ShowsWaits H.marks C.limits timers.new (state_of C.limits keeper.new.past) }
    ensures tally { IsTally tally.new (state_of C.limits keeper.new.past) }
{
    let time = later(counts.clock, now);
    note_passed::<C, Brand>(table, keeper, time);
    counts.clock = time;
    expire_all(table, keeper, counts, names, timers, strands, jobs, tally);
}

impl<H: Handler, C: Named> Scheduler<H, C> {
    /// The clock was read: it comes to this time, unless it has come further already, and all waits that are
    /// due then complete.
    #[inline(never)]
    pub fn pass(&mut self, table: &HistoryTable, now: u64)
        requires { table.now ≡ C.table }
        ensures { HavePassed (if nat_lt now self.old.now then self.old.now else now) self.old self.new }
    {
        pass_to(
            table,
            &mut self.keeper,
            &mut self.counts,
            &self.names,
            &mut self.timers,
            &mut self.strands,
            &mut self.jobs,
            &mut self.tally,
            now,
        );
    }

    /// When the first wait is due that is pending; `None` exactly where none is pending.
    pub fn next_expiry(&self) -> Option<u64>
        ensures { result ≡ expiry_by self.now.timers (earliest self.now.timers self.now.waits) }
    {
        self.timers.next_expiry()
    }
}
