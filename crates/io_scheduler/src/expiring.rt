ghost use Rattle.std.specs.Prelude.{◌≡◌, ◌<◌, ◌∷◌, None, length};
ghost use Rattle.std.specs.Bool.{OnFalse, OnTrue};
ghost use Rattle.asio_types.specs.declared.code.Code.TheVariants as code;
ghost use Rattle.io_rules.specs.declared.event.Event.TheVariants as event;
ghost use Rattle.io_rules.specs.Legal.{MayHappen, state_of};
ghost use Rattle.io_names.specs.Tables.{names_of};
ghost use Rattle.io_scheduler.specs.Expired.{IsExpiredIf};
ghost use Rattle.io_scheduler.specs.Outside.{IsOutside};
ghost use Rattle.io_scheduler.specs.Shown.{Shows};
ghost use Rattle.io_scheduler.specs.Tallied.{IsTally};
ghost use Rattle.io_scheduler.specs.Waits.{ShowsWaits};

use crate::completing::make_ready;
use crate::counts::Counts;
use crate::outside::note_outside;
use crate::tally::Tally;
use crate::waiting::Waiting;
use asio_types::Code;
use io_handlers::Handler;
use io_history::{Happening, HistoryTable, Keeper, Named};
use io_jobs::Jobs;
use io_names::NameTables;
use io_strands::{ReadyOp, Strand};
use io_timers::{PendingWait, Timers};
use std::marker::Brand;

/// Notes that a wait completes because its timer's expiry has passed.
fn note_expired<H, C: Named, E: Happening>(
    table: &HistoryTable,
    keeper: &mut Keeper<C>,
    wait: &PendingWait<Waiting<H>>,
)
    requires table { table.now ≡ C.table }
    requires outside { IsOutside E.event }
    requires may { MayHappen (state_of C.limits keeper.old.past) E.event }
    requires none { keeper.old.held ≡ None }
    ensures may { MayHappen (state_of C.limits keeper.old.past) E.event }
    ensures past { keeper.new.past ≡ E.event ∷ keeper.old.past }
    ensures none { keeper.new.held ≡ None }
{
    note_outside::<C, E>(table, keeper);
}

/// Of the waits that are due, the first one completes; false exactly where none is due.
pub(crate) fn expire_one<H: Handler, C: Named>(
    table: &HistoryTable,
    keeper: &mut Keeper<C>,
    counts: &Counts,
    names: &NameTables,
    timers: &mut Timers<Waiting<H>>,
    strands: &mut Vec<Strand<H, H::State>>,
    jobs: &mut Jobs<ReadyOp<H>>,
    tally: &mut Tally,
) -> bool
    requires table { table.now ≡ C.table }
    requires none { keeper.old.held ≡ None }
    requires shows { Shows H.marks C.limits counts.now (names_of names.now) strands.old.items jobs.old
        (state_of C.limits keeper.old.past) }
    requires waits { ShowsWaits H.marks C.limits timers.old (state_of C.limits keeper.old.past) }
    requires tally { IsTally tally.old (state_of C.limits keeper.old.past) }
    ensures expired { IsExpiredIf result C.limits keeper.old.past keeper.new.past }
    ensures fewer { OnTrue result (length timers.new.waits < length timers.old.waits) }
    ensures same { OnFalse result (timers.new ≡ timers.old) }
    ensures none { keeper.new.held ≡ None }
    ensures shows { Shows H.marks C.limits counts.now (names_of names.now) strands.new.items jobs.new
        (state_of C.limits keeper.new.past) }
    ensures waits { ShowsWaits H.marks C.limits timers.new (state_of C.limits keeper.new.past) }
    ensures tally { IsTally tally.new (state_of C.limits keeper.new.past) }
{
    keeper.learn(table);
    let _most = counts.next;
    match timers.next_due(counts.clock) {
        None => false,
        Some(wait) => {
            note_expired::<H, C, Brand>(table, keeper, &wait);
            let PendingWait { op, timer: _, item } = wait;
            let Waiting { lane, handler } = item;
            let ready = ReadyOp {
                number: op,
                code: Code::Ok,
                size: 0,
                buffer: None,
                made: None,
                handler,
            };
            tally.call();
            make_ready(strands, jobs, lane, ready);
            true
        }
    }
}
