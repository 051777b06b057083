ghost use Rattle.std.specs.Prelude.{◌≡◌, ◌<◌, ◌∷◌, [], None, length};
ghost use Rattle.std.specs.Bool.{OnFalse, OnTrue};
ghost use Rattle.asio_types.specs.declared.code.Code.TheVariants as code;
ghost use Rattle.io_rules.specs.Legal.{MayHappen, state_of};
ghost use Rattle.io_names.specs.Tables.{names_of};
ghost use Rattle.io_timers.specs.Pending.{IsOnly, waits_on};
ghost use Rattle.io_scheduler.specs.Aborting.{IsAbortedIf, IsCancelling, numbers_on, those_left, those_of};
ghost use Rattle.io_scheduler.specs.Come.{HaveCome, completions};
ghost use Rattle.io_scheduler.specs.Outside.{IsOutside};

use crate::completing::make_ready;
use crate::counts::Counts;
use crate::outside::note_outside;
use crate::tally::Tally;
use crate::waiting::Waiting;
use asio_types::Code;
use io_handlers::Handler;
use io_history::{Happening, HistoryTable, Keeper, Named};
use io_jobs::Jobs;
use io_names::NameTables;
use io_rules::Name;
use io_strands::{ReadyOp, Strand};
use io_timers::{PendingWait, Timers};
use std::marker::Brand;

/// Notes that a wait that was cancelled completes.
fn note_aborted<H, C: Named, E: Happening>(
    table: &HistoryTable,
    keeper: &mut Keeper<C>,
    wait: &PendingWait<Waiting<H>>,
)
    requires table { table.now ≡ C.table }
    requires outside { IsOutside E.event }
    requires may { MayHappen (state_of C.limits keeper.old.past) E.event }
    requires none { keeper.old.held ≡ None }
    ensures may { MayHappen (state_of C.limits keeper.old.past) E.event }
    ensures past { keeper.new.past ≡ E.event ∷ keeper.old.past }
    ensures none { keeper.new.held ≡ None }
{
    note_outside::<C, E>(table, keeper);
}

/// Of the waits of a timer that were cancelled, all or the first, one completes; false exactly where there is none.
pub(crate) fn abort_first<H: Handler, C: Named>(
    table: &HistoryTable,
    keeper: &mut Keeper<C>,
    counts: &Counts,
    names: &NameTables,
    timers: &mut Timers<Waiting<H>>,
    strands: &mut Vec<Strand<H, H::State>>,
    jobs: &mut Jobs<ReadyOp<H>>,
    tally: &mut Tally,
    timer: Name,
    all: bool,
) -> bool
    requires table { table.now ≡ C.table }
    requires none { keeper.old.held ≡ None }
    requires within { timer.place < length timers.old.timers }
    requires only { IsOnly timer timers.old.waits }
    requires cancelling { IsCancelling H.marks C.limits counts.now (names_of names.now) strands.old.items jobs.old
        timers.old tally.old (those_of all (numbers_on timer timers.old.waits)) (state_of C.limits keeper.old.past) }
    ensures aborted { IsAbortedIf result C.limits (those_of all (numbers_on timer timers.old.waits))
        (those_left all (numbers_on timer timers.new.waits)) keeper.old.past keeper.new.past }
    ensures held { keeper.new.held ≡ None }
    ensures cancelling { IsCancelling H.marks C.limits counts.now (names_of names.now) strands.new.items jobs.new
        timers.new tally.new (those_left all (numbers_on timer timers.new.waits)) (state_of C.limits keeper.new.past) }
    ensures only { IsOnly timer timers.new.waits }
    ensures within { timers.new.timers ≡ timers.old.timers }
    ensures fewer { OnTrue result (length timers.new.waits < length timers.old.waits) }
    ensures none { OnFalse result (waits_on timer timers.new.waits ≡ []) }
{
    keeper.learn(table);
    let _most = counts.next;
    match timers.cancel_first(timer) {
        None => false,
        Some(wait) => {
            note_aborted::<H, C, Brand>(table, keeper, &wait);
            let PendingWait { op, timer: _, item } = wait;
            let Waiting { lane, handler } = item;
            let ready = ReadyOp {
                number: op,
                code: Code::Aborted,
                size: 0,
                buffer: None,
                made: None,
                handler,
            };
            tally.call();
            make_ready(strands, jobs, lane, ready);
            true
        }
    }
}

/// All waits of a timer that were cancelled complete, in order of acceptance.
pub(crate) fn abort_all<H: Handler, C: Named>(
    table: &HistoryTable,
    keeper: &mut Keeper<C>,
    counts: &Counts,
    names: &NameTables,
    timers: &mut Timers<Waiting<H>>,
    strands: &mut Vec<Strand<H, H::State>>,
    jobs: &mut Jobs<ReadyOp<H>>,
    tally: &mut Tally,
    timer: Name,
)
    requires table { table.now ≡ C.table }
    requires none { keeper.old.held ≡ None }
    requires within { timer.place < length timers.old.timers }
    requires only { IsOnly timer timers.old.waits }
    requires cancelling { IsCancelling H.marks C.limits counts.now (names_of names.now) strands.old.items jobs.old
        timers.old tally.old (numbers_on timer timers.old.waits) (state_of C.limits keeper.old.past) }
    ensures aborted { HaveCome C.limits (completions code.Aborted (numbers_on timer timers.old.waits))
        keeper.old.past keeper.new.past }
    ensures held { keeper.new.held ≡ None }
    ensures cancelling { IsCancelling H.marks C.limits counts.now (names_of names.now) strands.new.items jobs.new
        timers.new tally.new [] (state_of C.limits keeper.new.past) }
    ensures only { IsOnly timer timers.new.waits }
    ensures within { timers.new.timers ≡ timers.old.timers }
    ensures none { waits_on timer timers.new.waits ≡ [] }
{
    let mut more = true;
    'waits: while more {
        more = abort_first(
            table, keeper, counts, names, timers, strands, jobs, tally, timer, true,
        );
    }
}
