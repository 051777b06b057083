ghost use Rattle.std.specs.Prelude.{◌≡◌, ◌<◌, ◌∷◌, [], false, true, length, IfNone, IfSome, None};
ghost use Rattle.std.specs.Bool.{OnTrue};
ghost use Rattle.asio_types.specs.declared.code.Code.TheVariants as code;
ghost use Rattle.io_rules.specs.declared.control.Control.TheVariants as control;
ghost use Rattle.io_rules.specs.declared.event.Event.TheVariants as event;
ghost use Rattle.io_rules.specs.declared.name.Kind.TheVariants as kind;
ghost use Rattle.io_rules.specs.Legal.{IsStep, state_of};
ghost use Rattle.io_rules.specs.Names.{any_free, is_alive, is_unused, place_at};
ghost use Rattle.io_names.specs.Tables.{names_of};
ghost use Rattle.io_timers.specs.Pending.{IsOnly, waits_on};
ghost use Rattle.io_scheduler.specs.Aborting.{IsCancelling, numbers_on, those_of};
ghost use Rattle.io_scheduler.specs.Come.{HaveCome, NotesAll, NotesAllIf, changes, completions};
ghost use Rattle.io_scheduler.specs.Sections.{Notes};
ghost use Rattle.io_scheduler.specs.Timing.{cancels_all, control_of, names_behind, timers_behind};

use crate::aborting::{abort_all, abort_first};
use crate::counts::Counts;
use crate::outside::{note_named, note_outside};
use crate::scheduler::Scheduler;
use crate::section::Section;
use crate::tally::Tally;
use crate::waiting::Waiting;
use io_handlers::Handler;
use io_history::{Happening, HistoryTable, Keeper, Named, Witness};
use io_jobs::Jobs;
use io_names::NameTables;
use io_rules::Name;
use io_strands::{ReadyOp, Strand};
use io_timers::Timers;
use std::marker::Brand;

/// What is done with a timer. It cancels waits on it.
#[derive(Clone, Copy)]
pub enum TimerChange {
    /// `basic_waitable_timer::expires_at`: in nanoseconds since the context was made.
    ExpiresAt { at: u64 },
    /// `basic_waitable_timer::cancel`.
    Cancel,
    /// `basic_waitable_timer::cancel_one`.
    CancelOne,
    /// The timer is destroyed (`basic_waitable_timer::~basic_waitable_timer`).
    Free,
}

impl TimerChange {
    /// Whether it cancels all waits, not the first alone.
    pub(crate) fn cancels_all(&self) -> bool
        ensures { result ≡ cancels_all self.now }
    {
        !matches!(self, TimerChange::CancelOne)
    }
}

/// Notes a change of a timer, and answers the history before it.
fn note_change<C: Named, E: Happening>(
    table: &HistoryTable,
    keeper: &mut Keeper<C>,
    timer: Name,
    change: TimerChange,
) -> Witness<C>
    requires table { table.now ≡ C.table }
    requires event { E.event ≡ event.Changed None (control_of timer change) }
    requires alive { is_alive (state_of C.limits keeper.old.past).names.timers timer ≡ true }
    requires going { (state_of C.limits keeper.old.past).finishing ≡ false }
    requires none { keeper.old.held ≡ None }
    ensures come { HaveCome C.limits (event.Changed None (control_of timer change) ∷ []) keeper.old.past keeper.new.past }
    ensures none { keeper.new.held ≡ None }
    ensures before { result ≡ keeper.old.past }
{
    let before = keeper.tell(table);
    note_outside::<C, E>(table, keeper);
    before
}

/// The waits that a change of a timer cancels complete, all or the first.
pub(crate) fn abort_those<H: Handler, C: Named>(
    table: &HistoryTable,
    keeper: &mut Keeper<C>,
    counts: &Counts,
    names: &NameTables,
    timers: &mut Timers<Waiting<H>>,
    strands: &mut Vec<Strand<H, H::State>>,
    jobs: &mut Jobs<ReadyOp<H>>,
    tally: &mut Tally,
    timer: Name,
    all: bool,
)
    requires table { table.now ≡ C.table }
    requires none { keeper.old.held ≡ None }
    requires within { timer.place < length timers.old.timers }
    requires only { IsOnly timer timers.old.waits }
    requires cancelling { IsCancelling H.marks C.limits counts.now (names_of names.now) strands.old.items jobs.old
        timers.old tally.old (those_of all (numbers_on timer timers.old.waits)) (state_of C.limits keeper.old.past) }
    ensures aborted { HaveCome C.limits (completions code.Aborted (those_of all (numbers_on timer timers.old.waits)))
        keeper.old.past keeper.new.past }
    ensures held { keeper.new.held ≡ None }
    ensures cancelling { IsCancelling H.marks C.limits counts.now (names_of names.now) strands.new.items jobs.new
        timers.new tally.new [] (state_of C.limits keeper.new.past) }
    ensures only { IsOnly timer timers.new.waits }
    ensures within { timers.new.timers ≡ timers.old.timers }
    ensures none { OnTrue all (waits_on timer timers.new.waits ≡ []) }
{
    if all {
        abort_all(
            table, keeper, counts, names, timers, strands, jobs, tally, timer,
        );
    } else {
        abort_first(
            table, keeper, counts, names, timers, strands, jobs, tally, timer, false,
        );
    }
}

/// What a change makes of a timer, on which nothing waits where it cancels all waits.
pub(crate) fn apply<T>(
    timers: &mut Timers<T>,
    names: &mut NameTables,
    timer: Name,
    change: TimerChange,
)
    requires within { timer.place < length timers.old.timers }
    requires only { IsOnly timer timers.old.waits }
    requires none { OnTrue (cancels_all change) (waits_on timer timers.old.waits ≡ []) }
    requires used { is_unused (place_at names.old.timers timer.place).life ≡ false }
    ensures timers { timers.new ≡ record timers.old { timers = timers_behind timer change timers.old.timers } }
    ensures names { names_of names.new ≡ names_behind timer change (names_of names.old) }
{
    match change {
        TimerChange::ExpiresAt { at } => timers.set_expiry(timer, at),
        TimerChange::Free => {
            timers.set_expiry(timer, 0);
            names.timers.free(timer);
        }
        _ => {}
    }
}

impl<H: Handler, C: Named> Scheduler<H, C> {
    /// Makes a timer from outside of all handlers, whose expiry has passed; `None` exactly where no place with
    /// a name is free.
    pub fn make_timer(&mut self, table: &HistoryTable) -> Option<(Name, Section<C>)>
        requires { table.now ≡ C.table }
        ensures made { IfSome result (λ made. IsStep self.old
            (event.Changed None (control.Make kind.Timer made.0)) self.new) }
        ensures noted { IfSome result (λ made. Notes C.limits
            (event.Changed None (control.Make kind.Timer made.0)) made.1.before made.1.after self.old self.new) }
        ensures refused { IfNone result (any_free self.old.names.timers ≡ false) }
        ensures same { IfNone result (self.new ≡ self.old) }
    {
        match self.names.timers.make_one() {
            None => None,
            Some(name) => {
                let section = note_named::<C, Brand>(table, &mut self.keeper, name);
                Some((name, section))
            }
        }
    }

    /// Changes a timer from outside of all handlers; the waits that this cancels complete with
    /// operation_aborted, in order of acceptance. Nothing happens exactly where its name is gone.
    pub fn change_timer(
        &mut self,
        table: &HistoryTable,
        timer: Name,
        change: TimerChange,
    ) -> Section<C>
        requires { table.now ≡ C.table }
        ensures { NotesAllIf (is_alive self.old.names.timers timer) C.limits
            (changes None (control_of timer change) self.old) result.before result.after self.old self.new }
    {
        if self.names.timers.is_alive(timer) {
            self.change_alive(table, timer, change)
        } else {
            self.look(table)
        }
    }

    /// Likewise, where the name is there.
    fn change_alive(&mut self, table: &HistoryTable, timer: Name, change: TimerChange) -> Section<C>
        requires table { table.now ≡ C.table }
        requires alive { is_alive self.old.names.timers timer ≡ true }
        ensures { NotesAll C.limits (changes None (control_of timer change) self.old)
            result.before result.after self.old self.new }
    {
        self.keeper.learn(table);
        let before = note_change::<C, Brand>(table, &mut self.keeper, timer, change);
        abort_those(
            table,
            &mut self.keeper,
            &self.counts,
            &self.names,
            &mut self.timers,
            &mut self.strands,
            &mut self.jobs,
            &mut self.tally,
            timer,
            change.cancels_all(),
        );
        apply(&mut self.timers, &mut self.names, timer, change);
        let after = self.keeper.tell(table);
        Section { before, after }
    }
}
