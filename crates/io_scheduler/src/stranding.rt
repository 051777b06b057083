ghost use Rattle.std.specs.Prelude.{◌≡◌, ◌==◌, false, true, None, IfErr, IfOk, OnErr};
ghost use Rattle.std.specs.Option.{is_some};
ghost use Rattle.io_rules.specs.declared.control.Control.TheVariants as control;
ghost use Rattle.io_rules.specs.declared.event.Event.TheVariants as event;
ghost use Rattle.io_rules.specs.declared.name.Kind.TheVariants as kind;
ghost use Rattle.io_rules.specs.declared.name.Lane.TheVariants as lane;
ghost use Rattle.io_rules.specs.Changes.{is_forgotten};
ghost use Rattle.io_rules.specs.Legal.{IsStep};
ghost use Rattle.io_rules.specs.Names.{any_free, is_alive};
ghost use Rattle.io_scheduler.specs.Ended.{forgotten_cells, forgotten_state};
ghost use Rattle.io_scheduler.specs.Sections.{Notes, NotesIf};
ghost use Rattle.io_scheduler.specs.Shown.{cell_at};
ghost use Rattle.io_scheduler.specs.Steps.{IsStepIf};
ghost use Rattle.io_scheduler.specs.Stranded.{MayFree, MayOpen, names_freed, opened_cells};

use crate::leaving::forget_if;
use crate::outside::note_named;
use crate::scheduler::Scheduler;
use crate::section::Section;
use io_handlers::Handler;
use io_history::{HistoryTable, Named};
use io_names::NameTable;
use io_rules::{Lane, Name};
use io_strands::Strand;
use std::marker::Brand;

/// A strand is made at a place where none is.
pub(crate) fn open_at<H, S>(strands: &mut Vec<Strand<H, S>>, place: u32, state: S)
    requires { MayOpen place strands.old.items }
    ensures { strands.new.items ≡ opened_cells place state strands.old.items }
{
    strands[place as usize].open(state);
}

/// A strand's name is gone; where it has no operation its place is free, and its state comes out.
pub(crate) fn free_at<H, S>(
    names: &mut NameTable,
    strands: &mut Vec<Strand<H, S>>,
    name: Name,
) -> Option<S>
    requires { MayFree name.place names.old strands.old.items }
    ensures names { names.new ≡ names_freed name names.old strands.old.items }
    ensures strands { strands.new.items ≡
        forgotten_cells ((cell_at strands.old.items name.place).tied == 0) (lane.Strand name) strands.old.items }
    ensures state { result ≡
        forgotten_state ((cell_at strands.old.items name.place).tied == 0) (lane.Strand name) strands.old.items }
{
    if strands[name.place as usize].tied() != 0 {
        names.close(name);
        return None;
    }
    forget_if(true, names, strands, Lane::Strand(name))
}

impl<H: Handler, C: Named> Scheduler<H, C> {
    /// Makes a strand with this state, from outside of all handlers (`strand`); gives the state back exactly
    /// where no place with a name is free.
    pub fn make_strand(
        &mut self,
        table: &HistoryTable,
        state: H::State,
    ) -> Result<(Name, Section<C>), H::State>
        requires { table.now ≡ C.table }
        ensures made { IfOk result (λ made. IsStep self.old
            (event.Changed None (control.Make kind.Strand made.0)) self.new) }
        ensures noted { IfOk result (λ made. Notes C.limits
            (event.Changed None (control.Make kind.Strand made.0)) made.1.before made.1.after self.old self.new) }
        ensures refused { OnErr result (any_free self.old.names.strands ≡ false) }
        ensures same { OnErr result (self.new ≡ self.old) }
        ensures back { IfErr result (λ back. back ≡ state) }
    {
        self.keeper.learn(table);
        match self.names.strands.make_one() {
            None => Err(state),
            Some(name) => {
                let section = note_named::<C, Brand>(table, &mut self.keeper, name);
                open_at(&mut self.strands, name.place, state);
                Ok((name, section))
            }
        }
    }

    /// A strand's name is gone at once, and nothing more is accepted on it; what it has still executes there.
    /// Answers its state, to be retired, where it has no operation. Nothing happens exactly where the name is
    /// gone already.
    pub fn free_strand(
        &mut self,
        table: &HistoryTable,
        name: Name,
    ) -> (Option<H::State>, Section<C>)
        requires { table.now ≡ C.table }
        ensures freed { IsStepIf (is_alive self.old.names.strands name) self.old
            (event.Changed None (control.Free kind.Strand name)) self.new }
        ensures retired { is_some result.0 ≡ is_forgotten self.old kind.Strand name }
        ensures noted { NotesIf (is_alive self.old.names.strands name) C.limits
            (event.Changed None (control.Free kind.Strand name)) result.1.before result.1.after self.old self.new }
    {
        if self.names.strands.is_alive(name) {
            self.free_alive(table, name)
        } else {
            (None, self.look(table))
        }
    }

    /// Likewise, where the name is there.
    fn free_alive(&mut self, table: &HistoryTable, name: Name) -> (Option<H::State>, Section<C>)
        requires table { table.now ≡ C.table }
        requires alive { is_alive self.old.names.strands name ≡ true }
        ensures freed { IsStep self.old (event.Changed None (control.Free kind.Strand name)) self.new }
        ensures retired { is_some result.0 ≡ is_forgotten self.old kind.Strand name }
        ensures noted { Notes C.limits (event.Changed None (control.Free kind.Strand name))
            result.1.before result.1.after self.old self.new }
    {
        self.keeper.learn(table);
        let section = note_named::<C, Brand>(table, &mut self.keeper, name);
        let state = free_at(&mut self.names.strands, &mut self.strands, name);
        (state, section)
    }
}
