ghost use Rattle.std.specs.Prelude.{◌≡◌, ◌∷◌, false, true, IfNone, IfSome, None};
ghost use Rattle.io_rules.specs.declared.control.Control.TheVariants as control;
ghost use Rattle.io_rules.specs.declared.event.Event.TheVariants as event;
ghost use Rattle.io_rules.specs.declared.name.Kind.TheVariants as kind;
ghost use Rattle.io_rules.specs.Legal.{IsStep, MayHappen, state_of};
ghost use Rattle.io_rules.specs.Names.{any_free, is_free};
ghost use Rattle.io_scheduler.specs.Opened.{socket_kind};
ghost use Rattle.io_scheduler.specs.Sections.{Notes};

use crate::outside::note_section;
use crate::scheduler::Scheduler;
use crate::section::Section;
use io_handlers::Handler;
use io_history::{Happening, HistoryTable, Keeper, Named};
use io_rules::Name;
use std::marker::Brand;

/// Notes that a listener or a stream is made, and answers the critical section.
fn note_made<C: Named, E: Happening>(
    table: &HistoryTable,
    keeper: &mut Keeper<C>,
    listener: bool,
    name: Name,
) -> Section<C>
    requires table { table.now ≡ C.table }
    requires event { E.event ≡ event.Changed None (control.Make (socket_kind listener) name) }
    requires going { (state_of C.limits keeper.old.past).finishing ≡ false }
    requires free { is_free (state_of C.limits keeper.old.past).names.streams name ≡ true }
    requires none { keeper.old.held ≡ None }
    ensures may { MayHappen (state_of C.limits keeper.old.past) E.event }
    ensures past { keeper.new.past ≡ E.event ∷ keeper.old.past }
    ensures none { keeper.new.held ≡ None }
    ensures before { result.before ≡ keeper.old.past }
    ensures after { result.after ≡ E.event ∷ keeper.old.past }
{
    note_section::<C, E>(table, keeper)
}

impl<H: Handler, C: Named> Scheduler<H, C> {
    /// Makes a stream that isn't connected (`basic_stream_socket`), from outside of all handlers; `None`
    /// exactly where no place with a name is free.
    pub fn make_stream(&mut self, table: &HistoryTable) -> Option<(Name, Section<C>)>
        requires { table.now ≡ C.table }
        ensures made { IfSome result (λ made. IsStep self.old
            (event.Changed None (control.Make kind.Stream made.0)) self.new) }
        ensures noted { IfSome result (λ made. Notes C.limits
            (event.Changed None (control.Make kind.Stream made.0)) made.1.before made.1.after self.old self.new) }
        ensures refused { IfNone result (any_free self.old.names.streams ≡ false) }
        ensures same { IfNone result (self.new ≡ self.old) }
    {
        self.make_socket(table, false)
    }

    /// Makes a listener (`basic_socket_acceptor`), from outside of all handlers; `None` exactly where no place
    /// with a name is free. Streams and listeners share their places.
    pub fn make_listener(&mut self, table: &HistoryTable) -> Option<(Name, Section<C>)>
        requires { table.now ≡ C.table }
        ensures made { IfSome result (λ made. IsStep self.old
            (event.Changed None (control.Make kind.Listener made.0)) self.new) }
        ensures noted { IfSome result (λ made. Notes C.limits
            (event.Changed None (control.Make kind.Listener made.0)) made.1.before made.1.after self.old self.new) }
        ensures refused { IfNone result (any_free self.old.names.streams ≡ false) }
        ensures same { IfNone result (self.new ≡ self.old) }
    {
        self.make_socket(table, true)
    }

    /// Makes a listener, or a stream.
    fn make_socket(&mut self, table: &HistoryTable, listener: bool) -> Option<(Name, Section<C>)>
        requires { table.now ≡ C.table }
        ensures made { IfSome result (λ made. IsStep self.old
            (event.Changed None (control.Make (socket_kind listener) made.0)) self.new) }
        ensures noted { IfSome result (λ made. Notes C.limits
            (event.Changed None (control.Make (socket_kind listener) made.0)) made.1.before made.1.after
            self.old self.new) }
        ensures refused { IfNone result (any_free self.old.names.streams ≡ false) }
        ensures same { IfNone result (self.new ≡ self.old) }
    {
        self.keeper.learn(table);
        match self.names.streams.make_one() {
            None => None,
            Some(name) => {
                let section = note_made::<C, Brand>(table, &mut self.keeper, listener, name);
                self.streams.open(name, listener, false);
                Some((name, section))
            }
        }
    }
}
