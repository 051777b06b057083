ghost use Rattle.std.specs.Prelude.{◌≡◌, IfOk};
ghost use Rattle.io_rules.specs.Names.{first_names};
ghost use Rattle.io_rules.specs.declared.place.Life.TheVariants as life;
ghost use Rattle.io_rules.specs.Spares.{MayKeepAll, given_back, kept_for, no_spares, with_life_of};
ghost use Rattle.io_names.specs.Tables.{names_of};

use crate::table::NameTable;
use asio_types::NoMemory;
use io_rules::{Limits, Name, Spares};
use std::alloc::Global;

/// The places of each kind.
#[derive(Drop)]
pub struct NameTables {
    /// Of strands.
    pub strands: NameTable,
    /// Of timers.
    pub timers: NameTable,
    /// Of cancellation slots.
    pub slots: NameTable,
    /// Of streams and listeners.
    pub streams: NameTable,
}

impl NameTables {
    /// All places, which are free. Takes memory for all of them; `NoMemory` where it is refused.
    pub fn make(alloc: Global, limits: &Limits) -> Result<NameTables, NoMemory>
        ensures { IfOk result (λ made. names_of made ≡ first_names limits.now) }
    {
        let strands = NameTable::make(alloc, limits.strands)?;
        let timers = NameTable::make(alloc, limits.timers)?;
        let slots = NameTable::make(alloc, limits.slots)?;
        let streams = NameTable::make(alloc, limits.streams)?;
        Ok(NameTables {
            strands,
            timers,
            slots,
            streams,
        })
    }

    /// Keeps a name of each kind for what the handler of this operation may make, as far as one is free.
    pub fn keep_all(&mut self, op: u64) -> Spares
        ensures kept { MayKeepAll (names_of self.old) no_spares result }
        ensures names { names_of self.new ≡ kept_for op result (names_of self.old) }
    {
        Spares {
            strand: self.strands.keep(op),
            timer: self.timers.keep(op),
            slot: self.slots.keep(op),
            stream: self.streams.keep(op),
        }
    }

    /// Those that weren't used are free again.
    pub fn give_back_all(&mut self, spares: &Spares)
        ensures { names_of self.new ≡ given_back spares.now (names_of self.old) }
    {
        give_back_one(&mut self.strands, spares.strand);
        give_back_one(&mut self.timers, spares.timer);
        give_back_one(&mut self.slots, spares.slot);
        give_back_one(&mut self.streams, spares.stream);
    }
}

fn give_back_one(table: &mut NameTable, spare: Option<Name>)
    ensures { table.new ≡ with_life_of life.Free spare table.old }
{
    match spare {
        Some(name) => table.give_back(name),
        None => {}
    }
}
