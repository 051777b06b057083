ghost use Rattle.std.specs.Prelude.{◌≡◌, ◌==◌, ◌&&◌, ℕ, IfOk, None, Some, if◌then◌else◌};
ghost use Rattle.std.specs.Option.{option_map};
ghost use Rattle.run_lines.specs.declared.name.Kind.{Kind};
ghost use Rattle.run_names.specs.Names.{name_at, same_kind};

use crate::table::NameTable;
use asio_types::NoMemory;
use run_lines::Kind;
use std::alloc::Global;

/// The names that a run has given so far. Each kind of thing has numbers of its own.
#[derive(Drop)]
pub struct Names {
    strands: NameTable,
    things: NameTable,
    ops: NameTable,
    threads: NameTable,
    contexts: NameTable,
    locks: NameTable,
    marks: NameTable,
}

impl Names {
    /// No names.
    pub fn new(alloc: Global) -> Names
        ensures { (kind : Kind) (number : ℕ) → name_at result kind number ≡ None }
    {
        Names {
            strands: NameTable::new(alloc),
            things: NameTable::new(alloc),
            ops: NameTable::new(alloc),
            threads: NameTable::new(alloc),
            contexts: NameTable::new(alloc),
            locks: NameTable::new(alloc),
            marks: NameTable::new(alloc),
        }
    }

    /// The name that was given last to what has this number among its kind.
    pub fn of(&self, kind: Kind, number: u64) -> Option<&[u8]>
        ensures { option_map (λ text. text.now) result ≡ name_at self.now kind number }
    {
        match kind {
            Kind::Strand => self.strands.of(number),
            Kind::Thing => self.things.of(number),
            Kind::Op => self.ops.of(number),
            Kind::Thread => self.threads.of(number),
            Kind::Context => self.contexts.of(number),
            Kind::Lock => self.locks.of(number),
            Kind::Mark => self.marks.of(number),
        }
    }

    /// Gives a name.
    pub fn put(&mut self, kind: Kind, number: u64, text: &[u8]) -> Result<(), NoMemory>
        ensures { IfOk result (λ _. (other : Kind) (n : ℕ) → name_at self.new other n ≡
            (if same_kind kind other && number == n then Some text.now else name_at self.old other n)) }
    {
        match kind {
            Kind::Strand => self.strands.put(number, text),
            Kind::Thing => self.things.put(number, text),
            Kind::Op => self.ops.put(number, text),
            Kind::Thread => self.threads.put(number, text),
            Kind::Context => self.contexts.put(number, text),
            Kind::Lock => self.locks.put(number, text),
            Kind::Mark => self.marks.put(number, text),
        }
    }
}
