ghost use Rattle.std.specs.Prelude.{◌≡◌, ◌==◌, ℕ, IfOk, None, Some, if◌then◌else◌};
ghost use Rattle.std.specs.Option.{option_map};
ghost use Rattle.run_names.specs.Table.{text_at};

use asio_types::NoMemory;
use std::alloc::Global;
use std::collections::HashMap;

/// Names of one kind of thing, by number.
#[derive(Drop)]
pub(crate) struct NameTable {
    texts: HashMap<u64, Vec<u8>>,
    alloc: Global,
}

impl NameTable {
    pub(crate) fn new(alloc: Global) -> NameTable
        ensures { (number : ℕ) → text_at result number ≡ None }
    {
        NameTable {
            texts: HashMap::new(alloc),
            alloc,
        }
    }

    pub(crate) fn of(&self, number: u64) -> Option<&[u8]>
        ensures { option_map (λ text. text.now) result ≡ text_at self.now number }
    {
        match self.texts.get(&number) {
            Some(text) => Some(text.as_slice()),
            None => None,
        }
    }

    pub(crate) fn put(&mut self, number: u64, text: &[u8]) -> Result<(), NoMemory>
        ensures { IfOk result (λ _. (other : ℕ) →
            text_at self.new other ≡ (if number == other then Some text.now else text_at self.old other)) }
    {
        let copy = Vec::from_slice(self.alloc, text)?;
        self.texts.insert(number, copy)?;
        Ok(())
    }
}
