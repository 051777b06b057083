ghost use Rattle.std.specs.Prelude.{◌≡◌, ◌∷◌, ◌++◌, [], ℕ, List, IfOk, Ok, Option, Some, true, false};
ghost use Rattle.run_lines.specs.Entry.{plain};
ghost use Rattle.run_names.specs.Reading.{AreNames, AreNamesOf, CountsNaming, GivesNames, IsNaming, Reads};

use crate::names::Names;
use asio_types::{NoMemory, Source};
use run_lines::{Entry, read_line};
use run_reader::{LineReader, ReadFault};
use std::alloc::Global;

/// Why the names of a run aren't known.
#[derive(Clone, Copy, Debug, PartialEq, Eq)]
pub enum NotNamed {
    /// The source failed.
    ReadFault,
    /// There is no memory for the 65,536 bytes that are held, or for a name.
    NoMemory,
}

/// Keeps the name that an entry gives, if it gives one.
fn take_entry(names: &mut Names, entry: &Entry<'_>) -> Result<(), NoMemory>
    ensures { IfOk result (λ _. (lines : List (List ℕ)) (bytes : List ℕ) → Reads bytes (plain entry.now)
        → AreNames lines names.old → AreNames (lines ++ bytes ∷ []) names.new) }
{
    match entry {
        Entry::Name(name) => names.put(name.kind, name.number, name.text),
        Entry::Line(_) => Ok(()),
    }
}

/// Keeps the name that a line gives, if it gives one.
fn take_name(names: &mut Names, bytes: &[u8]) -> Result<(), NoMemory>
    ensures { IfOk result (λ _. (lines : List (List ℕ)) → AreNames lines names.old
        → AreNames (lines ++ bytes.now ∷ []) names.new) }
{
    match read_line(bytes) {
        Ok(entry) => take_entry(names, &entry),
        Err(_) => Ok(()),
    }
}

/// Reads a line and keeps the name that it gives; `false` where no line follows.
fn take_line<S: Source>(
    reader: &mut LineReader,
    names: &mut Names,
    source: &mut S,
) -> Result<bool, NotNamed>
    ensures goes_on { result ≡ Ok true → (text : List ℕ) → IsNaming text reader.old.held (S.left source.old) names.old
        → IsNaming text reader.new.held (S.left source.new) names.new }
    ensures ends { result ≡ Ok false → (text : List ℕ) → IsNaming text reader.old.held (S.left source.old) names.old
        → GivesNames text names.new }
    ensures counts { CountsNaming result (S.faults source.old) (S.faults source.new) }
{
    match reader.advance(source) {
        Ok(true) => match take_name(names, reader.line()) {
            Ok(()) => Ok(true),
            Err(_) => Err(NotNamed::NoMemory),
        },
        Ok(false) | Err(ReadFault::NoLineFeed | ReadFault::TooLong) => Ok(false),
        Err(ReadFault::Failed) => Err(NotNamed::ReadFault),
    }
}

/// The names that the lines of a text give, of each thing the last one. What isn't the line of a name
/// gives none, so the text need not be a run; where no whole line follows any more, reading ends.
pub fn read_names<S: Source>(alloc: Global, source: &mut S) -> Result<Names, NotNamed>
    ensures named { IfOk result (λ names. AreNamesOf (S.left source.old) names) }
    ensures counts { CountsNaming result (S.faults source.old) (S.faults source.new) }
{
    let Ok(mut reader) = LineReader::make(alloc) else {
        return Err(NotNamed::NoMemory);
    };
    let mut names = Names::new(alloc);
    for _ in 0..u64::MAX {
        match take_line(&mut reader, &mut names, source) {
            Ok(true) => {}
            Ok(false) => return Ok(names),
            Err(fault) => return Err(fault),
        }
    }
    Err(NotNamed::NoMemory)
}
