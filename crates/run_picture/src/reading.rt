ghost use Rattle.std.specs.Prelude.{IfOk};
ghost use Rattle.asio_types.specs.Faults.{Rose};
ghost use Rattle.run_picture.specs.Items.{AreInside};

use crate::scene::Scene;
use crate::window::Window;
use asio_types::{NoMemory, Source};
use run_lines::{Entry, read_line};
use run_reader::{LineReader, ReadFault};
use std::alloc::Global;

/// Why a run isn't drawn.
#[derive(Clone, Copy, Debug, PartialEq, Eq)]
pub enum Unread {
    /// This line is no line of a run.
    Bad { at: u64 },
    /// Reading failed.
    ReadFault,
    NoMemory,
}

impl From<NoMemory> for Unread {
    fn from(_error: NoMemory) -> Unread {
        Unread::NoMemory
    }
}

/// Takes what stands on a line.
fn take_entry(scene: &mut Scene, at: u64, bytes: &[u8]) -> Result<(), Unread>
    ensures { IfOk result (λ _. (window : Window) → AreInside window scene.old → AreInside window scene.new) }
{
    match read_line(bytes) {
        Ok(Entry::Line(line)) => scene.follow(at, &line)?,
        Ok(Entry::Name(name)) => scene.name(name.kind, name.number, name.text)?,
        Err(_) => return Err(Unread::Bad { at }),
    }
    Ok(())
}

/// Reads the next line; `false` where all were read.
fn advance<S: Source>(reader: &mut LineReader, source: &mut S, at: u64) -> Result<bool, Unread> {
    match reader.advance(source) {
        Ok(more) => Ok(more),
        Err(ReadFault::Failed) => Err(Unread::ReadFault),
        Err(ReadFault::NoLineFeed) | Err(ReadFault::TooLong) => Err(Unread::Bad { at }),
    }
}

/// Reads the lines of a run up to the end of the window.
fn take_lines<S: Source>(
    reader: &mut LineReader,
    source: &mut S,
    scene: &mut Scene,
) -> Result<(), Unread>
    ensures { IfOk result (λ _. (window : Window) → AreInside window scene.old → AreInside window scene.new) }
{
    let end = scene.window.to().saturating_add(1);
    for at in 2..end {
        if !advance(reader, source, at)? {
            return Ok(());
        }
        take_entry(scene, at, reader.line())?;
    }
    scene.more = advance(reader, source, end)?;
    Ok(())
}

/// Reads a run, and keeps what is drawn of the lines of a window. It isn't judged. Memory is taken for
/// these lines, for what is under way, and for names.
pub fn read_scene<S: Source>(alloc: Global, source: &mut S, window: Window) -> Result<Scene, Unread>
    ensures { IfOk result (AreInside window) }
{
    let mut reader = LineReader::make(alloc)?;
    let mut scene = Scene::new(alloc, window);
    if !advance(&mut reader, source, 1)? || reader.line() != b"run 1".as_slice() {
        return Err(Unread::Bad { at: 1 });
    }
    take_lines(&mut reader, source, &mut scene)?;
    scene.close()?;
    Ok(scene)
}
