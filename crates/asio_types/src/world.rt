ghost use Rattle.std.specs.Prelude.{◌≡◌, IfOk};

use crate::bytes::Bytes;
use crate::failure::NoMemory;
use crate::number::StreamNo;
use std::alloc::Global;
use std::marker::Model;

/// The scripted outside: how many streams there are, and what happens to them when.
#[derive(Debug, Drop)]
pub struct World {
    /// The number of streams.
    pub streams: u8,
    /// What happens, in text order; times may stand in any order.
    pub lines: Lines,
}

/// One thing that happens to a stream at a scripted time.
#[derive(Debug, Drop)]
pub struct Line {
    /// When, from 0 to 2^40 - 1.
    pub time: u64,
    /// To which stream.
    pub stream: StreamNo,
    /// What.
    pub what: What,
}

/// What happens to a stream.
#[derive(Clone, Debug, Drop)]
pub enum What {
    /// These bytes arrive.
    Feed(Bytes),
    /// The peer sends nothing more.
    End,
    /// The peer is gone.
    Reset,
    /// The peer takes so many bytes more.
    Room(u32),
}

/// A derived clone says of each field that it is a clone; this says that the copy is the same.
fn copy_of(what: &What) -> Result<What, NoMemory>
    ensures { IfOk result (λ copy. copy ≡ what.now) }
{
    Ok(what.clone()?)
}

/// The lines of a world. Contracts see the list of them.
#[derive(Debug, Drop)]
pub struct Lines {
    items: Vec<Line>,
}

impl Model for Lines {
    ghost use Rattle.std.specs.Prelude.{List};
    ghost use Rattle.asio_types.specs.declared.world.Line.{Line};

    ghost Value = { List Line };

    ghost view = { λ l. l.items.items };
}

impl Lines {
    /// The lines of a vector. Takes no memory.
    pub fn of(items: Vec<Line>) -> Lines
        ensures { result ≡ items.items }
    {
        Lines { items }
    }

    /// A copy of these lines. Takes memory in proportion to them and their bytes.
    pub fn from_slice(alloc: Global, lines: &[Line]) -> Result<Lines, NoMemory>
        ensures { IfOk result (λ copy. copy ≡ lines.now) }
    {
        let mut items = Vec::with_capacity(alloc, lines.len())?;
        for line in lines {
            let what = copy_of(&line.what)?;
            items.push(Line {
                time: line.time,
                stream: line.stream,
                what,
            })?;
        }
        Ok(Lines { items })
    }

    /// The lines.
    pub fn as_slice(&self) -> &[Line]
        ensures { result.now ≡ self.now }
    {
        self.items.as_slice()
    }

    /// The lines as a vector again. Takes no memory.
    pub fn into_vec(self) -> Vec<Line>
        ensures { result.items ≡ self }
    {
        self.items
    }
}
