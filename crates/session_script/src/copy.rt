ghost use Rattle.std.specs.Prelude.{◌≡◌, IfOk};

use crate::act::Act;
use crate::parts::PlacedAct;
use asio_types::{Lines, NoMemory, World};
use std::alloc::Global;

/// A derived clone says of each field that it is a clone; this says that the copy is the same.
fn copy_act(act: &Act) -> Result<Act, NoMemory>
    ensures { IfOk result (λ copy. copy ≡ act.now) }
{
    Ok(act.clone()?)
}

/// A copy of acts with their places.
pub(crate) fn copy_entries(alloc: Global, entries: &[PlacedAct]) -> Result<Vec<PlacedAct>, NoMemory>
    ensures { IfOk result (λ copy. copy.items ≡ entries.now) }
{
    let mut copy = Vec::with_capacity(alloc, entries.len())?;
    for entry in entries {
        let act = copy_act(&entry.act)?;
        copy.push(PlacedAct {
            act,
            parent: entry.parent,
        })?;
    }
    Ok(copy)
}

/// A copy of a world.
pub(crate) fn copy_world(alloc: Global, world: &World) -> Result<World, NoMemory>
    ensures { IfOk result (λ copy. copy ≡ world.now) }
{
    Ok(World {
        streams: world.streams,
        lines: Lines::from_slice(alloc, world.lines.as_slice())?,
    })
}
