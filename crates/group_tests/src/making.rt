//! Groups for tests, and what their scripts are written as.

use asio_types::{Bytes, Line, Lines, Types, What, World};
use parallel_group::{GroupFault, Member, Members, WaitFor, group_script};
use session_script::{Script, write_script};
use std::alloc::Global;
use std::process::Abort;

/// Said where memory is refused.
pub(crate) const MEMORY: &str = "memory for a test";

/// The bytes of a line of a world, and when they arrive.
pub(crate) type Feed = (u64, usize);

/// A group without its world.
#[derive(Clone, Copy)]
pub(crate) struct Setup {
    pub(crate) members: &'static [Member],
    pub(crate) rule: WaitFor,
    pub(crate) types: u8,
    pub(crate) workers: u8,
}

/// A world of so many streams, to whose first one so many bytes arrive at these times.
pub(crate) fn world_of<R: Abort>(rt: &R, alloc: Global, streams: u8, feeds: &[Feed]) -> World {
    let mut lines = Vec::new(alloc);
    for &(time, count) in feeds {
        let bytes = vec![in alloc; b'a'; count].expect(rt, MEMORY);
        lines
            .push(Line {
                time,
                stream: 0,
                what: What::Feed(Bytes::of(bytes)),
            })
            .expect(rt, MEMORY);
    }
    World {
        streams,
        lines: Lines::of(lines),
    }
}

/// The script of a group in a world.
pub(crate) fn script_in<R: Abort>(
    rt: &R,
    alloc: Global,
    world: &World,
    setup: Setup,
) -> Result<Script, GroupFault> {
    let members = Members::of(Vec::from_slice(alloc, setup.members).expect(rt, MEMORY));
    let types = Types::of(setup.types).unwrap_or(Types::all());
    group_script(alloc, world, &members, setup.rule, types, setup.workers)
}

/// The text of the script of a group in a world of so many streams and these lines; none where it
/// is refused.
pub(crate) fn text_in<R: Abort>(
    rt: &R,
    alloc: Global,
    streams: u8,
    feeds: &[Feed],
    setup: Setup,
) -> Option<Vec<u8>> {
    let world = world_of(rt, alloc, streams, feeds);
    let Ok(script) = script_in(rt, alloc, &world, setup) else {
        return None;
    };
    Some(write_script(alloc, &script).expect(rt, MEMORY))
}
