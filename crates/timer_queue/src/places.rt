ghost use Rattle.std.specs.Prelude.{◌≡◌, ℕ, ◌<◌, ◌^◌, List, IfOk, replicate, slice_get, slice_set};

use asio_types::{NoMemory, OpNo};
use std::alloc::Global;
use std::marker::Model;

/// Where in the heap each operation is whose number is below the number of places. Contracts see
/// the list of places.
#[derive(Drop)]
pub(crate) struct Places {
    // at the number of an operation its index in the heap, where it is there
    last: Vec<u32>,
}

impl Model for Places {
    ghost Value = { List ℕ };

    ghost view = { λ p. p.last.items };
}

impl Places {
    pub(crate) fn with_room(alloc: Global, room: u32) -> Result<Places, NoMemory>
        ensures { IfOk result (λ made. made ≡ replicate room 0) }
    {
        let last = vec![in alloc; 0; room as usize]?;
        Ok(Places { last })
    }

    /// An operation is at this index of the heap now. An operation without a place isn't noted.
    pub(crate) fn remember(&mut self, op: OpNo, at: usize)
        requires { at < 2 ^ 32 }
        ensures { self.new ≡ slice_set self.old op at }
    {
        let number = op as usize;
        if number < self.last.len() {
            self.last[number] = at as u32;
        }
    }

    /// Where an operation was last noted; `None` exactly where it has no place.
    pub(crate) fn guess(&self, op: OpNo) -> Option<usize>
        ensures { result ≡ slice_get self.now op }
    {
        self.last.get(op as usize).map(|at| *at as usize)
    }
}
