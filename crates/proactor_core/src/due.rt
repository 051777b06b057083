ghost use Rattle.std.specs.Prelude.{◌≡◌, ◌<◌, ◌+◌, [], ◌∷◌, length, IfOk, IfNone, IfSome};
ghost use Rattle.proactor_core.specs.Due.{listed};

use asio_types::NoMemory;
use std::alloc::Global;
use std::collections::VecDeque;
use std::marker::Model;
use stream_rules::Completion;

/// What has completed and wasn't told yet, in room that is reserved once. Contracts see the
/// completions in the order in which they are told, and how many more there is room for. Every call
/// but `with_room` takes constant time and no memory.
#[derive(Drop)]
pub(crate) struct DueList {
    queue: VecDeque<Completion>,
}

impl Model for DueList {
    ghost use Rattle.std.specs.Prelude.{◌-◌};
    ghost use Rattle.std.specs.VecDeque.{deque_capacity, deque_len};
    ghost use Rattle.proactor_core.specs.Due.{Due};

    ghost Value = { Due };

    ghost view = { λ d.
        record { coming = d.queue.items; spare = deque_capacity d.queue - deque_len d.queue } };
}

impl DueList {
    /// A list without completions. Takes memory for `room` of them; `NoMemory` where it is refused.
    pub(crate) fn with_room(alloc: Global, room: usize) -> Result<DueList, NoMemory>
        ensures { IfOk result (λ made. made ≡ record { coming = []; spare = room }) }
    {
        let queue = VecDeque::with_capacity(alloc, room)?;
        Ok(DueList { queue })
    }

    /// One more, which is told after the others.
    pub(crate) fn push_reserved(&mut self, completion: Completion)
        requires { 0 < self.old.spare }
        ensures { self.new ≡ listed (completion ∷ []) self.old }
    {
        self.queue.push_back_reserved(completion);
    }

    /// Takes the completion out that is told next; `None` exactly where there is none.
    pub(crate) fn next(&mut self) -> Option<Completion>
        ensures first { IfSome result (λ head. self.old.coming ≡ head ∷ self.new.coming) }
        ensures room { IfSome result (λ _. self.new.spare ≡ self.old.spare + 1) }
        ensures none { IfNone result (self.old.coming ≡ []) }
        ensures unchanged { IfNone result (self.new ≡ self.old) }
    {
        self.queue.pop_front()
    }

    /// How many are to be told.
    pub(crate) fn count(&self) -> usize
        ensures { result ≡ length self.now.coming }
    {
        self.queue.len()
    }

    /// Those that weren't told are forgotten, and their room is free.
    pub(crate) fn clear(&mut self)
        ensures coming { self.new.coming ≡ [] }
        ensures room { self.new.spare ≡ self.old.spare + length self.old.coming }
    {
        self.queue.clear();
    }
}
