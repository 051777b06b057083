ghost use Rattle.std.specs.Prelude.{◌≡◌, ◌+◌, ◌≤◌, ◌++◌, ◌<◌, ◌↔◌, [], false, true, length, slice_get, vec_capacity, vec_len, IfOk, IsSome, Some};
ghost use Rattle.std.specs.VecDeque.{deque_capacity};
ghost use Rattle.std.specs.Option.{is_some, option_to_list};
ghost use Rattle.io_rules.specs.Strands.{First, Last, Later};
ghost use Rattle.io_strands.specs.declared.ready.ReadyOp.{ReadyOp};
ghost use Rattle.io_strands.specs.Cell.{MayBeReady, MayBeTied, begun, called, emptied, ended, is_there, may_begin, readied, vacant};

use crate::ready::ReadyOp;
use asio_types::NoMemory;
use std::alloc::Global;
use std::collections::VecDeque;
use std::marker::Model;

/// A place for a strand (Asio reference, `strand`): operations whose handlers execute one at a time, in
/// order, and the state of the program that these handlers share. Contracts see what is ready, next first,
/// what executes, the state where it is here, and for how many ready operations there is room.
pub struct Strand<H, S> {
    // what is ready, next first
    queue: VecDeque<ReadyOp<H>>,
    // for how many of these there is room
    room: u32,
    // how many of these were put first since one began
    front: usize,
    // what executes
    runs: Option<u64>,
    // how many operations have handlers that execute here
    tied: u64,
    // the program's; whoever executes a handler has it meanwhile
    state: Option<S>,
}

impl<H, S> Model for Strand<H, S> {
    ghost use Rattle.std.specs.Prelude.{◌≤◌};
    ghost use Rattle.std.specs.VecDeque.{deque_capacity};
    ghost use Rattle.io_strands.specs.Cell.{Cell, IsCell};

    ghost Value = { Cell H S };

    ghost view = { λ s. record {
      queue = s.queue.items;
      front = s.front;
      runs = s.runs;
      tied = s.tied;
      state = s.state;
      room = s.room;
    } };

    ghost invariant = { λ s. (s.room ≤ deque_capacity s.queue) × IsCell (record {
      queue = s.queue.items;
      front = s.front;
      runs = s.runs;
      tied = s.tied;
      state = s.state;
      room = s.room;
    }) };
}

/// Moves all elements of a queue behind those of a list, which has room for them.
fn move_all<T>(from: &mut VecDeque<T>, to: &mut Vec<T>)
    requires { vec_len to.old + length from.old.items ≤ vec_capacity to.old }
    ensures moved { to.new.items ≡ to.old.items ++ from.old.items }
    ensures empty { from.new.items ≡ [] }
    ensures room { vec_capacity to.new ≡ vec_capacity to.old }
    ensures kept { deque_capacity from.new ≡ deque_capacity from.old }
{
    while let Some(one) = from.pop_front() {
        to.push_reserved(one);
    }
}

/// Takes out the first element. Where it is the only one, the next comes to the same slot: so a queue that is
/// mostly short keeps to a few slots of its room.
fn take_first<T>(queue: &mut VecDeque<T>) -> Option<T>
    ensures items { queue.old.items ≡ option_to_list result ++ queue.new.items }
    ensures some { IsSome result ↔ (0 < length queue.old.items) }
    ensures capacity { deque_capacity queue.new ≡ deque_capacity queue.old }
{
    if queue.len() == 1 {
        queue.pop_back()
    } else {
        queue.pop_front()
    }
}

impl<H, S> Strand<H, S> {
    /// A place without a strand, with room for so many ready operations. Takes memory for all of them, and
    /// nothing takes memory later; `NoMemory` where it is refused.
    pub fn with_room(alloc: Global, room: u32) -> Result<Strand<H, S>, NoMemory>
        ensures { IfOk result (λ made. made ≡ vacant room) }
    {
        let queue = VecDeque::with_capacity(alloc, room as usize)?;
        Ok(Strand {
            queue,
            room,
            front: 0,
            runs: None,
            tied: 0,
            state: None,
        })
    }

    /// A strand is made here, with this state.
    pub fn open(&mut self, state: S)
        requires { is_there self.old ≡ false }
        ensures { self.new ≡ record self.old { state = Some state } }
    {
        match self.state.replace(state) {
            None => {}
            Some(_) => unreachable!(),
        }
    }

    /// The strand is gone, and its state comes out. It has no operation.
    pub fn close(&mut self) -> Option<S>
        requires { self.old.queue ≡ [] }
        ensures vacant { self.new ≡ vacant self.old.room }
        ensures state { result ≡ self.old.state }
    {
        self.front = 0;
        self.tied = 0;
        self.runs = None;
        self.state.take()
    }

    /// Takes out all that is ready, behind what the list has, which has room for it.
    pub fn empty_into(&mut self, left: &mut Vec<ReadyOp<H>>)
        requires { vec_len left.old + length self.old.queue ≤ vec_capacity left.old }
        ensures left { left.new.items ≡ left.old.items ++ self.old.queue }
        ensures room { vec_capacity left.new ≡ vec_capacity left.old }
        ensures strand { self.new ≡ emptied self.old }
    {
        move_all(&mut self.queue, left);
        self.front = 0;
    }

    /// Gives its memory back. No strand is here.
    pub fn destroy(self)
        requires { is_there self ≡ false }
    {
        let Strand {
            queue,
            room: _,
            front: _,
            runs: _,
            tied: _,
            state,
        } = self;
        queue.destroy_empty();
        match state {
            None => {}
            Some(_state) => unreachable!(),
        }
    }

    /// An operation is initiated that is ready at once, behind all that is (`post`, `defer`).
    pub fn call_last(&mut self, op: ReadyOp<H>)
        requires ready { MayBeReady self.old }
        requires tied { MayBeTied self.old }
        ensures { self.new ≡ called Last op self.old }
    {
        self.queue.push_back_reserved(op);
        self.tied += 1;
    }

    /// A handler of this strand dispatches to it: the operation is ready before all that is, save what
    /// the same handler dispatched before (`dispatch`).
    pub fn call_first(&mut self, op: ReadyOp<H>)
        requires ready { MayBeReady self.old }
        requires tied { MayBeTied self.old }
        ensures { self.new ≡ called First op self.old }
    {
        match self.queue.insert(self.front, op) {
            Ok(()) => {}
            Err(_refused) => unreachable!(),
        }
        self.front += 1;
        self.tied += 1;
    }

    /// An operation is initiated that isn't ready yet.
    pub fn call_later(&mut self)
        requires { MayBeTied self.old }
        ensures { (op : ReadyOp H) → self.new ≡ called Later op self.old }
    {
        self.tied += 1;
    }

    /// An operation that is tied to this strand has completed: it is ready behind the others.
    pub fn ready(&mut self, op: ReadyOp<H>)
        requires { MayBeReady self.old }
        ensures { self.new ≡ readied op self.old }
    {
        self.queue.push_back_reserved(op);
    }

    /// The first one that is ready begins, where nothing executes, and the state comes out with it.
    pub fn begin(&mut self) -> (ReadyOp<H>, S)
        requires { may_begin self.old ≡ true }
        ensures first { slice_get self.old.queue 0 ≡ Some result.0 }
        ensures state { self.old.state ≡ Some result.1 }
        ensures begun { self.new ≡ begun result.0 self.old }
    {
        match (take_first(&mut self.queue), self.state.take()) {
            (Some(op), Some(state)) => {
                self.front = 0;
                self.runs = Some(op.number);
                (op, state)
            }
            _ => unreachable!(),
        }
    }

    /// What executes has returned, and the state comes back.
    pub fn end(&mut self, state: S)
        requires { is_some self.old.runs ≡ true }
        ensures { self.new ≡ ended state self.old }
    {
        self.runs = None;
        self.tied = self.tied.saturating_sub(1);
        match self.state.replace(state) {
            None => {}
            Some(_) => unreachable!(),
        }
    }

    /// Whether a handler may begin here: one is ready, and none executes.
    pub fn may_begin(&self) -> bool
        ensures { result ≡ may_begin self.now }
    {
        !self.queue.is_empty() && self.runs.is_none()
    }

    /// How many operations have handlers that execute here, with the one that executes.
    pub fn tied(&self) -> u64
        ensures { result ≡ self.now.tied }
    {
        self.tied
    }
}
