ghost use Rattle.std.specs.Prelude.{◌≡◌, ◌≢◌, ◌≤◌, ◌<◌, [], ◌∷◌, ◌++◌, length, true, false, replicate, slice_set, slice_index_or, IfOk, IfSome, IfNone};
ghost use Rattle.book_context.specs.Listed.{Listed};

use asio_types::{ActNo, Code, NoMemory, OpNo};
use std::alloc::Global;
use std::collections::VecDeque;
use std::marker::Model;

/// The ready operations and the untaken requests, both oldest first, and which acts were called.
#[derive(Debug, Drop)]
pub(crate) struct Lists {
    ready: VecDeque<(OpNo, Code, u32)>,
    requests: VecDeque<ActNo>,
    room: u32,
    called: Vec<bool>,
}

impl Model for Lists {
    ghost use Rattle.std.specs.Prelude.{◌≤◌};
    ghost use Rattle.std.specs.VecDeque.{deque_capacity};
    ghost use Rattle.book_context.specs.Listed.{Listed};

    ghost Value = { Listed };

    ghost view = { λ l.
        record {
          ready = l.ready.items;
          requests = l.requests.items;
          room = l.room;
          called = l.called.items;
        } };

    ghost invariant = { λ l.
        (l.room ≤ deque_capacity l.ready) × (l.room ≤ deque_capacity l.requests) };
}

impl Lists {
    /// Nothing ready, asked or called, with room for so many acts.
    pub(crate) fn make(alloc: Global, acts: u32) -> Result<Lists, NoMemory>
        ensures { IfOk result (λ lists.
            lists
            ≡ record {
              ready = [];
              requests = [];
              room = acts;
              called = replicate acts false;
            }) }
    {
        Ok(Lists {
            ready: VecDeque::with_capacity(alloc, acts as usize)?,
            requests: VecDeque::with_capacity(alloc, acts as usize)?,
            room: acts,
            called: vec![in alloc; false; acts as usize]?,
        })
    }

    /// An operation is ready behind the others. Takes no memory.
    pub(crate) fn push_ready(&mut self, op: OpNo, code: Code, size: u32)
        requires { length self.old.ready < self.old.room }
        ensures { self.new ≡ record self.old { ready = self.old.ready ++ (op, code, size) ∷ [] } }
    {
        self.ready.push_back_reserved((op, code, size));
    }

    /// A request waits behind the others. Takes no memory.
    pub(crate) fn push_request(&mut self, act: ActNo)
        requires { length self.old.requests < self.old.room }
        ensures { self.new ≡ record self.old { requests = self.old.requests ++ act ∷ [] } }
    {
        self.requests.push_back_reserved(act);
    }

    /// An act was called.
    pub(crate) fn mark_called(&mut self, act: ActNo)
        ensures { self.new ≡ record self.old { called = slice_set self.old.called act true } }
    {
        if (act as usize) < self.called.len() {
            self.called[act as usize] = true;
        }
    }

    /// The oldest ready operation.
    pub(crate) fn pop_ready(&mut self) -> Option<(OpNo, Code, u32)>
        ensures some { IfSome result (λ oldest. self.old.ready ≡ oldest ∷ self.new.ready) }
        ensures none { IfNone result (self.old.ready ≡ []) }
        ensures after { self.new ≡ record self.old { ready = self.new.ready } }
        ensures unchanged { IfNone result (self.new ≡ self.old) }
    {
        self.ready.pop_front()
    }

    /// The oldest request.
    pub(crate) fn pop_request(&mut self) -> Option<ActNo>
        ensures some { IfSome result (λ oldest. self.old.requests ≡ oldest ∷ self.new.requests) }
        ensures none { IfNone result (self.old.requests ≡ []) }
        ensures after { self.new ≡ record self.old { requests = self.new.requests } }
        ensures unchanged { IfNone result (self.new ≡ self.old) }
    {
        self.requests.pop_front()
    }

    /// Whether nothing is ready.
    pub(crate) fn is_ready_empty(&self) -> bool
        ensures empty { result ≡ true → self.now.ready ≡ [] }
        ensures some { result ≡ false → self.now.ready ≢ [] }
    {
        self.ready.is_empty()
    }

    /// Whether no request waits.
    pub(crate) fn is_request_empty(&self) -> bool
        ensures empty { result ≡ true → self.now.requests ≡ [] }
        ensures some { result ≡ false → self.now.requests ≢ [] }
    {
        self.requests.is_empty()
    }

    /// Whether an act was called; a number that no act has wasn't.
    pub(crate) fn was_called(&self, act: ActNo) -> bool
        ensures { result ≡ slice_index_or self.now.called act false }
    {
        self.called.get(act as usize).copied().unwrap_or(false)
    }
}
