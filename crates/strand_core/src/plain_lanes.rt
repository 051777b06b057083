ghost use Rattle.std.specs.Prelude.{◌≡◌, ◌<◌, ◌≤◌, ◌+◌, ◌++◌, ◌∷◌, [], false, length, None, IsSome, IfOk};
ghost use Rattle.strand_core.specs.Ready.{next_waiting, was_pushed};

use asio_types::{Code, NoMemory, OpNo};
use session_script::Script;
use std::alloc::Global;
use std::marker::Model;

/// The ready operations of a session on one thread, oldest first: so those of each strand keep
/// their order (Asio reference, `io_context::strand`, "Order of handler invocation").
///
/// Contracts see what was pushed so far, and how many of it were popped.
#[derive(Debug, Drop)]
pub struct PlainLanes {
    acts: u32,
    // each operation is ready once
    pushed: Vec<(OpNo, Code, u32)>,
    popped: usize,
}

impl Model for PlainLanes {
    ghost use Rattle.std.specs.Prelude.{◌≤◌, vec_len, vec_capacity};
    ghost use Rattle.strand_core.specs.Ready.{ReadyLine, AreOnce};

    ghost Value = { ReadyLine };

    ghost view = { λ lanes.
        record { acts = lanes.acts; pushed = lanes.pushed.items; popped = lanes.popped } };

    ghost invariant = { λ lanes. record {
      room : lanes.acts ≤ vec_capacity lanes.pushed;
      once : AreOnce lanes.acts lanes.pushed.items;
      popped : lanes.popped ≤ vec_len lanes.pushed;
    } };
}

impl PlainLanes {
    /// None ready, and room for each operation of the script. Takes memory in proportion to its
    /// acts.
    pub fn make(alloc: Global, script: &Script) -> Result<PlainLanes, NoMemory>
        ensures { IfOk result
            (λ lanes. lanes ≡ record { acts = length script.now.acts; pushed = []; popped = 0 }) }
    {
        let acts = script.acts();
        Ok(PlainLanes {
            acts,
            pushed: Vec::with_capacity(alloc, acts as usize)?,
            popped: 0,
        })
    }

    /// An operation is ready, with its code and size. Takes no memory.
    pub fn push(&mut self, op: OpNo, code: Code, size: u32)
        requires known { op < self.old.acts }
        requires new { was_pushed self.old op ≡ false }
        ensures { self.new ≡ record self.old { pushed = self.old.pushed ++ (op, code, size) ∷ [] } }
    {
        self.pushed.push_reserved((op, code, size));
    }

    /// Whether an operation was pushed. Looks at each that was.
    pub fn was_pushed(&self, op: OpNo) -> bool
        ensures { result ≡ was_pushed self.now op }
    {
        self.pushed.iter().any(|ready| ready.0 == op)
    }

    /// The oldest that waits: `None` exactly where none does.
    pub fn pop(&mut self) -> Option<(OpNo, Code, u32)>
        ensures oldest { result ≡ next_waiting self.old }
        ensures after { IsSome result →
            self.new ≡ record self.old { popped = self.old.popped + 1 } }
        ensures unchanged { result ≡ None → self.new ≡ self.old }
    {
        let next = self.pushed.get(self.popped).copied();
        if next.is_some() {
            self.popped += 1;
        }
        next
    }
}
