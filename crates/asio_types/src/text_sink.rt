ghost use Rattle.std.specs.Prelude.{◌≡◌, ◌<◌, ◌≤◌, ◌↔◌, ◌⊎◌, [], length, take, min, Some, Contains, IfOk, IsErr, OnErr};
ghost use Rattle.asio_types.specs.Faults.{CountsFaults, next_call, plan_called, plan_failed};
ghost use Rattle.asio_types.specs.Sink.{Extends, holding_more};

use crate::failure::{Failed, NoMemory};
use crate::kept::Kept;
use crate::plan::FailPlan;
use crate::sink::Sink;
use std::alloc::Global;
use std::marker::Model;

/// Memory as a sink. It tells its bytes, and fails at the calls of `write` that its maker named and
/// where its room is used up.
#[derive(Debug, Drop)]
pub struct TextSink {
    held: Kept,
    // which calls of `write` fail
    plan: FailPlan,
}

impl Model for TextSink {
    ghost use Rattle.asio_types.specs.Sink.{TextWriting};

    ghost Value = { TextWriting };

    ghost view = { λ s. record { held = s.held; plan = s.plan } };
}

impl TextSink {
    /// An empty sink with room for so many bytes whose calls of `write` with the numbers in
    /// `fails`, from 1, fail.
    pub fn make(alloc: Global, room: u32, fails: &[u32]) -> Result<TextSink, NoMemory>
        ensures empty { IfOk result (λ sink. sink.held ≡ record { bytes = []; room = room }) }
        ensures fails { IfOk result
            (λ sink. sink.plan ≡ record { fails = fails.now; calls = 0; faults = 0 }) }
    {
        Ok(TextSink {
            held: Kept::make(alloc, room)?,
            plan: FailPlan::make(alloc, fails)?,
        })
    }

    /// What was written.
    pub fn bytes(&self) -> &[u8]
        ensures { result.now ≡ self.now.held.bytes }
    {
        self.held.as_slice()
    }
}

impl Sink for TextSink {
    ghost faults = { λ s. s.plan.faults };

    ghost written = { λ s. Some s.held.bytes };

    /// Fails exactly at the named calls and where no room is left, and else takes what there is
    /// room for. A failure leaves the bytes and the room, and counts one fault.
    fn write(&mut self, bytes: &[u8]) -> Result<usize, Failed>
        requires { 0 < length bytes.now }
        ensures some { IfOk result (λ n. 0 < n) }
        ensures bound { IfOk result (λ n. n ≤ length bytes.now) }
        ensures appended { IfOk result (λ n.
            Extends (Some self.old.held.bytes) (take n bytes.now) (Some self.new.held.bytes)) }
        ensures unchanged { OnErr result
            (Extends (Some self.old.held.bytes) [] (Some self.new.held.bytes)) }
        ensures counts { CountsFaults result self.old.plan.faults self.new.plan.faults }
        ensures later { self.old.plan.faults ≤ self.new.plan.faults }
        ensures named { IsErr result
            ↔ (Contains self.old.plan.fails (next_call self.old.plan.calls)
            ⊎ (self.old.held.room ≡ 0)) }
        ensures called { IfOk result (λ _. self.new.plan ≡ plan_called self.old.plan) }
        ensures failed { OnErr result (self.new.plan ≡ plan_failed self.old.plan) }
        ensures whole { IfOk result (λ n. n ≡ min (length bytes.now) self.old.held.room) }
        ensures held { IfOk result
            (λ n. self.new.held ≡ holding_more (take n bytes.now) self.old.held) }
        ensures failed_held { OnErr result (self.new.held ≡ self.old.held) }
    {
        if self.plan.next_fails() || self.held.room() == 0 {
            self.plan.fail();
            return Err(Failed);
        }
        Ok(self.held.append(bytes, bytes.len()))
    }
}
