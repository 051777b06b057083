ghost use Rattle.std.specs.Prelude.{◌≡◌, ◌<◌, ◌≤◌, ◌↔◌, length, drop, min, Some, Contains, IfOk, IsErr, OnErr};
ghost use Rattle.asio_types.specs.Faults.{CountsFaults, next_call, plan_called, plan_failed};
ghost use Rattle.asio_types.specs.Source.{GivesNext, LosesFirst, KeepsLeft};

use crate::failure::{Failed, NoMemory};
use crate::plan::FailPlan;
use crate::source::Source;
use crate::unread::Unread;
use std::alloc::Global;
use std::marker::Model;

/// A text in memory as a source. It tells its bytes, and fails at the calls of `read` that its
/// maker named.
#[derive(Debug, Drop)]
pub struct TextSource {
    left: Unread,
    // which calls of `read` fail
    plan: FailPlan,
}

impl Model for TextSource {
    ghost use Rattle.asio_types.specs.Source.{TextReading};

    ghost Value = { TextReading };

    ghost view = { λ s. record { left = s.left; plan = s.plan } };
}

impl TextSource {
    /// A source of these bytes whose calls of `read` with the numbers in `fails`, from 1, fail.
    pub fn make(alloc: Global, bytes: &[u8], fails: &[u32]) -> Result<TextSource, NoMemory>
        ensures bytes { IfOk result (λ source. source.left ≡ bytes.now) }
        ensures fails { IfOk result
            (λ source. source.plan ≡ record { fails = fails.now; calls = 0; faults = 0 }) }
    {
        Ok(TextSource {
            left: Unread::make(alloc, bytes)?,
            plan: FailPlan::make(alloc, fails)?,
        })
    }
}

impl Source for TextSource {
    ghost faults = { λ s. s.plan.faults };

    ghost left = { λ s. Some s.left };

    /// Fails exactly at the named calls, and else fills the buffer as far as bytes are left; behind
    /// them it stays as it was. A failure leaves the bytes and the buffer, and counts one fault.
    fn read(&mut self, buf: &mut [u8]) -> Result<usize, Failed>
        requires { 0 < length buf.old }
        ensures bound { IfOk result (λ n. n ≤ length buf.old) }
        ensures next { IfOk result (λ n. GivesNext (Some self.old.left) n buf.new) }
        ensures rest { IfOk result (λ n. LosesFirst (Some self.old.left) n (Some self.new.left)) }
        ensures unchanged { OnErr result (KeepsLeft (Some self.old.left) (Some self.new.left)) }
        ensures counts { CountsFaults result self.old.plan.faults self.new.plan.faults }
        ensures later { self.old.plan.faults ≤ self.new.plan.faults }
        ensures named { IsErr result
            ↔ Contains self.old.plan.fails (next_call self.old.plan.calls) }
        ensures called { IfOk result (λ _. self.new.plan ≡ plan_called self.old.plan) }
        ensures failed { OnErr result (self.new.plan ≡ plan_failed self.old.plan) }
        ensures whole { IfOk result (λ n. n ≡ min (length buf.old) (length self.old.left)) }
        ensures behind { IfOk result (λ n. drop n buf.new ≡ drop n buf.old) }
        ensures failed_buffer { OnErr result (buf.new ≡ buf.old) }
    {
        if self.plan.next_fails() {
            self.plan.fail();
            return Err(Failed);
        }
        let most = buf.len();
        Ok(self.left.give(buf, most))
    }
}
