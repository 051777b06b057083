ghost use Rattle.std.specs.Prelude.{◌≡◌, ◌<◌, ◌≤◌, length, drop, Some, min, IsOk, IfOk};
ghost use Rattle.asio_types.specs.Source.{GivesNext, LosesFirst};

use crate::failure::{Failed, NoMemory};
use crate::source::Source;
use crate::unread::Unread;
use std::alloc::Global;
use std::marker::Model;

/// A text in memory as a source that gives a few bytes at a time. It never fails and tells its
/// bytes.
#[derive(Debug, Drop)]
pub struct SlowSource {
    left: Unread,
    // the most bytes that one call gives
    step: u32,
}

impl Model for SlowSource {
    ghost use Rattle.std.specs.Prelude.{◌<◌};
    ghost use Rattle.asio_types.specs.Source.{SlowReading};

    ghost Value = { SlowReading };

    ghost view = { λ s. record { left = s.left; step = s.step } };

    ghost invariant = { λ s. 0 < s.step };
}

impl SlowSource {
    /// A source of these bytes that gives at most `step` of them at a time.
    pub fn make(alloc: Global, bytes: &[u8], step: u32) -> Result<SlowSource, NoMemory>
        requires { 0 < step }
        ensures { IfOk result (λ source. source ≡ record { left = bytes.now; step = step }) }
    {
        Ok(SlowSource {
            left: Unread::make(alloc, bytes)?,
            step,
        })
    }
}

impl Source for SlowSource {
    ghost faults = { λ _. 0 };

    ghost left = { λ s. Some s.left };

    /// Gives the next bytes, as many as the buffer takes, but at most `step`; behind them the
    /// buffer stays as it was.
    fn read(&mut self, buf: &mut [u8]) -> Result<usize, Failed>
        requires { 0 < length buf.old }
        ensures bound { IfOk result (λ n. n ≤ length buf.old) }
        ensures next { IfOk result (λ n. GivesNext (Some self.old.left) n buf.new) }
        ensures rest { IfOk result (λ n. LosesFirst (Some self.old.left) n (Some self.new.left)) }
        ensures whole { IfOk result
            (λ n. n ≡ min self.old.step (min (length buf.old) (length self.old.left))) }
        ensures same { self.new.step ≡ self.old.step }
        ensures behind { IfOk result (λ n. drop n buf.new ≡ drop n buf.old) }
        ensures sure { IsOk result }
    {
        Ok(self.left.give(buf, self.step as usize))
    }
}
