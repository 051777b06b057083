ghost use Rattle.std.specs.Prelude.{◌≡◌, ℕ, ◌<◌, ◌≤◌, List, length, drop, Some, min, IsOk, IfOk};
ghost use Rattle.asio_types.specs.Source.{GivesNext, LosesFirst};

use crate::failure::{Failed, NoMemory};
use crate::source::Source;
use crate::unread::Unread;
use std::alloc::Global;
use std::marker::Model;

/// A text in memory as a source that never fails and tells its bytes. Contracts see what is left.
#[derive(Debug, Drop)]
pub struct SureSource {
    left: Unread,
}

impl Model for SureSource {
    ghost Value = { List ℕ };

    ghost view = { λ s. s.left };
}

impl SureSource {
    /// A source of these bytes.
    pub fn make(alloc: Global, bytes: &[u8]) -> Result<SureSource, NoMemory>
        ensures { IfOk result (λ source. source ≡ bytes.now) }
    {
        Ok(SureSource {
            left: Unread::make(alloc, bytes)?,
        })
    }
}

impl Source for SureSource {
    ghost faults = { λ _. 0 };

    ghost left = { λ s. Some s };

    /// Fills the buffer as far as bytes are left; behind them it stays as it was.
    fn read(&mut self, buf: &mut [u8]) -> Result<usize, Failed>
        requires { 0 < length buf.old }
        ensures bound { IfOk result (λ n. n ≤ length buf.old) }
        ensures next { IfOk result (λ n. GivesNext (Some self.old) n buf.new) }
        ensures rest { IfOk result (λ n. LosesFirst (Some self.old) n (Some self.new)) }
        ensures whole { IfOk result (λ n. n ≡ min (length buf.old) (length self.old)) }
        ensures behind { IfOk result (λ n. drop n buf.new ≡ drop n buf.old) }
        ensures sure { IsOk result }
    {
        let most = buf.len();
        Ok(self.left.give(buf, most))
    }
}
