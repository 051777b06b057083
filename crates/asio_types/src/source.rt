ghost use Rattle.std.specs.Prelude.{ℕ, ◌<◌, ◌≤◌, List, length, Option, IfOk, OnErr};
ghost use Rattle.asio_types.specs.Faults.{CountsFaults};
ghost use Rattle.asio_types.specs.Source.{GivesNext, LosesFirst, KeepsLeft};

use crate::failure::Failed;

/// Where bytes come from: the part of a SyncReadStream that the program reads its script by.
pub trait Source {
    /// How often it has failed.
    ghost faults: { Self → ℕ };

    /// The bytes that it has left, where it tells them.
    ghost left: { Self → Option (List ℕ) };

    /// Reads the next bytes into the front of the buffer, and answers how many: none exactly at the
    /// end. `Failed` comes only where the source's count of faults rose, and an answer leaves that
    /// count; after a failure the bytes left are as before.
    fn read(&mut self, buf: &mut [u8]) -> Result<usize, Failed>
        requires { 0 < length buf.old }
        ensures bound { IfOk result (λ n. n ≤ length buf.old) }
        ensures next { IfOk result (λ n. GivesNext (left self.old) n buf.new) }
        ensures rest { IfOk result (λ n. LosesFirst (left self.old) n (left self.new)) }
        ensures unchanged { OnErr result (KeepsLeft (left self.old) (left self.new)) }
        ensures counts { CountsFaults result (faults self.old) (faults self.new) }
        ensures later { faults self.old ≤ faults self.new };
}
