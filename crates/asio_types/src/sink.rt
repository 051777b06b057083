ghost use Rattle.std.specs.Prelude.{ℕ, ◌<◌, ◌≤◌, List, [], length, take, Option, IfOk, OnErr};
ghost use Rattle.asio_types.specs.Faults.{CountsFaults};
ghost use Rattle.asio_types.specs.Sink.{Extends};

use crate::failure::Failed;

/// Where bytes go: the part of a SyncWriteStream that the program writes its trace by.
pub trait Sink {
    /// How often it has failed.
    ghost faults: { Self → ℕ };

    /// The bytes that it holds, where it tells them.
    ghost written: { Self → Option (List ℕ) };

    /// Appends the first of these bytes, at least one, and answers how many. `Failed` comes only
    /// where the sink's count of faults rose, and an answer leaves that count; after a failure
    /// nothing was appended.
    fn write(&mut self, bytes: &[u8]) -> Result<usize, Failed>
        requires { 0 < length bytes.now }
        ensures some { IfOk result (λ n. 0 < n) }
        ensures bound { IfOk result (λ n. n ≤ length bytes.now) }
        ensures appended { IfOk result
            (λ n. Extends (written self.old) (take n bytes.now) (written self.new)) }
        ensures unchanged { OnErr result (Extends (written self.old) [] (written self.new)) }
        ensures counts { CountsFaults result (faults self.old) (faults self.new) }
        ensures later { faults self.old ≤ faults self.new };
}
