ghost use Rattle.std.specs.Prelude.{◌≡◌, ◌+◌, ◌++◌, ◌∷◌, [], Some};
ghost use Rattle.op_future.specs.Tasks.{TaskState, WantsWhileLeft};

use asio_types::OpNo;
use lane_logs::Receipt;

/// A state machine that wants the results of operations, one after another: what an asynchronous
/// function would be (Asio reference, Overview, "The Proactor Design Pattern"). It is asked and told
/// in the thread of the worker that looks for it, and no lock is held meanwhile.
pub trait Task: Drop {
    /// The receipts that it got, how many it still wants, and which operation's it wants next.
    ghost state: { Self → TaskState };

    /// It wants one exactly while some are left.
    ghost wants_while_left: { (task : Self) → WantsWhileLeft (state task) };

    /// The operation whose receipt it wants next.
    fn wants(&self) -> Option<OpNo>
        ensures { result ≡ (state self.now).wanted };

    /// It gets the receipt of that operation.
    fn got(&mut self, receipt: Receipt)
        requires { (state self.old).wanted ≡ Some receipt.op }
        ensures receipts { (state self.new).receipts ≡ (state self.old).receipts ++ receipt ∷ [] }
        ensures left { (state self.new).left + 1 ≡ (state self.old).left };
}
