//! A task that wants operations of a list, one after another.
ghost use Rattle.std.specs.Prelude.{◌≡◌, ◌+◌, ◌≤◌, [], length, vec_capacity};

use asio_types::OpNo;
use lane_logs::Receipt;
use op_future::Task;
use std::sync::atomic::{AtomicBool, Ordering};

/// It raises a flag at each receipt.
#[derive(Drop)]
pub(crate) struct Listed<'w> {
    left: &'w [OpNo],
    got: Vec<Receipt>,
    flag: &'w AtomicBool,
    // its receipts have room
    ghost room: { length left.now + length got.items ≤ vec_capacity got },
}

impl<'w> Listed<'w> {
    /// A task that wants these, with room for their receipts.
    pub(crate) fn of(wanted: &'w [OpNo], room: Vec<Receipt>, flag: &'w AtomicBool) -> Listed<'w>
        requires none { room.items ≡ [] }
        requires room { length wanted.now ≤ vec_capacity room }
    {
        Listed {
            left: wanted,
            got: room,
            flag,
        }
    }

    /// The receipts that it got.
    pub(crate) fn receipts(&self) -> &[Receipt] {
        self.got.as_slice()
    }
}

impl<'w> Task for Listed<'w> {
    ghost use Rattle.std.specs.Prelude.{length, slice_get};
    ghost use Rattle.future_tests.specs.Listed.{wants_while_some};

    ghost state = { λ task. record {
      receipts = task.got.items;
      left = length task.left.now;
      wanted = slice_get task.left.now 0;
    } };

    ghost wants_while_left = { λ task. wants_while_some task.left.now };

    fn wants(&self) -> Option<OpNo> {
        self.left.first().copied()
    }

    fn got(&mut self, receipt: Receipt) {
        let left = self.left;
        self.left = &left[1..];
        self.got.push_reserved(receipt);
        self.flag.store(true, Ordering::SeqCst);
    }
}
