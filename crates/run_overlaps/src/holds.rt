use std::alloc::{AllocError, Global};

/// What a thread holds.
#[derive(Clone, Copy, Debug, PartialEq, Eq)]
struct Hold {
    thread: u64,
    number: u64,
}

/// What threads hold, the latest last.
#[derive(Drop)]
pub(crate) struct Holds {
    all: Vec<Hold>,
}

impl Holds {
    pub(crate) fn new(alloc: Global) -> Holds {
        Holds {
            all: Vec::new(alloc),
        }
    }

    pub(crate) fn put(&mut self, thread: u64, number: u64) -> Result<(), AllocError> {
        self.all.push(Hold { thread, number })?;
        Ok(())
    }

    /// What a thread has taken last.
    pub(crate) fn last(&self, thread: u64) -> Option<u64> {
        for hold in self.all.iter().rev() {
            if hold.thread == thread {
                return Some(hold.number);
            }
        }
        None
    }

    /// Gives back the latest of these that a thread holds.
    pub(crate) fn give(&mut self, thread: u64, number: u64) {
        let wanted = Hold { thread, number };
        if let Some(at) = self.all.iter().rposition(|hold| *hold == wanted) {
            let _given: Hold = self.all.remove(at);
        }
    }
}
