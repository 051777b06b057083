ghost use Rattle.std.specs.Prelude.{◌≡◌, ◌+◌, ◌<◌, ℕ, IfOk, IfSome, IsTrue, List, None, Some};
ghost use Rattle.run_lines.specs.declared.line.Line.{Line};
ghost use Rattle.run_orders.specs.Causes.{takes_up};
ghost use Rattle.run_orders.specs.Forced.{begun_by, posts};

use crate::event::Event;
use run_lines::Doing;
use run_rules::Frame;
use std::alloc::{AllocError, Global};
use std::collections::HashMap;

/// The last line of a frame, and the operation that it posts.
#[derive(Clone, Copy, Debug, PartialEq, Eq)]
pub(crate) struct Last {
    pub(crate) place: u64,
    pub(crate) posted: Option<u64>,
}

/// The line that calls an operation, and whether it's a posting.
#[derive(Clone, Copy, Debug, PartialEq, Eq)]
pub(crate) struct Called {
    pub(crate) place: u64,
    pub(crate) posting: bool,
}

/// Where lines stand that come before later ones.
#[derive(Drop)]
pub(crate) struct Sources {
    /// The last lines of executions that go on, and of what threads do outside.
    executions: HashMap<u64, Last>,
    outsides: HashMap<u64, Last>,
    /// The calls and completions of operations that wait.
    calls: HashMap<u64, Called>,
    dones: HashMap<u64, u64>,
    /// The begins of executions that go on.
    begins: HashMap<u64, u64>,
    /// Behind which line a posting stands in its queue.
    behind: HashMap<u64, u64>,
}

/// The operation that a line begins.
pub(crate) fn begun(does: &Doing) -> Option<u64>
    ensures { result ≡ begun_by does.now }
{
    match *does {
        Doing::Begin { op, .. } => Some(op),
        _ => None,
    }
}

/// The operation that a line completes, begins or drops.
pub(crate) fn taken_up(does: &Doing) -> Option<u64>
    ensures { result ≡ takes_up does.now }
{
    match *does {
        Doing::Done { op, .. } | Doing::Begin { op, .. } | Doing::Drop { op } => Some(op),
        _ => None,
    }
}

/// The operation that a line posts.
fn posted_by(does: &Doing) -> Option<u64>
    ensures { (op : ℕ) → result ≡ Some op → IsTrue (posts does.now op) }
{
    match *does {
        Doing::Call { op, word, .. } if word.is_posting() => Some(op),
        _ => None,
    }
}

impl Sources {
    ghost use Rattle.run_forced.specs.Events.{IsHere};
    ghost use Rattle.run_forced.specs.Sources.{AreSources, Begins, Completes, IsAt, IsCallOf, IsLast, begin_at, behind_at, call_at, done_at, last_of};

    pub(crate) fn new(alloc: Global) -> Sources
        ensures { (run : List Line) → AreSources run 0 result }
    {
        Sources {
            executions: HashMap::new(alloc),
            outsides: HashMap::new(alloc),
            calls: HashMap::new(alloc),
            dones: HashMap::new(alloc),
            begins: HashMap::new(alloc),
            behind: HashMap::new(alloc),
        }
    }

    pub(crate) fn last(&self, frame: Frame) -> Option<Last>
        ensures { result ≡ last_of self.now frame }
    {
        match frame {
            Frame::Execution { op } => self.executions.get(&op).copied(),
            Frame::Outside { thread } => self.outsides.get(&thread).copied(),
        }
    }

    pub(crate) fn call(&self, op: u64) -> Option<Called>
        ensures { result ≡ call_at self.now op }
    {
        self.calls.get(&op).copied()
    }

    pub(crate) fn done(&self, op: u64) -> Option<u64>
        ensures { result ≡ done_at self.now op }
    {
        self.dones.get(&op).copied()
    }

    pub(crate) fn begin(&self, op: u64) -> Option<u64>
        ensures { result ≡ begin_at self.now op }
    {
        self.begins.get(&op).copied()
    }

    /// The line behind which a posting stands in its queue.
    pub(crate) fn behind(&self, op: u64) -> Option<u64>
        ensures { result ≡ behind_at self.now op }
    {
        self.behind.get(&op).copied()
    }

    /// Keeps that what the frame of a line posted last stands in its queue from that line on.
    fn place(&mut self, event: &Event, place: u64) -> Result<(), AllocError>
        ensures { IfOk result (λ _. (run : List Line) → IsHere run place event.now → begun_by event.now.note.line.does ≡ None →
            AreSources run place self.old → AreSources run place self.new) }
    {
        if let Some(last) = self.last(event.note.frame) {
            if let Some(op) = last.posted {
                self.behind.insert(op, place)?;
            }
        }
        Ok(())
    }

    /// Keeps the last line of a frame.
    fn put_last(&mut self, frame: Frame, last: Last) -> Result<(), AllocError>
        ensures { IfOk result (λ _. (run : List Line) (lines : ℕ) → AreSources run lines self.old →
            IsAt run lines (IsLast frame last.posted) last.place → AreSources run lines self.new) }
    {
        match frame {
            Frame::Execution { op } => {
                self.executions.insert(op, last)?;
            }
            Frame::Outside { thread } => {
                self.outsides.insert(thread, last)?;
            }
        }
        Ok(())
    }

    /// Keeps a line that begins nothing.
    fn go_on(&mut self, event: &Event, place: u64) -> Result<(), AllocError>
        ensures { IfOk result (λ _. (run : List Line) → IsHere run place event.now → begun_by event.now.note.line.does ≡ None →
            AreSources run place self.old → AreSources run (place + 1) self.new) }
    {
        self.place(event, place)?;
        let last = Last {
            place,
            posted: posted_by(&event.note.line.does),
        };
        self.put_last(event.note.frame, last)?;
        Ok(())
    }

    /// Keeps a line that begins an operation.
    fn start(&mut self, op: u64, place: u64) -> Result<(), AllocError>
        ensures { IfOk result (λ _. (run : List Line) → IsAt run (place + 1) (Begins op) place →
            AreSources run place self.old → AreSources run (place + 1) self.new) }
    {
        let last = Last {
            place,
            posted: None,
        };
        self.put_last(Frame::Execution { op }, last)?;
        self.begins.insert(op, place)?;
        Ok(())
    }

    /// Keeps a line that calls an operation.
    fn put_call(&mut self, op: u64, called: Called) -> Result<(), AllocError>
        ensures { IfOk result (λ _. (run : List Line) (lines : ℕ) → AreSources run lines self.old →
            IsAt run lines (IsCallOf op called) called.place → AreSources run lines self.new) }
    {
        self.calls.insert(op, called)?;
        Ok(())
    }

    /// Keeps a line that completes an operation.
    fn put_done(&mut self, op: u64, place: u64) -> Result<(), AllocError>
        ensures { IfOk result (λ _. (run : List Line) (lines : ℕ) → AreSources run lines self.old →
            IsAt run lines (Completes op) place → AreSources run lines self.new) }
    {
        self.dones.insert(op, place)?;
        Ok(())
    }

    /// Forgets the call and the completion of an operation.
    pub(crate) fn forget_call(&mut self, op: u64)
        ensures { (run : List Line) (lines : ℕ) → AreSources run lines self.old → AreSources run lines self.new }
    {
        self.calls.remove(&op);
        self.dones.remove(&op);
    }

    /// Forgets an execution.
    pub(crate) fn forget_execution(&mut self, op: u64)
        ensures { (run : List Line) (lines : ℕ) → AreSources run lines self.old → AreSources run lines self.new }
    {
        self.executions.remove(&op);
        self.begins.remove(&op);
        self.behind.remove(&op);
    }

    /// Keeps what the next line calls or completes.
    fn put_operation(&mut self, event: &Event, place: u64) -> Result<(), AllocError>
        ensures { IfOk result (λ _. (run : List Line) → IsHere run place event.now →
            AreSources run (place + 1) self.old → AreSources run (place + 1) self.new) }
    {
        match event.note.line.does {
            Doing::Call { op, word, .. } => {
                let posting = word.is_posting();
                self.put_call(op, Called { place, posting })?;
                Ok(())
            }
            Doing::Done { op, .. } => {
                self.put_done(op, place)?;
                Ok(())
            }
            _ => Ok(()),
        }
    }

    /// Keeps the next line as the last of its frame, or as the first of the execution that it begins.
    fn put_line(&mut self, event: &Event, place: u64) -> Result<(), AllocError>
        ensures { IfOk result (λ _. (run : List Line) → IsHere run place event.now →
            AreSources run place self.old → AreSources run (place + 1) self.new) }
    {
        match begun(&event.note.line.does) {
            Some(op) => {
                self.start(op, place)?;
                Ok(())
            }
            None => {
                self.go_on(event, place)?;
                Ok(())
            }
        }
    }

    /// Keeps the next line.
    pub(crate) fn follow(&mut self, event: &Event, place: u64) -> Result<(), AllocError>
        ensures { IfOk result (λ _. (run : List Line) → IsHere run place event.now →
            AreSources run place self.old → AreSources run (place + 1) self.new) }
    {
        self.put_line(event, place)?;
        self.put_operation(event, place)?;
        Ok(())
    }
}
