ghost use Rattle.std.specs.Prelude.{◌≡◌, ◌==◌, if◌then◌else◌, ℕ, IfOk, length};
ghost use Rattle.run_rules.specs.Stacks.{first_of};
ghost use Rattle.run_check.specs.Ready.{changed, change_called, line_of, lined_at, nothing_ready};
ghost use Rattle.run_rules.specs.Strict.{next_gone, put_first, put_last};

use crate::refusal::NoRoom;
use run_lines::Word;
use std::alloc::Global;
use std::collections::{HashMap, VecDeque};

/// What is ready on a strand, the next one first.
#[derive(Drop)]
pub(crate) struct ReadyLine {
    queue: VecDeque<u64>,
    /// How many of it the handler dispatched that began there last.
    front: usize,
}

/// What a line makes of what is ready on a strand.
#[derive(Clone, Copy)]
pub(crate) enum ReadyChange {
    /// An operation goes before all that was ready when the handler began that began there last.
    First { op: u64 },
    /// An operation goes behind all others.
    Last { op: u64 },
    /// The next one begins.
    Gone,
}

/// What a call by this word, from inside the strand or not, makes of what is ready there.
pub(crate) fn change_called(inside: bool, word: Word, op: u64) -> Option<ReadyChange>
    ensures { result ≡ change_called inside word op }
{
    match word {
        Word::Post | Word::Defer => Some(ReadyChange::Last { op }),
        Word::Dispatch => Some(if inside {
            ReadyChange::First { op }
        } else {
            ReadyChange::Last { op }
        }),
        Word::Other(_) => None,
    }
}

impl ReadyLine {
    fn new(alloc: Global) -> Self
        ensures { line_of result ≡ nothing_ready }
    {
        ReadyLine {
            queue: VecDeque::new(alloc),
            front: 0,
        }
    }

    fn next(&self) -> Option<u64>
        ensures { result ≡ first_of (line_of self.now).queue }
    {
        self.queue.front().copied()
    }

    fn put_first(&mut self, op: u64) -> Result<(), NoRoom>
        ensures { IfOk result (λ _. line_of self.new ≡ put_first op (line_of self.old)) }
    {
        let front = self.front.checked_add(1).ok_or(NoRoom)?;
        let at = self.front.min(self.queue.len());
        self.queue.insert(at, op)?;
        self.front = front;
        Ok(())
    }

    fn put_last(&mut self, op: u64) -> Result<(), NoRoom>
        ensures { IfOk result (λ _. line_of self.new ≡ put_last op (line_of self.old)) }
    {
        self.queue.push_back(op)?;
        Ok(())
    }

    fn next_gone(&mut self)
        ensures { line_of self.new ≡ next_gone (line_of self.old) }
    {
        let _next = self.queue.pop_front();
        self.front = 0;
    }

    fn change(&mut self, change: ReadyChange) -> Result<(), NoRoom>
        ensures { IfOk result (λ _. line_of self.new ≡ changed change (line_of self.old)) }
    {
        match change {
            ReadyChange::First { op } => self.put_first(op),
            ReadyChange::Last { op } => self.put_last(op),
            ReadyChange::Gone => {
                self.next_gone();
                Ok(())
            }
        }
    }
}

/// What is ready on each strand; a strand on which nothing is ready takes no memory.
#[derive(Drop)]
pub(crate) struct ReadyLines {
    lines: HashMap<u64, ReadyLine>,
    alloc: Global,
}

impl ReadyLines {
    pub(crate) fn new(alloc: Global) -> Self
        ensures { (strand : ℕ) → lined_at result strand ≡ nothing_ready }
    {
        ReadyLines {
            lines: HashMap::new(alloc),
            alloc,
        }
    }

    /// The next one on a strand.
    pub(crate) fn next(&self, strand: u64) -> Option<u64>
        ensures { result ≡ first_of (lined_at self.now strand).queue }
    {
        match self.lines.get(&strand) {
            Some(line) => line.next(),
            None => None,
        }
    }

    /// Takes out what is ready on a strand.
    fn take(&mut self, strand: u64) -> ReadyLine
        ensures line { line_of result ≡ lined_at self.old strand }
        ensures rest { (other : ℕ) → lined_at self.new other ≡ (if strand == other then nothing_ready else lined_at self.old other) }
    {
        match self.lines.remove(&strand) {
            Some(line) => line,
            None => ReadyLine::new(self.alloc),
        }
    }

    /// Puts in what is ready on a strand on which nothing is ready.
    fn put(&mut self, strand: u64, line: ReadyLine) -> Result<(), NoRoom>
        ensures { IfOk result
            (λ _. lined_at self.old strand ≡ nothing_ready → (other : ℕ) →
            lined_at self.new other ≡ (if strand == other then line_of line else lined_at self.old other)) }
    {
        if line.queue.is_empty() && line.front == 0 {
            return Ok(());
        }
        self.lines.insert(strand, line)?;
        Ok(())
    }

    pub(crate) fn change(&mut self, strand: u64, change: ReadyChange) -> Result<(), NoRoom>
        ensures { IfOk result (λ _. (other : ℕ) →
            lined_at self.new other ≡ (if strand == other then changed change (lined_at self.old other) else lined_at self.old other)) }
    {
        let mut line = self.take(strand);
        line.change(change)?;
        self.put(strand, line)
    }
}
