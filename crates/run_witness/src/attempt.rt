use crate::causes::Causes;
use crate::facts::{Fact, Facts};
use crate::judging::Replay;
use crate::spelling::{op_of, renumbered};
use run_check::NoRoom;
use run_lines::{Code, Doing, Line, Word};
use run_orders::Step;
use run_rules::Frame;
use std::alloc::Global;

/// How an order is looked for.
#[derive(Clone, Copy)]
pub(crate) struct Plan {
    /// The place of the claim that is held.
    pub(crate) held: u64,
    /// The place of the claim that comes last.
    pub(crate) last: u64,
    /// A line that has to stand, too.
    pub(crate) also: Option<u64>,
    /// Whether all that went before on a strand is needed.
    pub(crate) whole: bool,
    /// The tree that is kept for the end.
    pub(crate) late: Option<Frame>,
}

impl Plan {
    /// Whether a line has to stand in any case.
    pub(crate) fn wants(&self, place: u64) -> bool {
        place == self.held || place == self.last || self.also == Some(place)
    }
}

/// An order, as far as it was found.
#[derive(Drop)]
pub(crate) struct Attempt {
    replay: Replay,
    pub(crate) steps: Vec<Step>,
    calls: u64,
}

/// Keeps a line of an order.
fn keep(steps: &mut Vec<Step>, step: Step) -> Result<(), NoRoom> {
    // the borrow checker's plan has to be told of the types within
    let _word: Option<Word> = None;
    let _code: Option<Code> = None;
    let _line: Option<Line> = None;
    let _does: Option<Doing> = None;
    steps.push(step)?;
    Ok(())
}

impl Attempt {
    pub(crate) fn new(alloc: Global) -> Attempt {
        Attempt {
            replay: Replay::new(alloc),
            steps: Vec::new(alloc),
            calls: 0,
        }
    }

    /// On which thread a tree is.
    pub(crate) fn thread(&self, tree: Frame) -> Option<u64> {
        self.replay.thread(tree)
    }

    /// The number of the operation that a line names, in this order: calls are numbered as they come.
    fn number(&self, does: &Doing) -> Option<u64> {
        match *does {
            Doing::Call { .. } => Some(self.calls),
            _ => match op_of(does) {
                Some(op) => self.replay.number(op),
                None => Some(0),
            },
        }
    }

    /// Puts a line on this thread, if it may stand and come there.
    fn put_on(
        &mut self,
        facts: &Facts,
        place: u64,
        fact: &Fact,
        thread: u64,
    ) -> Result<bool, NoRoom> {
        let Some(number) = self.number(&fact.line.does) else {
            return Ok(false);
        };
        let does = renumbered(number, &fact.line.does);
        let step = Step {
            place,
            line: Line { thread, does },
        };
        if !self.replay.may_put(&step) || !self.replay.put(facts, &step)? {
            return Ok(false);
        }
        if let Doing::Call { .. } = does {
            self.calls = self.calls.saturating_add(1);
        }
        keep(&mut self.steps, step)?;
        Ok(true)
    }

    /// Puts a line that begins an execution, on its own thread or on one of these.
    fn put_begin(
        &mut self,
        facts: &Facts,
        place: u64,
        fact: &Fact,
        threads: &[u64],
    ) -> Result<bool, NoRoom> {
        if self.put_on(facts, place, fact, fact.line.thread)? {
            return Ok(true);
        }
        for thread in threads {
            if self.put_on(facts, place, fact, *thread)? {
                return Ok(true);
            }
        }
        Ok(false)
    }

    /// Puts a line, if it may stand and come.
    fn put(
        &mut self,
        facts: &Facts,
        place: u64,
        fact: &Fact,
        threads: &[u64],
    ) -> Result<bool, NoRoom> {
        match self.replay.thread(fact.tree) {
            Some(thread) => self.put_on(facts, place, fact, thread),
            None => match fact.tree {
                Frame::Outside { thread } => self.put_on(facts, place, fact, thread),
                Frame::Execution { .. } => self.put_begin(facts, place, fact, threads),
            },
        }
    }

    /// Goes through the lines that are needed once, and puts those that may stand and come, but those
    /// of one tree and the last one. Whether any was put.
    fn pass(
        &mut self,
        alloc: Global,
        facts: &Facts,
        all: &[u64],
        threads: &[u64],
        apart: (Option<Frame>, u64),
    ) -> Result<bool, NoRoom> {
        let mut causes = Causes::new(alloc);
        let mut moved = false;
        for place in all.iter().rev() {
            let Some(fact) = facts.at(*place) else {
                return Ok(false);
            };
            let free = *place != apart.1 && apart.0 != Some(fact.tree);
            if free && self.replay.position(*place).is_none() && causes.allows(&fact) {
                moved |= self.put(facts, *place, &fact, threads)?;
            }
            causes.note(&fact, *place, self.replay.position(*place))?;
        }
        Ok(moved)
    }

    /// Goes through the lines that are needed until none may be put.
    pub(crate) fn run(
        &mut self,
        alloc: Global,
        facts: &Facts,
        all: &[u64],
        threads: &[u64],
        apart: (Option<Frame>, u64),
    ) -> Result<(), NoRoom> {
        for _ in 0..all.len() {
            if !self.pass(alloc, facts, all, threads, apart)? {
                return Ok(());
            }
        }
        Ok(())
    }
}
