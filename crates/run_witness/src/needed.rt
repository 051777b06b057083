use crate::attempt::Plan;
use crate::facts::{Fact, Facts};
use run_check::{NoRoom, Waiter};
use run_lines::{Code, Doing};
use run_rules::Frame;
use std::alloc::Global;
use std::collections::{HashMap, HashSet};

/// A line that aborts what is pending on a thing, called at this place.
#[derive(Clone, Copy)]
struct Abort {
    thing: u64,
    since: u64,
}

/// What has to stand in an order because of later lines of the run.
#[derive(Drop)]
struct Wants {
    trees: HashSet<Frame>,
    called: HashSet<u64>,
    completed: HashSet<u64>,
    marked: HashSet<u64>,
    left: HashSet<u64>,
    aborts: Vec<Abort>,
    strands: HashSet<u64>,
}

/// The strands of operations.
#[derive(Drop)]
pub(crate) struct StrandsOfOps {
    strands: HashMap<u64, u64>,
}

impl StrandsOfOps {
    /// The strands of the operations that a run calls.
    pub(crate) fn of(alloc: Global, facts: &Facts) -> Result<StrandsOfOps, NoRoom> {
        let mut strands = HashMap::new(alloc);
        for place in 0..facts.lines {
            if let Some(fact) = facts.at(place) {
                if let Doing::Call {
                    op,
                    strand: Some(strand),
                    ..
                } = fact.line.does
                {
                    strands.insert(op, strand)?;
                }
            }
        }
        Ok(StrandsOfOps { strands })
    }

    fn get(&self, op: u64) -> Option<u64> {
        self.strands.get(&op).copied()
    }

    /// The strand of an execution, if it has one.
    pub(crate) fn of_frame(&self, frame: Frame) -> Option<u64> {
        match frame {
            Frame::Execution { op } => self.get(op),
            Frame::Outside { .. } => None,
        }
    }
}

impl Wants {
    fn new(alloc: Global) -> Wants {
        Wants {
            trees: HashSet::new(alloc),
            called: HashSet::new(alloc),
            completed: HashSet::new(alloc),
            marked: HashSet::new(alloc),
            left: HashSet::new(alloc),
            aborts: Vec::new(alloc),
            strands: HashSet::new(alloc),
        }
    }

    /// Whether a line that cancels aborts something.
    fn aborts(&self, thing: u64, place: u64) -> bool {
        for abort in &self.aborts {
            if abort.thing == thing && abort.since < place {
                return true;
            }
        }
        false
    }

    /// Whether a line is wanted by what it names.
    fn wants_named(&self, fact: &Fact, place: u64, strands: &StrandsOfOps) -> bool {
        match fact.line.does {
            Doing::Call { op, .. } => self.called.contains(&op),
            Doing::Done { op, .. } => self.completed.contains(&op),
            Doing::Mark { mark } => self.marked.contains(&mark),
            Doing::Cancel { thing } => self.aborts(thing, place),
            Doing::End { op } | Doing::Throw { op } => match strands.get(op) {
                Some(strand) => self.strands.contains(&strand),
                None => false,
            },
            _ => false,
        }
    }

    /// Whether a line has to stand.
    fn wants(&self, fact: &Fact, place: u64, strands: &StrandsOfOps) -> bool {
        self.trees.contains(&fact.tree)
            || (fact.leaves && self.left.contains(&fact.line.thread))
            || self.wants_named(fact, place, strands)
    }

    /// Wants what aborts an operation.
    fn want_aborts(&mut self, waiter: &Waiter) -> Result<(), NoRoom> {
        if let Some(thing) = waiter.thing {
            self.aborts.push(Abort {
                thing,
                since: waiter.place,
            })?;
        }
        Ok(())
    }

    /// Wants what has to stand before a handler begins.
    fn want_begin(&mut self, fact: &Fact, op: u64, code: Code) -> Result<(), NoRoom> {
        self.called.insert(op)?;
        self.completed.insert(op)?;
        if fact.tree == (Frame::Execution { op }) {
            self.trees.insert(Frame::Outside {
                thread: fact.line.thread,
            })?;
        }
        if let Some(waiter) = fact.begun {
            if code == Code::Aborted {
                self.want_aborts(&waiter)?;
            }
        }
        Ok(())
    }

    /// Wants the executions that went before one on its strand.
    fn want_strand(&mut self, fact: &Fact) -> Result<(), NoRoom> {
        if let Some(waiter) = fact.begun {
            if let Some(strand) = waiter.strand {
                self.strands.insert(strand)?;
            }
        }
        Ok(())
    }

    /// Wants the causes of a line.
    fn want(&mut self, fact: &Fact) -> Result<(), NoRoom> {
        self.trees.insert(fact.tree)?;
        if let Frame::Outside { thread } = fact.tree {
            self.left.insert(thread)?;
        }
        match fact.line.does {
            Doing::Begin { op, code, .. } => self.want_begin(fact, op, code)?,
            Doing::Done { op, .. } | Doing::Drop { op } => {
                self.called.insert(op)?;
            }
            Doing::After { mark } => {
                self.marked.insert(mark)?;
            }
            _ => {}
        }
        Ok(())
    }
}

/// How often trees are completed at most.
const ROUNDS: u64 = 8;

/// Wants the trees of these lines as a whole, but for two of them.
fn want_trees(
    wants: &mut Wants,
    facts: &Facts,
    before: &[u64],
    pair: (Frame, Frame),
) -> Result<(), NoRoom> {
    for place in before {
        if let Some(fact) = facts.at(*place) {
            let other = fact.tree != pair.0 && fact.tree != pair.1;
            if other && matches!(fact.tree, Frame::Execution { .. }) {
                wants.trees.insert(fact.tree)?;
            }
        }
    }
    Ok(())
}

/// The lines that have to stand in an order by this plan, the last one first, with all that is wanted
/// already; with all that went before on a strand, if that is asked.
fn needed_with(
    alloc: Global,
    facts: &Facts,
    strands: &StrandsOfOps,
    plan: &Plan,
    mut wants: Wants,
) -> Result<Vec<u64>, NoRoom> {
    let mut all = Vec::new(alloc);
    for index in 0..facts.lines {
        let place = facts.lines.saturating_sub(index).saturating_sub(1);
        if let Some(fact) = facts.at(place) {
            if plan.wants(place) || wants.wants(&fact, place, strands) {
                wants.want(&fact)?;
                if plan.whole {
                    wants.want_strand(&fact)?;
                }
                all.push(place)?;
            }
        }
    }
    Ok(all)
}

/// The lines that have to stand in an order by this plan, the last one first. The trees but for those of
/// the claims run to their ends. With all that went before on a strand, if that is asked.
pub(crate) fn needed(
    alloc: Global,
    facts: &Facts,
    strands: &StrandsOfOps,
    plan: &Plan,
) -> Result<Vec<u64>, NoRoom> {
    let mut all = needed_with(alloc, facts, strands, plan, Wants::new(alloc))?;
    let (Some(one), Some(other)) = (facts.at(plan.held), facts.at(plan.last)) else {
        return Ok(all);
    };
    for _ in 0..ROUNDS {
        let mut wants = Wants::new(alloc);
        want_trees(&mut wants, facts, &all, (one.tree, other.tree))?;
        let next = needed_with(alloc, facts, strands, plan, wants)?;
        if next.len() == all.len() {
            return Ok(all);
        }
        all = next;
    }
    Ok(all)
}
