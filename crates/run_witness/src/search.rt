ghost use Rattle.std.specs.Prelude.{ℕ, List, IfOk, IfSome, IsErrOf, reverse};
ghost use Rattle.run_check.specs.After.{loose};
ghost use Rattle.run_lines.specs.declared.line.Line.{Line};
ghost use Rattle.run_rules.specs.Legal.{IsLegalSoFar};
ghost use Rattle.run_witness.specs.Facts.{AreFacts};
ghost use Rattle.run_witness.specs.Witness.{IsWitness};
ghost use Rattle.run_witness.specs.declared.fault.Fault.{Fault};

use crate::attempt::{Attempt, Plan};
use crate::executions::is_among;
use crate::facts::{Fact, Facts, facts_of};
use crate::fault::Fault;
use crate::judging::judge_by;
use crate::needed::{StrandsOfOps, needed};
use run_check::NoRoom;
use run_lines::{Doing, Line};
use run_orders::Step;
use std::alloc::Global;

/// Whether all that went before on a strand is needed, and whether the tree of the claim that is held
/// is kept for the end.
const WAYS: [(bool, bool); 4] = [(false, false), (false, true), (true, false), (true, true)];

/// How many executions of a strand that has to be busy are tried before and behind a call.
const NEAR: usize = 2;

/// An order of a run that ends where a second thread claims a thing.
#[derive(Drop)]
pub(crate) struct Found {
    /// The lines before the last one, in their order.
    pub(crate) steps: Vec<Step>,
    /// The claim that overlaps.
    pub(crate) last: Step,
    /// The place of the claim that it overlaps.
    pub(crate) claim: u64,
}

/// The threads that lines of a run are on.
fn threads_of(alloc: Global, facts: &Facts) -> Result<Vec<u64>, NoRoom> {
    let mut threads: Vec<u64> = Vec::new(alloc);
    for place in 0..facts.lines {
        if let Some(fact) = facts.at(place) {
            if !threads.contains(&fact.line.thread) {
                threads.push(fact.line.thread)?;
            }
        }
    }
    Ok(threads)
}

/// The places of the claims of a thing.
fn claims_of(alloc: Global, facts: &Facts, thing: u64) -> Result<Vec<u64>, NoRoom> {
    let mut claims = Vec::new(alloc);
    for place in 0..facts.lines {
        if let Some(fact) = facts.at(place) {
            if fact.line.does == (Doing::Claim { thing }) {
                claims.push(place)?;
            }
        }
    }
    Ok(claims)
}

/// Whether a line begins an execution of this strand that isn't set apart.
fn is_other(facts: &Facts, apart: &[u64], place: u64, strand: u64) -> bool {
    match facts.at(place) {
        Some(fact) => match (fact.line.does, fact.begun) {
            (Doing::Begin { op, .. }, Some(waiter)) => {
                waiter.strand == Some(strand) && !is_among(apart, op)
            }
            _ => false,
        },
        None => false,
    }
}

/// The line by which an execution begins.
fn begin_of(facts: &Facts, op: u64) -> Option<u64> {
    for place in 0..facts.lines {
        if let Some(fact) = facts.at(place) {
            if let Doing::Begin { op: begun, .. } = fact.line.does {
                if begun == op {
                    return Some(place);
                }
            }
        }
    }
    None
}

/// Adds the lines by which executions of this strand begin, some next to this place on either side.
fn add_others(
    others: &mut Vec<u64>,
    facts: &Facts,
    apart: &[u64],
    strand: u64,
    at: u64,
) -> Result<(), NoRoom> {
    let mut before = 0;
    for index in 0..at {
        let place = at.saturating_sub(index).saturating_sub(1);
        if before < NEAR && is_other(facts, apart, place, strand) {
            others.push(place)?;
            before += 1;
        }
    }
    let mut behind = 0;
    for place in at..facts.lines {
        if behind < NEAR && is_other(facts, apart, place, strand) {
            others.push(place)?;
            behind += 1;
        }
    }
    Ok(())
}

/// The lines by which executions begin that may make strands busy which have to be so.
fn others_of(alloc: Global, facts: &Facts, apart: &[u64]) -> Result<Vec<u64>, NoRoom> {
    let mut others = Vec::new(alloc);
    for op in apart {
        if let (Some(strand), Some(at)) = (
            facts.executions.idle_strand(*op),
            begin_of(facts, *op),
        ) {
            add_others(&mut others, facts, apart, strand, at)?;
        }
    }
    Ok(others)
}

/// What is known of a run whose orders are searched.
#[derive(Drop)]
pub(crate) struct Search {
    pub(crate) facts: Facts,
    strands: StrandsOfOps,
    threads: Vec<u64>,
    /// Executions that may make strands busy.
    others: Vec<u64>,
}

impl Search {
    /// What is known of a run whose orders are searched in which these executions are set apart.
    pub(crate) fn of(
        alloc: Global,
        run: &[Line],
        apart: &[u64],
        thing: u64,
    ) -> Result<Search, Fault>
        ensures known { IfOk result (λ search. AreFacts apart.now thing (reverse run.now) search.facts) }
        ensures illegal { IsErrOf result Fault.Illegal → ¬ (IsLegalSoFar loose (reverse run.now)) }
    {
        let facts = facts_of(alloc, run, apart, thing)?;
        Ok(Search {
            strands: StrandsOfOps::of(alloc, &facts)?,
            threads: threads_of(alloc, &facts)?,
            others: others_of(alloc, &facts, apart)?,
            facts,
        })
    }

    /// The places of the claims of a thing.
    pub(crate) fn claims(&self, alloc: Global, thing: u64) -> Result<Vec<u64>, NoRoom> {
        claims_of(alloc, &self.facts, thing)
    }

    /// The lines of an order by this plan, as far as they could be put.
    fn attempt(&self, alloc: Global, plan: Plan) -> Result<Attempt, NoRoom> {
        let all = needed(alloc, &self.facts, &self.strands, &plan)?;
        let mut attempt = Attempt::new(alloc);
        if plan.late.is_some() {
            let kept = (plan.late, plan.last);
            attempt.run(alloc, &self.facts, &all, &self.threads, kept)?;
        }
        attempt.run(alloc, &self.facts, &all, &self.threads, (None, plan.last))?;
        Ok(attempt)
    }

    /// An order by this plan, if one was found and is one.
    fn find_by(
        &self,
        alloc: Global,
        apart: &[u64],
        thing: u64,
        plan: Plan,
    ) -> Result<Option<Found>, NoRoom>
        ensures { IfOk result (λ found. IfSome found (λ order. (run : List Line) → AreFacts apart.now thing run self.now.facts →
            IsWitness run apart.now (reverse order.steps.items) order.last thing order.claim)) }
    {
        let Some(last) = self.facts.at(plan.last) else {
            return Ok(None);
        };
        let attempt = self.attempt(alloc, plan)?;
        let thread = attempt.thread(last.tree).unwrap_or(last.line.thread);
        let step = Step {
            place: plan.last,
            line: Line {
                thread,
                does: last.line.does,
            },
        };
        let steps = attempt.steps;
        if judge_by(alloc, &self.facts, apart, &steps, &step, thing, plan.held)? {
            Ok(Some(Found {
                steps,
                last: step,
                claim: plan.held,
            }))
        } else {
            Ok(None)
        }
    }

    /// The plan of a way to an order in which this claim is held, and this one comes last.
    fn plan(&self, way: (bool, bool), held: u64, last: u64) -> Plan {
        let late = match self.facts.at(held) {
            Some(fact) => { if way.1 { Some(fact.tree) } else { None } }
            None => None,
        };
        Plan {
            held,
            last,
            also: None,
            whole: way.0,
            late,
        }
    }

    /// An order that ends where the second of these claims overlaps the first, if one was found.
    fn find_plainly(
        &self,
        alloc: Global,
        apart: &[u64],
        thing: u64,
        held: u64,
        last: u64,
    ) -> Result<Option<Found>, NoRoom>
        ensures { IfOk result (λ found. IfSome found (λ order. (run : List Line) → AreFacts apart.now thing run self.now.facts →
            IsWitness run apart.now (reverse order.steps.items) order.last thing order.claim)) }
    {
        for way in &WAYS {
            let plan = self.plan(*way, held, last);
            if let Some(found) = self.find_by(alloc, apart, thing, plan)? {
                return Ok(Some(found));
            }
        }
        Ok(None)
    }

    /// The plan of an order in which the execution that begins here makes a strand busy.
    fn busy_plan(&self, other: u64, held: u64, last: u64) -> Plan {
        let late = match self.facts.at(other) {
            Some(fact) => Some(fact.tree),
            None => None,
        };
        Plan {
            held,
            last,
            also: Some(other),
            whole: false,
            late,
        }
    }

    /// The same, where another execution makes a strand busy.
    fn find_busy(
        &self,
        alloc: Global,
        apart: &[u64],
        thing: u64,
        held: u64,
        last: u64,
    ) -> Result<Option<Found>, NoRoom>
        ensures { IfOk result (λ found. IfSome found (λ order. (run : List Line) → AreFacts apart.now thing run self.now.facts →
            IsWitness run apart.now (reverse order.steps.items) order.last thing order.claim)) }
    {
        for other in &self.others {
            let plan = self.busy_plan(*other, held, last);
            if let Some(found) = self.find_by(alloc, apart, thing, plan)? {
                return Ok(Some(found));
            }
        }
        Ok(None)
    }

    /// The same, in either way.
    fn find_pair(
        &self,
        alloc: Global,
        apart: &[u64],
        thing: u64,
        held: u64,
        last: u64,
    ) -> Result<Option<Found>, NoRoom>
        ensures { IfOk result (λ found. IfSome found (λ order. (run : List Line) → AreFacts apart.now thing run self.now.facts →
            IsWitness run apart.now (reverse order.steps.items) order.last thing order.claim)) }
    {
        match self.find_plainly(alloc, apart, thing, held, last)? {
            Some(found) => Ok(Some(found)),
            None => self.find_busy(alloc, apart, thing, held, last),
        }
    }

    /// The same, of two claims either way round.
    pub(crate) fn find_either(
        &self,
        alloc: Global,
        apart: &[u64],
        thing: u64,
        pair: (u64, u64),
    ) -> Result<Option<Found>, NoRoom>
        ensures { IfOk result (λ found. IfSome found (λ order. (run : List Line) → AreFacts apart.now thing run self.now.facts →
            IsWitness run apart.now (reverse order.steps.items) order.last thing order.claim)) }
    {
        match self.find_pair(alloc, apart, thing, pair.0, pair.1)? {
            Some(found) => Ok(Some(found)),
            None => self.find_pair(alloc, apart, thing, pair.1, pair.0),
        }
    }

    /// Whether two claims are of executions of one strand: then they never overlap.
    fn is_one_strand(&self, first: &Fact, second: &Fact) -> bool {
        let strand = self.strands.of_frame(first.writer);
        strand.is_some() && strand == self.strands.of_frame(second.writer)
    }

    /// Whether two claims may overlap, as far as their strands have a say, and, if that is asked, their
    /// trees.
    pub(crate) fn may_overlap(&self, one: u64, other: u64, trees: bool) -> bool {
        match (self.facts.at(one), self.facts.at(other)) {
            (Some(first), Some(second)) => {
                !self.is_one_strand(&first, &second) && !(trees && first.tree == second.tree)
            }
            _ => false,
        }
    }
}
