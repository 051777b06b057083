ghost use Rattle.std.specs.Prelude.{◌≡◌, [], List, IfOk, IfSome, OnOk, IsErrOf, reverse};
ghost use Rattle.run_check.specs.After.{loose};
ghost use Rattle.run_rules.specs.Legal.{IsLegalSoFar};
ghost use Rattle.run_witness.specs.Facts.{AreFacts};
ghost use Rattle.run_witness.specs.Witness.{IsWitness};
ghost use Rattle.run_witness.specs.declared.fault.Fault.{Fault};

use crate::facts::Facts;
use crate::fault::Fault;
use crate::search::{Found, Search};
use run_check::NoRoom;
use run_lines::{Doing, Line};
use run_orders::Step;
use run_rules::Frame;
use std::alloc::Global;
use std::collections::HashMap;

/// How many pairs of claims of a thing are tried at most.
const MOST_PAIRS: usize = 24;

/// How many pairs are tried at most with executions that are set apart.
const MOST_APART: usize = 8;

/// How many claims before one are tried with it.
const BEFORE_EACH: u64 = 3;

/// How many executions inside one another are gone through.
const DEEPEST: u64 = 16;

/// An order of a run that ends where a second thread claims a thing.
#[derive(Drop)]
pub struct Witness {
    /// The operations whose executions are set apart.
    pub apart: Vec<u64>,
    /// The lines before the last one, in their order.
    pub steps: Vec<Step>,
    /// The claim that overlaps.
    pub last: Step,
    /// The place of the claim that it overlaps.
    pub claim: u64,
}

/// What is round the executions of a run.
#[derive(Drop)]
struct Nesting {
    outer: HashMap<u64, Frame>,
}

impl Nesting {
    fn of(alloc: Global, facts: &Facts) -> Result<Nesting, NoRoom> {
        let mut outer = HashMap::new(alloc);
        for place in 0..facts.lines {
            if let Some(fact) = facts.at(place) {
                if let Doing::Begin { op, .. } = fact.line.does {
                    outer.insert(op, fact.writer)?;
                }
            }
        }
        Ok(Nesting { outer })
    }

    /// The executions round a line that may be set apart.
    fn round(&self, alloc: Global, facts: &Facts, place: u64) -> Result<Vec<u64>, NoRoom> {
        let mut ops = Vec::new(alloc);
        let mut frame = match facts.at(place) {
            Some(fact) => fact.writer,
            None => return Ok(ops),
        };
        for _ in 0..DEEPEST {
            let Frame::Execution { op } = frame else {
                return Ok(ops);
            };
            if facts.executions.is_lent(op) {
                ops.push(op)?;
            }
            let Some(outer) = self.outer.get(&op).copied() else {
                return Ok(ops);
            };
            frame = outer;
        }
        Ok(ops)
    }

    /// Whether some execution round a line may be set apart.
    fn is_nested(&self, alloc: Global, facts: &Facts, place: u64) -> Result<bool, NoRoom> {
        let round = self.round(alloc, facts, place)?;
        Ok(!round.is_empty())
    }
}

/// The operations of both lists, if these are two and none is empty.
fn joined(alloc: Global, one: &[u64], other: &[u64]) -> Result<Vec<u64>, NoRoom> {
    let mut both = Vec::new(alloc);
    if one.is_empty() || other.is_empty() || one == other {
        return Ok(both);
    }
    for op in one {
        both.push(*op)?;
    }
    for op in other {
        if !both.contains(op) {
            both.push(*op)?;
        }
    }
    Ok(both)
}

/// Adds pairs of a claim and those before it that nothing is known to keep apart.
fn add_pairs(
    pairs: &mut Vec<(u64, u64)>,
    search: &Search,
    before: &[u64],
    claim: u64,
) -> Result<(), NoRoom> {
    let mut tried = 0;
    for other in before.iter().rev() {
        if tried < BEFORE_EACH && search.may_overlap(*other, claim, true) {
            pairs.push((*other, claim))?;
            tried += 1;
        }
    }
    Ok(())
}

/// The pairs of claims that are tried with nothing set apart.
fn pairs_of(alloc: Global, search: &Search, claims: &[u64]) -> Result<Vec<(u64, u64)>, NoRoom> {
    let mut pairs = Vec::new(alloc);
    for index in 0..claims.len() {
        if let (Some(before), Some(claim)) = (claims.get(..index), claims.get(index)) {
            if pairs.len() < MOST_PAIRS {
                add_pairs(&mut pairs, search, before, *claim)?;
            }
        }
    }
    Ok(pairs)
}

/// The claims in executions that may be set apart.
fn nested_of(alloc: Global, search: &Search, claims: &[u64]) -> Result<Vec<u64>, NoRoom> {
    let nesting = Nesting::of(alloc, &search.facts)?;
    let mut nested = Vec::new(alloc);
    for claim in claims {
        if nesting.is_nested(alloc, &search.facts, *claim)? {
            nested.push(*claim)?;
        }
    }
    Ok(nested)
}

/// Adds pairs of a claim, in what may be set apart, and others that no strand keeps apart from it.
fn add_nested(
    pairs: &mut Vec<(u64, u64)>,
    search: &Search,
    claims: &[u64],
    claim: u64,
) -> Result<(), NoRoom> {
    let mut tried = 0;
    for other in claims {
        let fits = *other != claim && search.may_overlap(*other, claim, false);
        if tried < BEFORE_EACH && fits && pairs.len() < MOST_APART {
            pairs.push((*other, claim))?;
            tried += 1;
        }
    }
    Ok(())
}

/// The pairs of claims that are tried with executions set apart.
fn nested_pairs(alloc: Global, search: &Search, claims: &[u64]) -> Result<Vec<(u64, u64)>, NoRoom> {
    let nested = nested_of(alloc, search, claims)?;
    let mut pairs = Vec::new(alloc);
    for claim in &nested {
        add_nested(&mut pairs, search, claims, *claim)?;
    }
    Ok(pairs)
}

/// What was found, with what is set apart.
fn witness_of(apart: Vec<u64>, found: Found) -> Witness
    ensures apart { result.apart ≡ apart }
    ensures steps { result.steps ≡ found.steps }
    ensures last { result.last ≡ found.last }
    ensures claim { result.claim ≡ found.claim }
{
    Witness {
        apart,
        steps: found.steps,
        last: found.last,
        claim: found.claim,
    }
}

/// An order of a run in which nothing is set apart and one of these pairs of claims overlaps, if one was
/// found.
fn find_among(
    alloc: Global,
    search: &Search,
    thing: u64,
    pairs: &[(u64, u64)],
) -> Result<Option<Found>, NoRoom>
    ensures { IfOk result (λ found. IfSome found (λ order. (run : List Line) → AreFacts [] thing run search.now.facts →
        IsWitness run [] (reverse order.steps.items) order.last thing order.claim)) }
{
    for pair in pairs {
        if let Some(found) = search.find_either(alloc, &[], thing, *pair)? {
            return Ok(Some(found));
        }
    }
    Ok(None)
}

/// An order of a run in which these executions are set apart and two claims overlap, if one was found.
fn find_apart(
    alloc: Global,
    run: &[Line],
    apart: Vec<u64>,
    thing: u64,
    pair: (u64, u64),
) -> Result<Option<Witness>, Fault>
    ensures found { IfOk result (λ found. IfSome found (λ witness.
        IsWitness (reverse run.now) witness.apart.items (reverse witness.steps.items) witness.last thing witness.claim)) }
    ensures illegal { IsErrOf result Fault.Illegal → ¬ (IsLegalSoFar loose (reverse run.now)) }
{
    if apart.is_empty() {
        return Ok(None);
    }
    let search = Search::of(alloc, run, &apart, thing)?;
    match search.find_either(alloc, &apart, thing, pair)? {
        Some(found) => Ok(Some(witness_of(apart, found))),
        None => Ok(None),
    }
}

/// The same, with what is round one of these claims set apart, round the other, or round both.
fn find_round(
    alloc: Global,
    run: &[Line],
    search: &Search,
    thing: u64,
    pair: (u64, u64),
) -> Result<Option<Witness>, Fault>
    ensures found { IfOk result (λ found. IfSome found (λ witness.
        IsWitness (reverse run.now) witness.apart.items (reverse witness.steps.items) witness.last thing witness.claim)) }
    ensures illegal { IsErrOf result Fault.Illegal → ¬ (IsLegalSoFar loose (reverse run.now)) }
{
    let nesting = Nesting::of(alloc, &search.facts)?;
    let one = nesting.round(alloc, &search.facts, pair.0)?;
    let other = nesting.round(alloc, &search.facts, pair.1)?;
    let both = joined(alloc, &one, &other)?;
    if let Some(found) = find_apart(alloc, run, one, thing, pair)? {
        return Ok(Some(found));
    }
    if let Some(found) = find_apart(alloc, run, other, thing, pair)? {
        return Ok(Some(found));
    }
    find_apart(alloc, run, both, thing, pair)
}

/// The same, of one of these pairs of claims.
fn find_nested(
    alloc: Global,
    run: &[Line],
    search: &Search,
    thing: u64,
    pairs: &[(u64, u64)],
) -> Result<Option<Witness>, Fault>
    ensures found { IfOk result (λ found. IfSome found (λ witness.
        IsWitness (reverse run.now) witness.apart.items (reverse witness.steps.items) witness.last thing witness.claim)) }
    ensures illegal { IsErrOf result Fault.Illegal → ¬ (IsLegalSoFar loose (reverse run.now)) }
{
    for pair in pairs {
        if let Some(found) = find_round(alloc, run, search, thing, *pair)? {
            return Ok(Some(found));
        }
    }
    Ok(None)
}

/// An order of a run that ends as a second thread claims a thing that another one holds, if one was
/// found. Nothing is promised where none was. A few pairs of claims of the thing are tried: first with
/// nothing set apart, and then with what is round one of them, the other, or both.
pub fn find_witness(alloc: Global, run: &[Line], thing: u64) -> Result<Option<Witness>, Fault>
    ensures found { IfOk result (λ found. IfSome found (λ witness.
        IsWitness (reverse run.now) witness.apart.items (reverse witness.steps.items) witness.last thing witness.claim)) }
    ensures legal { OnOk result (IsLegalSoFar loose (reverse run.now)) }
    ensures illegal { IsErrOf result Fault.Illegal → ¬ (IsLegalSoFar loose (reverse run.now)) }
{
    let search = Search::of(alloc, run, &[], thing)?;
    let claims = search.claims(alloc, thing)?;
    let pairs = pairs_of(alloc, &search, &claims)?;
    if let Some(found) = find_among(alloc, &search, thing, &pairs)? {
        return Ok(Some(witness_of(Vec::new(alloc), found)));
    }
    let nested = nested_pairs(alloc, &search, &claims)?;
    find_nested(alloc, run, &search, thing, &nested)
}
