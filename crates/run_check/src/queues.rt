ghost use Rattle.std.specs.Prelude.{◌≡◌, ◌==◌, ◌≤◌, ◌≢◌, if◌then◌else◌, IfOk, OnOk, IfSome, IsSome, IsSomeAnd, ℕ, Some, None};
ghost use Rattle.std.specs.BTreeMap.{Updates, get};
ghost use Rattle.std.specs.BTreeMap.Range.{IsLeBy};
ghost use Rattle.run_check.specs.Following.{CanPlace, place_after, spends};
ghost use Rattle.run_check.specs.Queues.{spot_at, spot_cmp, on_strand, AreInOrder};

use crate::tables::put;
use run_lines::Doing;
use std::alloc::{AllocError, Global};
use std::collections::{BTreeMap, HashMap};

/// The operations that are known to stand in the queues of their strands, and since which place: the
/// pair of a strand and a place.
#[derive(Drop)]
pub(crate) struct Queues {
    spots: HashMap<u64, (u64, u64)>,
    order: BTreeMap<(u64, u64), u64>,
}

/// The first entry that isn't below this spot.
fn at_or_after(order: &BTreeMap<(u64, u64), u64>, least: (u64, u64)) -> Option<((u64, u64), u64)>
    ensures found { IfSome result (λ e. get spot_cmp order.now e.0 ≡ Some e.1) }
    ensures within { IfSome result (λ e. IsLeBy spot_cmp least e.0) }
    ensures least { (q : ℕ × ℕ) → IsLeBy spot_cmp least q → IsSome (get spot_cmp order.now q) →
        IsSomeAnd result (λ e. IsLeBy spot_cmp e.0 q) }
{
    match order.range(least..).next() {
        Some((spot, op)) => Some((*spot, *op)),
        None => None,
    }
}

/// This entry, if it is of that strand: its place and its operation.
fn on_strand(found: Option<((u64, u64), u64)>, strand: u64) -> Option<(u64, u64)>
    ensures { result ≡ on_strand strand found }
{
    match found {
        Some((spot, op)) => {
            if spot.0 == strand {
                Some((spot.1, op))
            } else {
                None
            }
        }
        None => None,
    }
}

/// Notes an operation at its spot.
fn put_in_order(
    order: &mut BTreeMap<(u64, u64), u64>,
    spot: (u64, u64),
    op: u64,
) -> Result<(), AllocError>
    ensures { OnOk result (Updates spot_cmp order.old order.new spot (Some op)) }
{
    order.insert(spot, op)?;
    Ok(())
}

impl Queues {
    pub(crate) fn new(alloc: Global) -> Self
        ensures empty { (op : ℕ) → spot_at result op ≡ None }
        ensures ordered { AreInOrder result }
    {
        Queues {
            spots: HashMap::new(alloc),
            order: BTreeMap::new(alloc),
        }
    }

    /// Since when the operation stands that stands longest in the queue of a strand, and which it is.
    pub(crate) fn first(&self, strand: u64) -> Option<(u64, u64)>
        ensures least { AreInOrder self.now → (op place : ℕ) → spot_at self.now op ≡ Some (strand, place) →
            IsSomeAnd result (λ first. first.0 ≤ place) }
        ensures stands { AreInOrder self.now → IfSome result (λ first. spot_at self.now first.1 ≡ Some (strand, first.0)) }
    {
        let found = at_or_after(&self.order, (strand, 0));
        on_strand(found, strand)
    }

    pub(crate) fn put(&mut self, op: u64, strand: u64, place: u64) -> Result<(), AllocError>
        ensures ordered { OnOk result
            (AreInOrder self.old → spot_at self.old op ≡ None →
            ((other : ℕ) → spot_at self.old other ≢ Some (strand, place)) → AreInOrder self.new) }
        ensures spots { IfOk result
            (λ _. (other : ℕ) → spot_at self.new other ≡ (if op == other then Some (strand, place) else spot_at self.old other)) }
    {
        put_in_order(&mut self.order, (strand, place), op)?;
        put(&mut self.spots, op, (strand, place))?;
        Ok(())
    }

    pub(crate) fn take_out(&mut self, op: u64)
        ensures ordered { AreInOrder self.old → AreInOrder self.new }
        ensures spots { (other : ℕ) → spot_at self.new other ≡ (if op == other then None else spot_at self.old other) }
    {
        if let Some(spot) = self.spots.remove(&op) {
            self.order.remove(&spot);
        }
    }

    /// Places an operation in the queue of its strand, if there is one to be placed.
    pub(crate) fn place(
        &mut self,
        entered: Option<(u64, u64)>,
        place: u64,
    ) -> Result<(), AllocError>
        ensures ordered { OnOk result (AreInOrder self.old → CanPlace self.old entered place → AreInOrder self.new) }
        ensures spots { IfOk result (λ _. (other : ℕ) → spot_at self.new other ≡ place_after entered place other (spot_at self.old other)) }
    {
        match entered {
            Some((op, strand)) => self.put(op, strand, place),
            None => Ok(()),
        }
    }

    /// Takes out what a line spends.
    pub(crate) fn spend(&mut self, does: &Doing)
        ensures ordered { AreInOrder self.old → AreInOrder self.new }
        ensures spots { (other : ℕ) → spot_at self.new other ≡ (if spends does.now other then None else spot_at self.old other) }
    {
        match *does {
            Doing::Begin { op, .. } | Doing::Drop { op } => self.take_out(op),
            _ => {}
        }
    }
}
