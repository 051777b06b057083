ghost use Rattle.std.specs.Prelude.{◌≡◌, ◌<◌, ◌≤◌, ◌*◌, ◌^◌, ◌≢◌, ℕ, length, replicate, slice_set, IfOk, None, vec_len};
ghost use Rattle.io_timers.specs.Tournament.{IsFirst, IsNode, IsTournament, is_before, node_at, winner};

use crate::first::First;
use asio_types::NoMemory;
use std::alloc::Global;
use std::marker::Model;

/// The first of many waits, kept up to date in logarithmic time. Contracts see the leaves.
#[derive(Drop)]
pub(crate) struct Tournament {
    // those with a number from 1 on; what stands at 0 is of no meaning
    inner: Vec<Option<First>>,
    leaves: Vec<Option<First>>,
}

impl Model for Tournament {
    ghost use Rattle.std.specs.Prelude.{List, Option};
    ghost use Rattle.io_timers.specs.declared.first.First.{First};
    ghost use Rattle.io_timers.specs.Tournament.{IsTournament};

    ghost Value = { List (Option First) };

    ghost view = { λ t. t.leaves.items };

    ghost invariant = { λ t. IsTournament t.inner.items t.leaves.items };
}

impl Tournament {
    /// So many leaves without a wait. Takes memory for all of them; `NoMemory` where it is refused.
    pub(crate) fn make(alloc: Global, leaves: u32) -> Result<Tournament, NoMemory>
        ensures { IfOk result (λ made. made ≡ replicate leaves None) }
    {
        let inner = vec![in alloc; None; leaves as usize]?;
        let leaves = vec![in alloc; None; leaves as usize]?;
        Ok(Tournament { inner, leaves })
    }

    /// What stands at a leaf is now this.
    pub(crate) fn set(&mut self, leaf: u32, first: Option<First>)
        requires { leaf < length self.old }
        ensures { self.new ≡ slice_set self.old leaf first }
    {
        let from = self.inner.len() + leaf as usize;
        self.leaves[leaf as usize] = first;
        repeat_matches(&mut self.inner, &self.leaves, from / 2);
    }

    /// The first of all.
    pub(crate) fn first(&self) -> Option<First>
        ensures { IsFirst self.now result }
    {
        if self.leaves.is_empty() {
            return None;
        }
        node(&self.inner, &self.leaves, 1)
    }
}

/// Makes what is a tournament but for the node at `at` one, if there is such a node.
fn repeat_matches(inner: &mut Vec<Option<First>>, leaves: &Vec<Option<First>>, mut at: usize)
    requires long { length inner.old.items ≡ length leaves.now.items }
    requires small { length leaves.now.items < 2 ^ 32 }
    requires within { 0 < at → at < length inner.old.items }
    requires others { (n : ℕ) → 0 < n → n < length inner.old.items → n ≢ at →
        IsNode inner.old.items leaves.now.items n }
    ensures { IsTournament inner.new.items leaves.now.items }
{
    while at > 0 {
        let one = node(inner, leaves, at * 2);
        let other = node(inner, leaves, at * 2 + 1);
        inner[at] = first_of(one, other);
        at /= 2;
    }
}

/// What stands at a node.
fn node(inner: &Vec<Option<First>>, leaves: &Vec<Option<First>>, at: usize) -> Option<First>
    requires long { length inner.now.items ≡ length leaves.now.items }
    requires within { at < length inner.now.items * 2 }
    ensures { result ≡ node_at inner.now.items leaves.now.items at }
{
    if at < inner.len() {
        inner[at]
    } else {
        leaves[at - inner.len()]
    }
}

/// The one of two that comes first.
fn first_of(one: Option<First>, other: Option<First>) -> Option<First>
    ensures { result ≡ winner one other }
{
    match (one, other) {
        (None, other) => other,
        (one, None) => one,
        (Some(a), Some(b)) => { if precedes(&b, &a) { Some(b) } else { Some(a) } }
    }
}

/// Whether one wait comes before another, by expiry and then by acceptance.
fn precedes(a: &First, b: &First) -> bool
    ensures { result ≡ is_before a.now b.now }
{
    a.expiry < b.expiry || (a.expiry == b.expiry && a.op < b.op)
}
