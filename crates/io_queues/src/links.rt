ghost use Rattle.std.specs.Prelude.{◌≡◌, ◌+◌, ◌<◌, ◌≤◌, ◌∷◌, ◌++◌, ℕ, [], length, IfOk};
ghost use Rattle.io_queues.specs.Linked.{IsMovable, before_moved, numbers, next_moved, steps_on};

use asio_types::NoMemory;
use std::alloc::Global;

/// The links of a ring of all nodes in order, each to the next one, and from the last one to the
/// first.
pub(crate) fn links_ahead(alloc: Global, last: u32) -> Result<Vec<u32>, NoMemory>
    ensures { IfOk result (λ made. made.items ≡ numbers 1 last ++ 0 ∷ []) }
{
    let mut links = Vec::with_capacity(alloc, last as usize + 1)?;
    for node in 0..last {
        links.push_reserved(node + 1);
    }
    links.push_reserved(0);
    Ok(links)
}

/// The links of that ring the other way.
pub(crate) fn links_back(alloc: Global, last: u32) -> Result<Vec<u32>, NoMemory>
    ensures { IfOk result (λ made. made.items ≡ last ∷ numbers 0 last) }
{
    let mut links = Vec::with_capacity(alloc, last as usize + 1)?;
    links.push_reserved(last);
    for node in 0..last {
        links.push_reserved(node);
    }
    Ok(links)
}

/// The node before a queue's places.
pub(crate) fn node_before(places: u32, queue: u32, last: u32) -> u32
    requires { places + queue < last }
    ensures { result ≡ places + queue }
{
    places + queue
}

/// The node behind a queue's places.
pub(crate) fn node_after(places: u32, queue: u32, last: u32) -> u32
    requires { places + queue < last }
    ensures { result ≡ places + queue + 1 }
{
    places + queue + 1
}

/// The node so many steps behind this one.
pub(crate) fn node_behind(next: &Vec<u32>, node: u32, steps: u32) -> u32
    requires { (k : ℕ) → k < steps → steps_on next.now.items node k < length next.now.items }
    ensures { result ≡ steps_on next.now.items node steps }
{
    let mut at = node;
    for _ in 0..steps {
        at = next[at as usize];
    }
    at
}

/// Takes a node out from between its neighbours, and puts it before another one.
pub(crate) fn put_before(next: &mut Vec<u32>, before: &mut Vec<u32>, node: u32, other: u32)
    requires { IsMovable node other next.old.items before.old.items }
    ensures next { next.new.items ≡ next_moved node other next.old.items before.old.items }
    ensures before { before.new.items ≡ before_moved node other next.old.items before.old.items }
{
    let behind = next[node as usize];
    let ahead = before[node as usize];
    next[ahead as usize] = behind;
    before[behind as usize] = ahead;
    let last = before[other as usize];
    next[last as usize] = node;
    next[node as usize] = other;
    before[other as usize] = node;
    before[node as usize] = last;
}
