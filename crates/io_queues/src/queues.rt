ghost use Rattle.std.specs.Prelude.{◌≡◌, ◌↔◌, ◌<◌, ◌≤◌, ℕ, [], drop, false, true, length, slice_get, IfNone, IfOk, IfSome, IsTrue, None, Some};
ghost use Rattle.std.specs.Borrow.{Lends, sem};
ghost use Rattle.std.specs.List.{slice_index_or, slice_set};
ghost use Rattle.std.specs.Option.{is_some};
ghost use Rattle.io_queues.specs.Linked.{linked, steps_on};
ghost use Rattle.io_queues.specs.Queued.{IsWhole, inserted, item_at, moved, no_entries, place_first, popped, pushed, queue_at, removed, with_item};

use crate::links::{links_ahead, links_back, node_after, node_before, node_behind, put_before};
use asio_types::NoMemory;
use std::alloc::Global;
use std::marker::Model;

/// So many queues over so many places. Contracts see each queue's entries, front first, each with
/// its place, and how many places are free.
pub struct Queues<T> {
    // of each node the one behind it: the free places, then each queue behind a node of its own
    next: Vec<u32>,
    // of each node the one before it
    before: Vec<u32>,
    // what stands at each place
    items: Vec<Option<T>>,
    places: u32,
    // the node that closes the ring
    last: u32,
}

impl<T> Model for Queues<T> {
    ghost use Rattle.io_queues.specs.Linked.{IsQueued, seen};
    ghost use Rattle.io_queues.specs.Queued.{Queued};

    ghost Value = { Queued T };

    ghost view = { λ q. seen q.places q.last q.next.items q.items.items };

    ghost invariant = { λ q. IsQueued q.places q.last q.next.items q.before.items q.items.items };
}

/// An item comes to a place where nothing is.
fn put_item<T>(items: &mut Vec<Option<T>>, place: u32, item: T)
    requires within { place < length items.old.items }
    requires empty { slice_index_or items.old.items place None ≡ None }
    ensures { items.new.items ≡ slice_set items.old.items place (Some item) }
{
    match items[place as usize].replace(item) {
        None => {}
        Some(_) => unreachable!(),
    }
}

/// The item at a place comes out.
fn take_item<T>(items: &mut Vec<Option<T>>, place: u32) -> T
    requires within { place < length items.old.items }
    requires there { is_some (slice_index_or items.old.items place None) ≡ true }
    ensures item { slice_index_or items.old.items place None ≡ Some result }
    ensures taken { items.new.items ≡ slice_set items.old.items place None }
{
    match items[place as usize].take() {
        Some(item) => item,
        None => unreachable!(),
    }
}

/// The item at a place comes out, and another one comes there.
fn swap_item<T>(items: &mut Vec<Option<T>>, place: u32, item: T) -> T
    requires within { place < length items.old.items }
    requires there { is_some (slice_index_or items.old.items place None) ≡ true }
    ensures item { slice_index_or items.old.items place None ≡ Some result }
    ensures swapped { items.new.items ≡ slice_set items.old.items place (Some item) }
{
    match items[place as usize].replace(item) {
        Some(old) => old,
        None => unreachable!(),
    }
}

impl<T> Queues<T> {
    ghost use Rattle.io_queues.specs.contracts.queues.Queues.{the_row};

    /// So many queues, all empty, over so many places. Takes memory for the places and the queues,
    /// and nothing takes memory later; `NoMemory` where it is refused.
    pub fn make(alloc: Global, queues: u32, places: u32) -> Result<Queues<T>, NoMemory>
        ensures { IfOk result (λ made. made ≡ no_entries queues places) }
    {
        let Some(last) = places.checked_add(queues) else {
            return Err(NoMemory);
        };
        let next = links_ahead(alloc, last)?;
        let before = links_back(alloc, last)?;
        let mut items = Vec::with_capacity(alloc, places as usize)?;
        for _ in 0..places {
            items.push_reserved(None);
        }
        Ok(Queues {
            next,
            before,
            items,
            places,
            last,
        })
    }

    /// Gives its memory back. All queues are empty.
    pub fn destroy(self)
        requires { (queue : ℕ) → queue_at self queue ≡ [] }
    {
        let Queues {
            next: _,
            before: _,
            mut items,
            places: _,
            last: _,
        } = self;
        while let Some(item) = items.pop() {
            match item {
                None => {}
                Some(_item) => unreachable!(),
            }
        }
        items.destroy_empty();
    }

    /// What holds of all queues at every time. Runs nothing.
    pub fn holds(&self)
        ensures { IsWhole self.now }
    {
        let _next = &self.next;
    }

    /// It stands last in this queue. Returns its place, which was free.
    pub fn push_back(&mut self, queue: u32, item: T) -> u32
        requires queue { queue < length self.old.queues }
        requires room { 0 < self.old.room }
        ensures within { result < self.old.places }
        ensures free { item_at self.old result ≡ None }
        ensures pushed { self.new ≡ pushed queue (record { place = result; item = item }) self.old }
    {
        let place = self.next[self.last as usize];
        put_item(&mut self.items, place, item);
        let behind = node_after(self.places, queue, self.last);
        put_before(&mut self.next, &mut self.before, place, behind);
        place
    }

    /// It stands at this index of this queue, before what stood there. Returns its place, which was
    /// free. Costs as many steps as the index says.
    pub fn insert(&mut self, queue: u32, at: u32, item: T) -> u32
        requires queue { queue < length self.old.queues }
        requires at { at ≤ length (queue_at self.old queue) }
        requires room { 0 < self.old.room }
        ensures within { result < self.old.places }
        ensures free { item_at self.old result ≡ None }
        ensures inserted { self.new ≡ inserted queue at (record { place = result; item = item }) self.old }
    {
        let place = self.next[self.last as usize];
        let begin = node_before(self.places, queue, self.last);
        let first = self.next[begin as usize];
        let other = node_behind(&self.next, first, at);
        put_item(&mut self.items, place, item);
        put_before(&mut self.next, &mut self.before, place, other);
        place
    }

    /// Takes a queue's first, with the place that it had; `None` exactly where the queue is empty.
    pub fn pop_front(&mut self, queue: u32) -> Option<(u32, T)>
        requires { queue < length self.old.queues }
        ensures first { IfSome result (λ first.
            slice_get (queue_at self.old queue) 0 ≡ Some (record { place = first.0; item = first.1 })) }
        ensures popped { IfSome result (λ first. self.new ≡ popped queue self.old) }
        ensures empty { IfNone result (queue_at self.old queue ≡ []) }
        ensures same { IfNone result (self.new ≡ self.old) }
    {
        let begin = node_before(self.places, queue, self.last);
        let place = self.next[begin as usize];
        if place >= self.places {
            return None;
        }
        let item = take_item(&mut self.items, place);
        let free = self.next[self.last as usize];
        put_before(&mut self.next, &mut self.before, place, free);
        Some((place, item))
    }

    /// Takes what stands at this place out of its queue.
    pub fn remove(&mut self, place: u32) -> T
        requires { is_some (item_at self.old place) ≡ true }
        ensures item { item_at self.old place ≡ Some result }
        ensures removed { self.new ≡ removed place self.old }
    {
        let item = take_item(&mut self.items, place);
        let first = self.next[self.last as usize];
        put_before(&mut self.next, &mut self.before, place, first);
        item
    }

    /// What stands at this place leaves its queue and stands last in this one, which may be the
    /// same. Its place stays.
    pub fn move_back(&mut self, place: u32, queue: u32)
        requires there { is_some (item_at self.old place) ≡ true }
        requires queue { queue < length self.old.queues }
        ensures { self.new ≡ moved place queue self.old }
    {
        let after = node_after(self.places, queue, self.last);
        put_before(&mut self.next, &mut self.before, place, after);
    }

    /// Another item stands at this place; the one that stood there comes out.
    pub fn replace(&mut self, place: u32, item: T) -> T
        requires { is_some (item_at self.old place) ≡ true }
        ensures item { item_at self.old place ≡ Some result }
        ensures replaced { self.new ≡ with_item place item self.old }
    {
        swap_item(&mut self.items, place, item)
    }

    /// What stands at this place.
    pub fn get(&self, place: u32) -> &T
        requires { is_some (item_at self.now place) ≡ true }
        ensures { item_at self.now place ≡ Some result.now }
    {
        match &self.items[place as usize] {
            Some(item) => item,
            None => unreachable!(),
        }
    }

    /// What stands at this place, to be changed where it lies.
    pub fn get_mut(&mut self, place: u32) -> &mut T
        requires { is_some (item_at self.old place) ≡ true }
        ensures* writes_back { sem 𝓛
            (Lends (the_row T.row) T.row self.entry result (λ w. with_item place w self.old)) }
        ensures value { item_at self.old place ≡ Some result.now }
    {
        let slot = &mut self.items[place as usize];
        match slot {
            Some(item) => item,
            None => unreachable!(),
        }
    }

    /// The place of a queue's first, if any.
    pub fn first(&self, queue: u32) -> Option<u32>
        requires { queue < length self.now.queues }
        ensures { result ≡ place_first (queue_at self.now queue) }
    {
        let begin = node_before(self.places, queue, self.last);
        let front = self.next[begin as usize];
        if front < self.places {
            return Some(front);
        }
        None
    }

    /// The place of a queue's second, if any.
    pub fn second(&self, queue: u32) -> Option<u32>
        requires { queue < length self.now.queues }
        ensures { result ≡ place_first (drop 1 (queue_at self.now queue)) }
    {
        let begin = node_before(self.places, queue, self.last);
        let front = self.next[begin as usize];
        if front >= self.places {
            return None;
        }
        let behind = self.next[front as usize];
        if behind < self.places {
            return Some(behind);
        }
        None
    }

    /// Whether a queue is empty.
    pub fn is_empty(&self, queue: u32) -> bool
        requires { queue < length self.now.queues }
        ensures { IsTrue result ↔ queue_at self.now queue ≡ [] }
    {
        self.first(queue).is_none()
    }
}
