ghost use Rattle.std.specs.Prelude.{◌≡◌, ◌↔◌, ◌<◌, ◌≤◌, ℕ, if◌then◌else◌, [], false, length, slice_get, vec_capacity, IfNone, IfOk, IfSome, IsTrue, Some};
ghost use Rattle.io_jobs.specs.Listed.{IsAmong, WasListed, is_listed, listed_without, no_jobs, ops_in, owns, taken, with_op, with_strand};

use crate::job::Job;
use asio_types::NoMemory;
use std::alloc::Global;
use std::collections::VecDeque;
use std::marker::Model;

/// What may begin, first come first. Contracts see the list, which strands are in it, and for how many
/// operations without a strand there is room.
pub struct Jobs<T> {
    ring: VecDeque<Job<T>>,
    listed: Vec<bool>,
    room: u32,
    // empty, with room for these operations, for the end
    spare: Vec<T>,
}

impl<T> Model for Jobs<T> {
    ghost use Rattle.std.specs.Prelude.{◌≡◌, ◌≤◌, [], vec_capacity};
    ghost use Rattle.std.specs.VecDeque.{deque_capacity};
    ghost use Rattle.io_jobs.specs.Listed.{IsJobList, JobList};

    ghost Value = { JobList T };

    ghost view = { λ j. record { ring = j.ring.items; listed = j.listed.items; room = j.room } };

    ghost invariant = { λ j. IsJobList (deque_capacity j.ring)
        (record { ring = j.ring.items; listed = j.listed.items; room = j.room })
        × (j.spare.items ≡ []) × (j.room ≤ vec_capacity j.spare) };
}

impl<T> Jobs<T> {
    /// An empty list for so many strands and so many operations without a strand. Takes memory for all of
    /// them, and nothing takes memory later; `NoMemory` where it is refused.
    pub fn make(alloc: Global, strands: u32, room: u32) -> Result<Jobs<T>, NoMemory>
        ensures { IfOk result (λ made. made ≡ no_jobs strands room) }
    {
        let listed = vec![in alloc; false; strands as usize]?;
        let ring = VecDeque::with_capacity(alloc, strands as usize + room as usize)?;
        match Vec::with_capacity(alloc, room as usize) {
            Ok(spare) => Ok(Jobs {
                ring,
                listed,
                room,
                spare,
            }),
            Err(_) => {
                ring.destroy_empty();
                Err(NoMemory)
            }
        }
    }

    /// Gives its memory back. The list is empty.
    pub fn destroy(self)
        requires { self.ring ≡ [] }
    {
        let Jobs {
            ring,
            listed: _,
            room: _,
            spare,
        } = self;
        ring.destroy_empty();
        spare.destroy_empty();
    }

    /// Ends its use: the operations without a strand come out, in order, in a list with the room that there
    /// was for them. Takes no memory.
    pub fn into_ops(self) -> Vec<T>
        ensures ops { result.items ≡ ops_in self.ring }
        ensures room { self.room ≤ vec_capacity result }
    {
        let Jobs {
            mut ring,
            listed: _,
            room: _,
            spare: mut ops,
        } = self;
        while let Some(job) = ring.pop_front() {
            match job {
                Job::Strand(_) => {}
                Job::Own(op) => ops.push_reserved(op),
            }
        }
        ring.destroy_empty();
        ops
    }

    /// A strand may begin: it comes last, unless it is in the list.
    pub fn list(&mut self, strand: u32)
        requires { strand < length self.old.listed }
        ensures { self.new ≡ (if is_listed self.old strand then self.old else with_strand strand self.old) }
    {
        if self.listed[strand as usize] {
            return;
        }
        self.listed[strand as usize] = true;
        self.ring.push_back_reserved(Job::Strand(strand));
    }

    /// An operation without a strand may begin: it comes last.
    pub fn add(&mut self, op: T)
        requires { owns self.old.ring < self.old.room }
        ensures { self.new ≡ with_op op self.old }
    {
        self.ring.push_back_reserved(Job::Own(op));
    }

    /// Whether nothing may begin.
    pub fn is_empty(&self) -> bool
        ensures empty { IsTrue result ↔ self.now.ring ≡ [] }
        ensures none { IsTrue result → (strand : ℕ) → is_listed self.now strand ≡ false }
    {
        self.ring.is_empty()
    }

    /// Takes the first; `None` exactly where the list is empty, and then no strand is in it.
    pub fn next(&mut self) -> Option<Job<T>>
        ensures first { IfSome result (λ first. slice_get self.old.ring 0 ≡ Some first) }
        ensures listed { IfSome result (λ first. WasListed first self.old.listed) }
        ensures taken { IfSome result (λ first. self.new ≡ taken first self.old) }
        ensures empty { IfNone result (self.old.ring ≡ []) }
        ensures none { IfNone result ((strand : ℕ) → is_listed self.old strand ≡ false) }
        ensures same { IfNone result (self.new ≡ self.old) }
    {
        match self.ring.pop_front() {
            None => None,
            Some(first) => {
                unlist(&mut self.listed, &first);
                Some(first)
            }
        }
    }
}

/// A strand that is taken isn't in the list any more.
fn unlist<T>(listed: &mut Vec<bool>, first: &Job<T>)
    requires { IsAmong first.now listed.old.items }
    ensures { listed.new.items ≡ listed_without first.now listed.old.items }
{
    match first {
        Job::Strand(strand) => listed[*strand as usize] = false,
        Job::Own(_) => {}
    }
}
