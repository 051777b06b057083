ghost use Rattle.std.specs.Prelude.{◌≡◌, ◌↔◌, if◌then◌else◌, IfOk, IsTrue, Some, None, nat_eq};
ghost use Rattle.run_witness.specs.Reached.{IsBefore, NotesAt, later_of, reached_at, reached_with};

use run_check::NoRoom;
use std::alloc::Global;
use std::collections::HashMap;
use std::hash::Hash;

/// How far lines reach into an order, by what they have in common: at which place the last of them
/// stands, or that one of them doesn't stand at all.
#[derive(Drop)]
pub(crate) struct Reached<K: Eq + Hash> {
    places: HashMap<K, Option<u64>>,
}

/// The later of two places, if both are.
fn later_of(one: Option<u64>, other: Option<u64>) -> Option<u64>
    ensures { result ≡ later_of one other }
{
    match (one, other) {
        (Some(one), Some(other)) => Some(one.max(other)),
        _ => None,
    }
}

/// What is kept at a key, with one place more.
fn reached_with(kept: Option<Option<u64>>, place: Option<u64>) -> Option<u64>
    ensures { result ≡ reached_with kept place }
{
    match kept {
        Some(other) => later_of(other, place),
        None => place,
    }
}

impl<K: Eq + Hash + Copy> Reached<K> {
    pub(crate) fn new(alloc: Global) -> Self
        ensures { (key : K) → reached_at K.eq result key ≡ None }
    {
        Reached {
            places: HashMap::new(alloc),
        }
    }

    /// Whether all lines that were noted at this key stand before a place.
    pub(crate) fn is_before(&self, key: K, bound: u64) -> bool
        ensures { IsTrue result ↔ IsBefore (reached_at K.eq self.now key) bound }
    {
        match self.places.get(&key).copied() {
            Some(Some(place)) => place < bound,
            Some(None) => false,
            None => true,
        }
    }

    /// Notes where a line stands.
    pub(crate) fn note(&mut self, key: K, place: Option<u64>) -> Result<(), NoRoom>
        ensures { IfOk result (λ _. (other : K) → reached_at K.eq self.new other
            ≡ (if K.eq key other then Some (reached_with (reached_at K.eq self.old key) place) else reached_at K.eq self.old other)) }
    {
        let all = reached_with(self.places.get(&key).copied(), place);
        self.places.insert(key, all)?;
        Ok(())
    }
}

/// Notes where a line stands, if it has this key.
pub(crate) fn note_at(
    table: &mut Reached<u64>,
    key: Option<u64>,
    place: Option<u64>,
) -> Result<(), NoRoom>
    ensures { IfOk result (λ _. NotesAt (reached_at nat_eq table.old) (reached_at nat_eq table.new) key place) }
{
    match key {
        Some(key) => table.note(key, place),
        None => Ok(()),
    }
}
