ghost use Rattle.std.specs.Prelude.{◌≡◌, ◌+◌, ◌-◌, if◌then◌else◌, IfOk};
ghost use Rattle.run_check.specs.Counts.{count_of};

use crate::refusal::NoRoom;
use std::alloc::Global;
use std::collections::HashMap;
use std::hash::Hash;

/// How often each key was counted; what is counted no more takes no memory.
#[derive(Drop)]
pub(crate) struct Counts<K: Eq + Hash> {
    numbers: HashMap<K, u64>,
}

impl<K: Eq + Hash + Copy> Counts<K> {
    pub(crate) fn new(alloc: Global) -> Self
        ensures { (key : K) → count_of K.eq result key ≡ 0 }
    {
        Counts {
            numbers: HashMap::new(alloc),
        }
    }

    pub(crate) fn get(&self, key: K) -> u64
        ensures { result ≡ count_of K.eq self.now key }
    {
        self.numbers.get(&key).copied().unwrap_or(0)
    }

    pub(crate) fn add(&mut self, key: K) -> Result<(), NoRoom>
        ensures { IfOk result
            (λ _. (other : K) → count_of K.eq self.new other ≡ (if K.eq key other then 1 else 0) + count_of K.eq self.old other) }
    {
        let more = self.get(key).checked_add(1).ok_or(NoRoom)?;
        self.numbers.insert(key, more)?;
        Ok(())
    }

    pub(crate) fn take_away(&mut self, key: K) -> Result<(), NoRoom>
        ensures { IfOk result
            (λ _. (other : K) → count_of K.eq self.new other ≡ count_of K.eq self.old other - (if K.eq key other then 1 else 0)) }
    {
        let count = self.get(key);
        if count <= 1 {
            self.numbers.remove(&key);
        } else {
            self.numbers.insert(key, count - 1)?;
        }
        Ok(())
    }
}
