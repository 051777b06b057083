ghost use Rattle.std.specs.Prelude.{◌≡◌, ◌≤◌, Contains, IsTrue, ◌↔◌, IfOk};
ghost use Rattle.asio_types.specs.Faults.{Rose, next_call, one_more};

use crate::failure::NoMemory;
use std::alloc::Global;
use std::marker::Model;

/// Which calls of an object in memory fail, and how many have. Contracts see the numbers of the
/// calls that fail, from 1; how many calls there were; and how many of them failed.
#[derive(Debug, Drop)]
pub struct FailPlan {
    // the numbers of the calls that fail, from 1
    fails: Vec<u32>,
    // how many there were; the count stands still at its end
    calls: u32,
    // how many of them failed; this count does too
    faults: u64,
}

impl Model for FailPlan {
    ghost use Rattle.asio_types.specs.Faults.{Plan};

    ghost Value = { Plan };

    ghost view = { λ p. record { fails = p.fails.items; calls = p.calls; faults = p.faults } };
}

impl FailPlan {
    /// Nothing was called, and these calls, counted from 1, will fail.
    pub fn make(alloc: Global, fails: &[u32]) -> Result<FailPlan, NoMemory>
        ensures { IfOk result (λ plan. plan ≡ record { fails = fails.now; calls = 0; faults = 0 }) }
    {
        Ok(FailPlan::of(Vec::from_slice(alloc, fails)?))
    }

    /// The same of a vector. Takes no memory.
    pub fn of(fails: Vec<u32>) -> FailPlan
        ensures { result ≡ record { fails = fails.items; calls = 0; faults = 0 } }
    {
        FailPlan {
            fails,
            calls: 0,
            faults: 0,
        }
    }

    /// Counts a call, and answers whether it is to fail. Looks through the whole list.
    pub fn next_fails(&mut self) -> bool
        ensures named { IsTrue result ↔ Contains self.old.fails (next_call self.old.calls) }
        ensures same { self.new.fails ≡ self.old.fails }
        ensures counted { self.new.calls ≡ next_call self.old.calls }
        ensures unfailed { self.new.faults ≡ self.old.faults }
    {
        self.calls = self.calls.saturating_add(1);
        self.fails.contains(&self.calls)
    }

    /// Counts a fault.
    pub fn fail(&mut self)
        ensures same { self.new.fails ≡ self.old.fails }
        ensures uncounted { self.new.calls ≡ self.old.calls }
        ensures risen { self.new.faults ≡ one_more self.old.faults }
        ensures later { self.old.faults ≤ self.new.faults }
        ensures rose { Rose self.old.faults self.new.faults }
    {
        self.faults = self.faults.saturating_add(1);
    }
}
