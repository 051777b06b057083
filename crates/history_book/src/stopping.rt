ghost use Rattle.std.specs.Prelude.{◌≡◌, ◌≢◌, map, IfOk, IsTrue, ◌↔◌, Ok};
ghost use Rattle.history_rules.specs.State.{all_lanes, each_lane};
ghost use Rattle.history_rules.specs.Stopping.{allowance_of, with_allowance, less_one, at_most_one, after_stop_on};
ghost use Rattle.history_rules.specs.declared.phase.Allowance.TheVariants as allowance;

use asio_types::{Lane, NoMemory};
use history_rules::Allowance;
use std::alloc::Global;
use std::marker::Model;

/// How many more executions each lane may begin.
#[derive(Debug, Drop)]
pub(crate) struct LaneAllowances {
    strands: Vec<Allowance>,
    /// The one answer for all private lanes.
    own: Allowance,
    reactor: Allowance,
}

impl Model for LaneAllowances {
    ghost use Rattle.history_rules.specs.State.{Allowances};

    ghost Value = { Allowances };

    ghost view = { λ a. record { strands = a.strands.items; own = a.own; reactor = a.reactor } };
}

impl LaneAllowances {
    /// Every lane is free. Takes memory for each strand.
    pub(crate) fn make(alloc: Global, strands: usize) -> Result<LaneAllowances, NoMemory>
        ensures { IfOk result (λ allowances. allowances ≡ all_lanes allowance.Free strands) }
    {
        let free = vec![in alloc; Allowance::Free; strands]?;
        Ok(LaneAllowances {
            strands: free,
            own: Allowance::Free,
            reactor: Allowance::Free,
        })
    }

    /// What a lane may begin.
    fn of(&self, lane: Lane) -> Allowance
        ensures { result ≡ allowance_of self.now lane }
    {
        match lane {
            Lane::Strand(strand) => self
                .strands
                .get(strand as usize)
                .copied()
                .unwrap_or(Allowance::Nothing),
            Lane::Own(_) => self.own,
            Lane::Reactor => self.reactor,
        }
    }

    fn put(&mut self, lane: Lane, new: Allowance)
        ensures { self.new ≡ with_allowance lane new self.old }
    {
        match lane {
            Lane::Strand(strand) => {
                if let Some(allowance) = self.strands.get_mut(strand as usize) {
                    *allowance = new;
                }
            }
            Lane::Own(_) => {}
            Lane::Reactor => self.reactor = new,
        }
    }

    /// Whether a lane may begin something.
    pub(crate) fn may_start(&self, lane: Lane) -> bool
        ensures { IsTrue result ↔ (allowance_of self.now lane ≢ allowance.Nothing) }
    {
        match self.of(lane) {
            Allowance::Free | Allowance::One => true,
            Allowance::Nothing => false,
        }
    }

    /// Something began on the lane.
    pub(crate) fn spend(&mut self, lane: Lane)
        ensures { self.new ≡ with_allowance lane (less_one (allowance_of self.old lane)) self.old }
    {
        let left = less_one(self.of(lane));
        self.put(lane, left);
    }

    /// Every lane comes to the same.
    pub(crate) fn put_all(&mut self, allowed: Allowance)
        ensures { self.new ≡ each_lane allowed self.old }
    {
        put_each(self.strands.as_mut_slice(), allowed);
        self.own = allowed;
        self.reactor = allowed;
    }

    /// A handler's stop has returned: each free lane may begin one more, and the handler's own lane
    /// none.
    pub(crate) fn limit(&mut self, lane: Lane)
        ensures { self.new ≡ after_stop_on lane self.old }
    {
        limit_each(self.strands.as_mut_slice());
        self.own = at_most_one(self.own);
        self.reactor = at_most_one(self.reactor);
        self.put(lane, Allowance::Nothing);
    }
}

fn less_one(allowance: Allowance) -> Allowance
    ensures { result ≡ less_one allowance }
{
    match allowance {
        Allowance::Free => Allowance::Free,
        Allowance::One | Allowance::Nothing => Allowance::Nothing,
    }
}

fn at_most_one(allowance: Allowance) -> Allowance
    ensures { result ≡ at_most_one allowance }
{
    match allowance {
        Allowance::Free | Allowance::One => Allowance::One,
        Allowance::Nothing => Allowance::Nothing,
    }
}

fn put_each(strands: &mut [Allowance], allowed: Allowance)
    ensures { strands.new ≡ map (λ _. allowed) strands.old }
{
    for strand in strands.iter_mut() {
        *strand = allowed;
    }
}

fn limit_each(strands: &mut [Allowance])
    ensures { strands.new ≡ map at_most_one strands.old }
{
    for strand in strands.iter_mut() {
        *strand = at_most_one(*strand);
    }
}
