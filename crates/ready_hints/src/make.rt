ghost use Rattle.std.specs.Prelude.{◌≡◌, ◌-◌, ◌<◌, ◌≤◌, [], vec_capacity, IfOk};
ghost use Rattle.ready_hints.specs.HintRule.{all_parts};
ghost use Rattle.ready_hints.specs.Hints.{IsPassOf, first_pass, one_part, passes_of};

use crate::hints::ReadyHints;
use crate::pass::{HintPass, HintPasses};
use crate::rule::{Cuts, HintQueue};
use asio_types::NoMemory;
use std::alloc::Global;

impl ReadyHints {
    /// No hints yet, and so many passes. Takes memory for the queue and the list of passes; `hint`
    /// takes more of this allocator's.
    pub fn make(alloc: Global, passes: u32) -> Result<(ReadyHints, HintPasses), NoMemory>
        requires { 0 < passes }
        ensures { IfOk result (λ made. made.1 ≡ passes_of made.0 passes) }
    {
        let list = Vec::with_capacity(alloc, passes as usize)?;
        let (queue, first) = HintQueue::with_rule(alloc)?;
        let hints = ReadyHints { queue };
        let passes = hints.pass_all(HintPass { pass: first }, list, passes);
        Ok((hints, passes))
    }

    // So many passes, of the one that has all parts.
    fn pass_all(&self, mut whole: HintPass, mut list: Vec<HintPass>, count: u32) -> HintPasses
        requires pass { (0 < count) × (whole ≡ first_pass self.now all_parts) }
        requires room { (list.items ≡ []) × (count ≤ vec_capacity list) }
        ensures { result ≡ passes_of self.now count }
    {
        let mut left = count;
        while left > 1 {
            list.push_reserved(self.part(&mut whole));
            left -= 1;
        }
        list.push_reserved(whole);
        HintPasses { left: list }
    }

    // A new pass, with one part of this one's.
    fn part(&self, pass: &mut HintPass) -> HintPass
        requires pass { IsPassOf self.now pass.old }
        requires parts { 1 < pass.old.parts }
        ensures kept { pass.new ≡ record pass.old { parts = pass.old.parts - 1 } }
        ensures made { result ≡ one_part self.now }
    {
        HintPass {
            pass: self.queue.another::<Cuts>(&mut pass.pass),
        }
    }
}
