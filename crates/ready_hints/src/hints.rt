ghost use Rattle.std.specs.Prelude.{◌≡◌, IfSome, IfNone, IfOk, IfErr};
ghost use Rattle.ready_hints.specs.Hints.{IsPassOf, IsSamePass, HasAllParts, HasLeft};
ghost use Rattle.ready_hints.specs.Hints.{HintsApart, IsOnce, IsAsHinted, IsWithinHints, IsPassSettled};
ghost use Rattle.ready_hints.specs.Hints.{AddsHint, TakesHint, with_parts_of};

use crate::pass::HintPass;
use crate::rule::{GathersHints, HintQueue, Hints, TakesHints};
use asio_types::NoMemory;
use std::marker::Model;
use std::sync::Wait;

/// Hints where work is, shared by `&`. Contracts see which queue it is.
pub struct ReadyHints {
    pub(crate) queue: HintQueue,
}

impl Model for ReadyHints {
    ghost use Rattle.std.specs.Global.{Global};
    ghost use Rattle.crossbeam_queue.specs.SegTies.{SegId};

    ghost Value = { SegId Global };

    ghost view = { λ h. h.queue };
}

impl Drop for ReadyHints {
    fn drop(self) {
        let ReadyHints { queue } = self;
        queue.destroy();
    }
}

impl ReadyHints {
    /// Adds a hint at a lane, behind all others: hints are numbered from 0 in the order in which
    /// they are made. It may take memory; where that is refused nothing is hinted. It may wait for
    /// another worker's call.
    pub fn hint<Rt: Wait>(&self, rt: &Rt, pass: &mut HintPass, lane: u32) -> Result<(), NoMemory>
        requires { IsPassOf self.now pass.old }
        ensures hinted { IfOk result (λ _. AddsHint lane pass.old pass.new) }
        ensures apart { IfOk result (λ _. HintsApart pass.new) }
        ensures refused { IfErr result (λ _. pass.new ≡ pass.old) }
        ensures kept { IsSamePass pass.old pass.new }
    {
        match self.queue.push_as::<Hints, Rt>(rt, &mut pass.pass, lane) {
            Ok(()) => Ok(()),
            Err(_) => Err(NoMemory),
        }
    }

    /// Takes the oldest hint. A pass takes no hint twice, also where it gathered others, and each
    /// later than the one before. `None` is the queue's own answer that it found none; a clause
    /// says more of it only for the pass that has all parts. It may wait for another worker's call.
    /// Takes no memory.
    pub fn next_hint<Rt: Wait>(&self, rt: &Rt, pass: &mut HintPass) -> Option<u32>
        requires { IsPassOf self.now pass.old }
        ensures taken { IfSome result (λ lane. TakesHint lane pass.old pass.new) }
        ensures once { IsOnce pass.new }
        ensures same { IsAsHinted pass.new }
        ensures none { IfNone result (pass.new ≡ pass.old) }
        ensures kept { IsSamePass pass.old pass.new }
        // who has all parts knows that what it took was hinted, and at `None` that all was taken
        ensures hinted { IfSome result (λ _. HasAllParts pass.old → IsWithinHints pass.new) }
        ensures empty { IfNone result (HasAllParts pass.old → IsPassSettled pass.old) }
    {
        self.queue.pop_as::<TakesHints, Rt>(rt, &mut pass.pass)
    }

    /// Ends another pass: what it hinted and took counts as this one's. Takes no memory.
    pub fn gather(&self, pass: &mut HintPass, other: HintPass)
        requires { IsPassOf self.now pass.old × IsPassOf self.now other }
        ensures { pass.new ≡ with_parts_of other pass.old }
    {
        let HintPass { pass: other } = other;
        self.queue.absorb::<GathersHints>(&mut pass.pass, other);
    }

    /// Ends the hints, by the pass that has all parts, and answers how many are left. Each of the
    /// others came out once.
    pub fn close<Rt: Wait>(self, rt: &Rt, pass: HintPass) -> usize
        requires pass { IsPassOf self pass }
        requires all { HasAllParts pass }
        ensures left { HasLeft result pass }
        ensures once { IsOnce pass }
    {
        let HintPass { mut pass } = pass;
        self.queue.len_as::<TakesHints, Rt>(rt, &mut pass)
    }
}
