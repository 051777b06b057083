// The rule of the queue, and what each call tells. No value of these types is made.
use crossbeam_queue::protocol::{Join, Lesson, Outcome, Protocol, Split};
use crossbeam_queue::{RuledSegQueue, SegPass};
use std::collections::LinkedList;

/// A hint, for contracts alone: no value of it is made.
pub struct Hint {
    /// How many hints were made before, with whatever pass.
    pub number: u64,
    /// The lane that it hints at.
    pub lane: u32,
}

/// What a pass knows.
pub struct Hand {
    /// Its parts of the right to know the whole.
    pub parts: u64,
    /// What it hinted, in order.
    pub hinted: LinkedList<Hint>,
    /// What it took, in order.
    pub taken: LinkedList<Hint>,
}

/// Each hint comes out at most once.
pub struct Once;

impl Protocol<u32, Hand> for Once {
    ghost use Rattle.ready_hints.specs.HintRule.{HintRule, first_hand};

    ghost holds = { HintRule };

    ghost first = { first_hand };
}

pub type HintQueue = RuledSegQueue<u32, Hand, Once>;

pub type QueuePass = SegPass<u32, Hand>;

pub struct Hints;

impl Outcome<u32, Hand> for Hints {
    ghost use Rattle.ready_hints.specs.HintRule.{hints};

    ghost then = { hints };
}

pub struct TakesHints;

impl Outcome<u32, Hand> for TakesHints {
    ghost use Rattle.ready_hints.specs.HintRule.{takes};

    ghost then = { takes };
}

impl Lesson<u32, Hand> for TakesHints {
    ghost use Rattle.ready_hints.specs.HintRule.{accounts};

    ghost fact = { accounts };
}

pub struct Cuts;

impl Split<Hand> for Cuts {
    ghost use Rattle.ready_hints.specs.HintRule.{cut_left, cut_right};

    ghost left = { cut_left };

    ghost right = { cut_right };
}

pub struct GathersHints;

impl Join<Hand> for GathersHints {
    ghost use Rattle.ready_hints.specs.HintRule.{gathered_hints, spent_hand};

    ghost both = { gathered_hints };

    ghost spent = { spent_hand };
}
