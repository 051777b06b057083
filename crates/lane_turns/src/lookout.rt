//! Where a worker looks first, and when. No clause of the context rests on it.
ghost use Rattle.std.specs.Prelude.{◌≡◌, ◌<◌, IfOk, length};

use crate::backoff::Backoff;
use asio_types::{Event, NoMemory};
use lane_logs::LogEntry;
use lane_map::LaneMap;
use ready_hints::{HintPass, ReadyHints};
use session_script::Script;
use std::alloc::Global;
use std::marker::Model;
use std::sync::{Arc, Wait};
use strand_core::Posted;

/// A worker's place at the hints that all workers share, the lane at which it looks next, and whether it
/// keeps out of the way of others.
#[derive(Drop)]
pub struct Lookout {
    hints: Arc<ReadyHints>,
    pass: HintPass,
    // the lane at which it looks first
    next: u32,
    // whether a note was put there
    found: bool,
    // the lane whose turn it has
    held: u32,
    // whether the last execution there put a note into that lane itself
    again: bool,
    // the other lanes into which notes were put in this turn, in order; full, it takes no more
    others: Vec<u32>,
    // whether it takes part
    backoff: Backoff,
}

impl Model for Lookout {
    ghost use Rattle.std.specs.Prelude.{◌≡◌};
    ghost use Rattle.std.specs.Arc.{arc_value};
    ghost use Rattle.ready_hints.specs.Hints.{IsPassOf};

    ghost Value = { Unit {0} };

    ghost view = { λ l. tt };

    ghost invariant = { λ l. IsPassOf (arc_value l.hints) l.pass };
}

impl Lookout {
    /// The lane at which it looks first.
    pub fn first(&self) -> u32 {
        self.next
    }

    /// Whether it looks at lanes now that it read this clock. If not, others are quick without it, and it
    /// waits before it reads again.
    pub fn takes_part(&mut self, clock: u64) -> bool {
        self.backoff.takes_part(clock)
    }

    /// It found nothing to do.
    pub fn found_nothing(&mut self) {
        self.backoff.found_nothing();
    }

    /// Lets other threads go first, for as long as it keeps out.
    pub fn wait(&self) {
        self.backoff.wait();
    }

    /// Hints at the lane in this place of its list. A hint that is refused is dropped.
    fn hint<Rt: Wait>(&mut self, rt: &Rt, place: usize) {
        if let Some(lane) = self.others.get(place) {
            let lane = *lane;
            let _ = self.hints.hint(rt, &mut self.pass, lane);
        }
    }

    /// Takes a hint, if there is one.
    fn take<Rt: Wait>(&mut self, rt: &Rt) {
        if let Some(lane) = self.hints.next_hint(rt, &mut self.pass) {
            self.next = lane;
        }
    }

    /// Hints at the lanes into which its last turn put notes, in the order of the puts, but for the
    /// first, at which it looks itself. Where there is none, it takes a hint, if there is one.
    pub fn share<Rt: Wait>(&mut self, rt: &Rt) {
        for place in 1..self.others.len() {
            self.hint(rt, place);
        }
        self.others.clear();
        if !self.found {
            self.take(rt);
        }
    }

    /// An attempt at a lane begins.
    pub fn begin(&mut self, lane: u32) {
        self.held = lane;
        self.again = false;
        self.others.clear();
    }

    /// A note was put into a lane. Of several in a row into one lane the first is enough.
    fn note(&mut self, lane: u32) {
        if lane == self.held {
            self.again = true;
        } else if self.is_new(lane) {
            self.add(lane);
        }
    }

    /// Whether the last lane of its list is another one.
    fn is_new(&self, lane: u32) -> bool {
        match self.others.last() {
            Some(last) => *last != lane,
            None => true,
        }
    }

    /// Puts a lane into its list, if that isn't full.
    fn add(&mut self, lane: u32) {
        if self.others.len() < self.others.capacity() {
            self.others.push_reserved(lane);
        }
    }

    /// Notes the lanes into which an execution put notes, by its calls.
    pub fn note_calls(&mut self, script: &Script, map: &LaneMap<'_>, calls: &[Posted])
        requires { map.now ≡ script.now }
    {
        self.again = false;
        self.backoff.drew(calls.len() as u64);
        for call in calls {
            if let Posted::Call { act } = *call {
                if act < script.acts() && !script.is_stop(act) && !script.is_inline(act) {
                    self.note(map.asked(act));
                }
            }
        }
    }

    /// Notes the lanes into which turns of the reactor put notes, by what they add to its log.
    pub fn note_told(&mut self, script: &Script, map: &LaneMap<'_>, added: &[LogEntry])
        requires { map.now ≡ script.now }
    {
        self.backoff.drew(added.len() as u64);
        for entry in added {
            if let Event::Done { op, .. } = entry.event {
                if op < script.acts() {
                    self.note(map.home(op));
                }
            }
        }
    }

    /// An attempt is over: the first lane into which notes were put is looked at next, and where there
    /// is none, the lane behind.
    pub fn end(&mut self) {
        if self.again {
            self.add(self.held);
        }
        match self.others.first() {
            Some(lane) => {
                self.next = *lane;
                self.found = true;
            }
            None => {
                self.next = self.held.saturating_add(1);
                self.found = false;
            }
        }
    }
}

/// The lookouts of so many workers, with the hints that they share and room for as many lanes as one
/// attempt puts notes into. They begin to look apart, at equal distances from the last lane downwards;
/// the first, which is the caller's own, behind all lanes. The first and the last take part from the
/// beginning, the others look on first.
pub fn lookouts(
    alloc: Global,
    script: &Script,
    lanes: u32,
    workers: u32,
) -> Result<Vec<Lookout>, NoMemory>
    requires { 0 < workers }
    ensures { IfOk result (λ all. length all.items ≡ workers) }
{
    let (hints, mut passes) = ReadyHints::make(alloc, workers)?;
    let hints = Arc::new(alloc, hints)?;
    let mut all = Vec::with_capacity(alloc, workers as usize)?;
    let apart = lanes / (workers - 1).max(1);
    let mut start = lanes;
    while let Some(pass) = passes.next() {
        let takes_part = all.is_empty() || all.len() as u64 + 1 == u64::from(workers);
        all.push_reserved(Lookout {
            hints: Arc::try_clone(&hints)?,
            pass,
            next: start,
            found: false,
            held: 0,
            again: false,
            others: Vec::with_capacity(alloc, script.acts() as usize)?,
            backoff: Backoff::first(takes_part),
        });
        start = start.saturating_sub(apart);
    }
    Ok(all)
}
