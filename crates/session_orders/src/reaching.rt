ghost use Rattle.std.specs.Prelude.{◌≡◌, ◌<◌, ◌+◌, ◌++◌, ◌∷◌, [], true, IfOk, IfSome, OnOk, length};
ghost use Rattle.std.specs.List.{slice_index_or, slice_set};
ghost use Rattle.session_orders.specs.Count.{HasJoined, HaveCome, Reaching as Reaching_of, with_more};
ghost use Rattle.session_orders.specs.Walk.{HasCome};

use crate::bounds::ReactorKind;
use crate::same::is_same;
use crate::walk::{Walk, replay_of};
use asio_types::{Event, NoMemory};
use history_book::Replay;
use session_script::Script;
use std::collections::VecDeque;
use std::marker::Model;
use std::mem::replace;

/// A state that is still to be looked at: a beginning that comes to it, its replay, and how many
/// beginnings do.
#[derive(Drop)]
pub(crate) struct Reaching<'a> {
    pub(crate) path: Vec<Event>,
    pub(crate) replay: Replay<'a>,
    pub(crate) times: u64,
}

impl<'a> Model for Reaching<'a> {
    ghost use Rattle.session_orders.specs.Count.{Reaching as Reaching_of};

    ghost Value = { Reaching_of };

    ghost view = { λ r. record { path = r.path.items; replay = r.replay; times = r.times } };
}

impl<'a> Reaching<'a> {
    /// The beginning.
    pub(crate) fn path(&self) -> &[Event]
        ensures { result.now ≡ self.now.path }
    {
        self.path.as_slice()
    }

    /// Its replay.
    pub(crate) fn replay(&self) -> &Replay<'a>
        ensures { result.now ≡ self.now.replay }
    {
        &self.replay
    }

    /// How many beginnings come to it.
    fn times(&self) -> u64
        ensures { result ≡ self.now.times }
    {
        self.times
    }

    /// So many beginnings more come to it, unless they can't be counted.
    fn add(&mut self, times: u64) -> bool
        ensures { result ≡ true → self.new ≡ with_more times self.old }
    {
        match self.times.checked_add(times) {
            Some(sum) => {
                self.times = sum;
                true
            }
            None => false,
        }
    }
}

impl<'a> Walk<'a> {
    /// What an event that was taken leads to, and the walk as it was before.
    pub(crate) fn split(&mut self, event: Event, times: u64) -> Result<Reaching<'a>, NoMemory>
        requires { HasCome self.old.script.now self.old.kind self.old.replay
            (self.old.path.items ++ event ∷ []) }
        ensures come { IfOk result
            (λ one. HasCome self.old.script.now self.old.kind one.replay one.path) }
        ensures path { IfOk result (λ one. one.path ≡ self.old.path.items ++ event ∷ []) }
        ensures times { IfOk result (λ one. one.times ≡ times) }
        ensures back { OnOk result (HasCome self.old.script.now self.old.kind self.new.replay
            self.old.path.items) }
        ensures others { OnOk result (self.new ≡ record self.old { replay = self.new.replay }) }
    {
        let again = replay_of(
            self.alloc,
            self.script,
            self.kind.told,
            self.path.as_slice(),
        )?;
        let mut path = Vec::from_slice(self.alloc, self.path.as_slice())?;
        path.push(event)?;
        let replay = replace(&mut self.replay, again);
        Ok(Reaching {
            path,
            replay,
            times,
        })
    }
}

/// One of these states that is sure to be this one.
fn find(
    script: &Script,
    kind: ReactorKind,
    queue: &VecDeque<Reaching<'_>>,
    one: &Reaching<'_>,
) -> Option<usize>
    requires have { HaveCome script.now kind queue.now.items }
    requires come { HasCome script.now kind one.now.replay one.now.path }
    ensures within { IfSome result (λ at. at < length queue.now.items) }
    ensures same { IfSome result (λ at. (d : Reaching_of) →
        (slice_index_or queue.now.items at d).replay.state ≡ one.now.replay.state) }
{
    for at in 0..queue.len() {
        if is_same(script, kind, &queue[at], one) {
            return Some(at);
        }
    }
    None
}

/// So many beginnings more come to a state, unless they can't be counted.
fn add_at(queue: &mut VecDeque<Reaching<'_>>, at: usize, times: u64) -> bool
    ensures { result ≡ true → (d : Reaching_of) → (at < length queue.old.items)
        × (queue.new.items
        ≡ slice_set queue.old.items at (with_more times (slice_index_or queue.old.items at d))) }
{
    let Some(found) = queue.get_mut(at) else {
        return false;
    };
    found.add(times)
}

/// One state more is to be looked at: with the one that is the same, where one is found. Answers
/// whether what comes to it could be counted.
pub(crate) fn join<'a>(
    script: &Script,
    kind: ReactorKind,
    queue: &mut VecDeque<Reaching<'a>>,
    one: Reaching<'a>,
) -> Result<bool, NoMemory>
    requires have { HaveCome script.now kind queue.old.items }
    requires come { HasCome script.now kind one.replay one.path }
    ensures have { IfOk result (λ all. all ≡ true → HaveCome script.now kind queue.new.items) }
    ensures joined { IfOk result (λ all. all ≡ true →
        HasJoined script.now kind one.entry.replay.state one.entry.times queue.old.items
        queue.new.items) }
{
    let times = one.times();
    match find(script, kind, queue, &one) {
        Some(at) => Ok(add_at(queue, at, times)),
        None => {
            queue.push_back(one)?;
            Ok(true)
        }
    }
}
