ghost use Rattle.std.specs.Prelude.{◌≡◌, ◌<◌, ◌^◌, ◌+◌, [], ◌∷◌, ◌++◌, true, IfNone, IfOk, IfSome, IsSome, OnOk};
ghost use Rattle.history_rules.specs.Legal.{state_of};
ghost use Rattle.session_orders.specs.Bound.{HasBeginnings};
ghost use Rattle.session_orders.specs.Count.{HasMoved, HasOrderCount, HasPassed, HaveCome, Leads};
ghost use Rattle.session_orders.specs.Place.{place_of, places_of};
ghost use Rattle.session_orders.specs.Walk.{HasCome};

use crate::bounds::{Bounds, ReactorKind};
use crate::listing::list_orders;
use crate::place::place_count;
use crate::reaching::{Reaching, join};
use crate::walk::{Walk, first_replay};
use asio_types::{Event, NoMemory};
use session_script::Script;
use std::alloc::Global;
use std::collections::VecDeque;

impl<'a> Walk<'a> {
    /// Follows an event that was taken: the state that it leads to joins the others. Answers whether
    /// what comes to it could be counted.
    fn follow(
        &mut self,
        event: Event,
        times: u64,
        queue: &mut VecDeque<Reaching<'a>>,
    ) -> Result<bool, NoMemory>
        requires come { HasCome self.old.script.now self.old.kind self.old.replay
            (self.old.path.items ++ event ∷ []) }
        requires at { place_of self.old.script.now self.old.kind event ≡ self.old.place }
        requires small { self.old.place < 2 ^ 36 }
        requires have { HaveCome self.old.script.now self.old.kind queue.old.items }
        ensures come { OnOk result (HasCome self.old.script.now self.old.kind self.new.replay
            self.old.path.items) }
        ensures others { OnOk result
            (self.new ≡ record self.old { replay = self.new.replay; place = self.old.place + 1 }) }
        ensures have { IfOk result (λ all. all ≡ true →
            HaveCome self.old.script.now self.old.kind queue.new.items) }
        ensures moved { IfOk result (λ all. all ≡ true →
            HasMoved self.old.script.now self.old.kind
            (state_of self.old.script.now self.old.kind.told self.old.path.items) times
            queue.old.items queue.new.items self.old.place (self.old.place + 1)) }
    {
        let script = self.script;
        let kind = self.kind;
        let one = self.split(event, times)?;
        self.place += 1;
        join(script, kind, queue, one)
    }

    /// Follows each event that may come. Answers whether what comes to the states could be counted.
    fn spread(&mut self, times: u64, queue: &mut VecDeque<Reaching<'a>>) -> Result<bool, NoMemory>
        requires come { HasCome self.old.script.now self.old.kind self.old.replay
            self.old.path.items }
        requires first { self.old.place ≡ 0 }
        requires have { HaveCome self.old.script.now self.old.kind queue.old.items }
        ensures have { IfOk result (λ all. all ≡ true →
            HaveCome self.old.script.now self.old.kind queue.new.items) }
        ensures moved { IfOk result (λ all. all ≡ true →
            HasMoved self.old.script.now self.old.kind
            (state_of self.old.script.now self.old.kind.told self.old.path.items) times
            queue.old.items queue.new.items 0 (places_of self.old.script.now self.old.kind)) }
    {
        'places: for _ in 0..place_count(self.script, self.kind) + 1 {
            let Some(event) = self.find_next() else {
                return Ok(true);
            };
            if !self.follow(event, times, queue)? {
                return Ok(false);
            }
        }
        Ok(false)
    }
}

/// A count with so many more, unless it is past 64 bits.
fn sum_of(counted: u64, times: u64) -> Option<u64>
    ensures { IfSome result (λ total. total ≡ counted + times) }
{
    counted.checked_add(times)
}

impl<'a> Walk<'a> {
    /// Counts what is whole here, and follows each event that may come. Answers the new count, unless
    /// the numbers are too large.
    fn tally(
        &mut self,
        times: u64,
        queue: &mut VecDeque<Reaching<'a>>,
        counted: u64,
    ) -> Result<Option<u64>, NoMemory>
        requires come { HasCome self.old.script.now self.old.kind self.old.replay
            self.old.path.items }
        requires first { self.old.place ≡ 0 }
        requires have { HaveCome self.old.script.now self.old.kind queue.old.items }
        ensures have { IfOk result (λ found. IsSome found →
            HaveCome self.old.script.now self.old.kind queue.new.items) }
        ensures passed { IfOk result (λ found. IfSome found (λ total.
            HasPassed self.old.script.now self.old.kind self.old.replay.state times
            queue.old.items queue.new.items counted total)) }
    {
        let whole = self.replay.whole();
        let all = self.spread(times, queue)?;
        if !all {
            return Ok(None);
        }
        if whole {
            Ok(sum_of(counted, times))
        } else {
            Ok(Some(counted))
        }
    }
}

/// Looks at one state: counts what is whole there, and the states behind it join the others. Answers
/// the new count, unless the numbers are too large.
fn pass<'a>(
    alloc: Global,
    script: &'a Script,
    kind: ReactorKind,
    one: Reaching<'a>,
    queue: &mut VecDeque<Reaching<'a>>,
    counted: u64,
) -> Result<Option<u64>, NoMemory>
    requires come { HasCome script.now kind one.replay one.path }
    requires have { HaveCome script.now kind queue.old.items }
    ensures have { IfOk result (λ found. IsSome found →
        HaveCome script.now kind queue.new.items) }
    ensures passed { IfOk result (λ found. IfSome found (λ total.
        HasPassed script.now kind one.entry.replay.state one.entry.times queue.old.items
        queue.new.items counted total)) }
{
    let Reaching {
        path,
        replay,
        times,
    } = one;
    let mut walk = Walk {
        alloc,
        script,
        kind,
        replay,
        path,
        place: 0,
    };
    walk.tally(times, queue, counted)
}

/// Looks at states until none is left, but at no more than so many. Answers how many whole histories
/// lead through those that are to be looked at.
fn count_on<'a>(
    alloc: Global,
    script: &'a Script,
    kind: ReactorKind,
    states: u32,
    queue: &mut VecDeque<Reaching<'a>>,
) -> Result<Option<u64>, NoMemory>
    requires have { HaveCome script.now kind queue.old.items }
    requires leads { Leads script.now kind queue.old.items 0 }
    ensures { IfOk result (λ found. IfSome found (HasOrderCount script.now kind)) }
{
    let mut counted = 0;
    'states: for _ in 0..states {
        let Some(one) = queue.pop_front() else {
            return Ok(Some(counted));
        };
        let Some(total) = pass(alloc, script, kind, one, queue, counted)? else {
            return Ok(None);
        };
        counted = total;
    }
    if queue.is_empty() {
        Ok(Some(counted))
    } else {
        Ok(None)
    }
}

/// Counts by states: those that were met before aren't walked again.
fn count_states(
    alloc: Global,
    script: &Script,
    kind: ReactorKind,
    states: u32,
) -> Result<Option<u64>, NoMemory>
    ensures { IfOk result (λ found. IfSome found (HasOrderCount script.now kind)) }
{
    let mut queue = VecDeque::new(alloc);
    queue.push_back(Reaching {
        path: Vec::new(alloc),
        replay: first_replay(alloc, script, kind)?,
        times: 1,
    })?;
    count_on(alloc, script, kind, states, &mut queue)
}

/// Counts by a list of all, if no more than so many beginnings lead to it.
fn count_listed(
    alloc: Global,
    script: &Script,
    kind: ReactorKind,
    beginnings: u32,
) -> Result<Option<u64>, NoMemory>
    ensures counted { IfOk result (λ found. IfSome found (HasOrderCount script.now kind)) }
    ensures none { IfOk result (λ found. IfNone found (HasBeginnings script.now kind beginnings)) }
{
    let bounds = Bounds {
        reactor: kind,
        histories: usize::MAX,
        beginnings,
    };
    let orders = list_orders(alloc, script, bounds)?;
    if orders.are_all() {
        Ok(Some(orders.histories().len() as u64))
    } else {
        Ok(None)
    }
}

/// How many legal whole histories the script has, of the kind that `list_orders` lists. States that
/// were met before aren't walked again: equal states have the same ways on. `None` says that more
/// than so many states would have to be looked at, or that a number is past 64 bits: then the legal
/// histories have at least so many beginnings. Takes memory for the states that are still to be
/// looked at, which are compared one by one.
pub fn count_orders(
    alloc: Global,
    script: &Script,
    reactor: ReactorKind,
    states: u32,
) -> Result<Option<u64>, NoMemory>
    ensures counted { IfOk result (λ found. IfSome found (HasOrderCount script.now reactor)) }
    ensures none { IfOk result (λ found. IfNone found (HasBeginnings script.now reactor states)) }
{
    match count_states(alloc, script, reactor, states)? {
        Some(count) => Ok(Some(count)),
        None => count_listed(alloc, script, reactor, states),
    }
}
