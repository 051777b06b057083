ghost use Rattle.std.specs.Prelude.{IfOk};
ghost use Rattle.run_overlaps.specs.Guarding.{lists_locked};

use crate::common::Common;
use crate::guards::{Guards, is_exempt};
use crate::holds::Holds;
use crate::watch::{Calls, Watch};
use run_joins::Joined;
use run_lines::{Doing, Line};
use run_orders::Guard;
use run_rules::Frame;
use std::alloc::{AllocError, Global};
use std::collections::HashMap;

/// What the claims of a thing have in common.
#[derive(Clone, Copy, Debug, PartialEq, Eq)]
struct Seen {
    strand: Common,
    lock: Common,
    thread: Common,
}

const NOTHING: Seen = Seen {
    strand: Common::Unseen,
    lock: Common::Unseen,
    thread: Common::Unseen,
};

/// Which threads execute the handlers of contexts.
#[derive(Drop)]
struct Workers {
    calls: Calls,
    by_context: HashMap<u64, Common>,
    contexts: Vec<u64>,
}

impl Workers {
    fn see(&mut self, context: u64, thread: u64) -> Result<(), AllocError> {
        match self.by_context.get(&context).copied() {
            Some(known) => {
                self.by_context.insert(context, known.with(Some(thread)))?;
            }
            None => {
                self.by_context
                    .insert(context, Common::Unseen.with(Some(thread)))?;
                self.contexts.push(context)?;
            }
        }
        Ok(())
    }

    fn follow(&mut self, line: &Line) -> Result<(), AllocError> {
        self.calls.follow(&line.does)?;
        match line.does {
            Doing::Work { context } => self.see(context, line.thread),
            Doing::Begin { op, .. } => match self.calls.of(op) {
                Some(called) => self.see(called.context, line.thread),
                None => Ok(()),
            },
            _ => Ok(()),
        }
    }
}

/// Which threads execute the handlers of each context.
fn workers_of(alloc: Global, lines: &[Line]) -> Result<Workers, AllocError> {
    let mut workers = Workers {
        calls: Calls::new(alloc),
        by_context: HashMap::new(alloc),
        contexts: Vec::new(alloc),
    };
    for line in lines {
        workers.follow(line)?;
    }
    Ok(workers)
}

/// Keeps the contexts whose handlers one thread executes.
fn put_workers(guards: &mut Guards, workers: &Workers) -> Result<(), AllocError>
    ensures { IfOk result (λ _. lists_locked guards.old → lists_locked guards.new) }
{
    for context in &workers.contexts {
        if let Some(Common::One { number }) = workers.by_context.get(context).copied() {
            guards.put_worker(*context, number)?;
        }
    }
    Ok(())
}

/// The things of a run, and what their claims have in common.
#[derive(Drop)]
struct Claims {
    by_thing: HashMap<u64, Seen>,
    things: Vec<u64>,
    locks: Holds,
}

impl Claims {
    fn put(&mut self, thing: u64, seen: Seen) -> Result<(), AllocError> {
        if !self.by_thing.contains_key(&thing) {
            self.things.push(thing)?;
        }
        self.by_thing.insert(thing, seen)?;
        Ok(())
    }

    fn of(&self, thing: u64) -> Seen {
        match self.by_thing.get(&thing) {
            Some(seen) => *seen,
            None => NOTHING,
        }
    }

    /// A claim of a thing.
    fn see(
        &mut self,
        guards: &Guards,
        watch: &Watch,
        by: u64,
        thing: u64,
    ) -> Result<(), AllocError> {
        let known = self.of(thing);
        let (strand, thread) = match watch.frame(by) {
            Frame::Outside { .. } => (None, Some(by)),
            Frame::Execution { op } => match watch.called(op) {
                Some(called) => (called.strand, guards.worker(called.context)),
                None => (None, None),
            },
        };
        let seen = Seen {
            strand: known.strand.with(strand),
            lock: known.lock.with(self.locks.last(by)),
            thread: known.thread.with(thread),
        };
        self.put(thing, seen)
    }

    fn follow(
        &mut self,
        guards: &Guards,
        joins: &Option<Joined>,
        watch: &Watch,
        line: &Line,
    ) -> Result<(), AllocError> {
        match line.does {
            // (what was claimed before a join needs no guard behind it)
            Doing::Claim { thing }
                if self.by_thing.contains_key(&thing)
                    && is_exempt(joins, watch, line.thread, thing) => { Ok(()) }
            Doing::Claim { thing } => self.see(guards, watch, line.thread, thing),
            Doing::Lock { lock } => self.locks.put(line.thread, lock),
            Doing::Unlock { lock } => {
                self.locks.give(line.thread, lock);
                Ok(())
            }
            _ => Ok(()),
        }
    }
}

/// What may guard a thing, of which this was seen.
fn guard_by(seen: Seen) -> Option<Guard> {
    match (seen.strand.one(), seen.thread.one(), seen.lock.one()) {
        (Some(strand), _, _) => Some(Guard::Strand { strand }),
        (None, Some(thread), _) => Some(Guard::Thread { thread }),
        (None, None, Some(lock)) => Some(Guard::Lock { lock }),
        (None, None, None) => None,
    }
}

/// Follows these lines, as far as they may come.
fn follow_all(
    claims: &mut Claims,
    guards: &Guards,
    joins: &Option<Joined>,
    watch: &mut Watch,
    lines: &[Line],
) -> Result<(), AllocError> {
    for line in lines {
        claims.follow(guards, joins, watch, line)?;
        let Ok(()) = watch.follow(line) else {
            break;
        };
    }
    Ok(())
}

/// What the claims of each thing have in common.
fn claims_of(
    alloc: Global,
    guards: &Guards,
    joins: &Option<Joined>,
    lines: &[Line],
) -> Result<Claims, AllocError> {
    let mut claims = Claims {
        by_thing: HashMap::new(alloc),
        things: Vec::new(alloc),
        locks: Holds::new(alloc),
    };
    let mut watch = Watch::new(alloc);
    follow_all(&mut claims, guards, joins, &mut watch, lines)?;
    Ok(claims)
}

/// Keeps what may guard things.
fn put_guards(guards: &mut Guards, claims: &Claims) -> Result<(), AllocError>
    ensures { IfOk result (λ _. lists_locked guards.old → lists_locked guards.new) }
{
    for thing in &claims.things {
        if let Some(guard) = guard_by(claims.of(*thing)) {
            guards.put(*thing, guard)?;
        }
    }
    Ok(())
}

/// What seems to guard the things of a run. Whether it does has to be seen.
pub(crate) fn guess(
    alloc: Global,
    joins: &Option<Joined>,
    lines: &[Line],
) -> Result<Guards, AllocError>
    ensures { IfOk result (λ guards. lists_locked guards) }
{
    let mut guards = Guards::new(alloc);
    let workers = workers_of(alloc, lines)?;
    put_workers(&mut guards, &workers)?;
    let claims = claims_of(alloc, &guards, joins, lines)?;
    put_guards(&mut guards, &claims)?;
    Ok(guards)
}
