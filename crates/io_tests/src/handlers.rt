//! Handlers that count what becomes of them.

ghost use Rattle.std.specs.Prelude.{◌≡◌};

use asio_types::Code;
use io_context::{Completion, Full, Handler, Initiator, Lane, Name};
use std::sync::atomic::{AtomicU64, Ordering};
use std::thread;
use std::time::Duration;

/// What became of handlers and of strands' states.
#[derive(Drop)]
pub(crate) struct Counts {
    pub(crate) executed: AtomicU64,
    pub(crate) discarded: AtomicU64,
    pub(crate) refused: AtomicU64,
    pub(crate) retired: AtomicU64,
    /// How many handlers of one strand execute.
    pub(crate) inside: AtomicU64,
    /// The marks of handlers, in the order of their executions.
    pub(crate) order: AtomicU64,
}

impl Counts {
    /// Nothing yet.
    pub(crate) fn new() -> Counts {
        Counts {
            executed: AtomicU64::new(0),
            discarded: AtomicU64::new(0),
            refused: AtomicU64::new(0),
            retired: AtomicU64::new(0),
            inside: AtomicU64::new(0),
            order: AtomicU64::new(0),
        }
    }
}

/// One more of them.
pub(crate) fn count(one: &AtomicU64) {
    one.fetch_add(1, Ordering::SeqCst);
}

/// What a handler does beside counting.
#[derive(Clone, Copy)]
pub(crate) enum Task {
    /// Nothing.
    Nothing,
    /// Waits until so many are executed.
    Meet(u64),
    /// Posts itself so many times, one after another, to this lane.
    Chain(u64, Lane),
    /// Stops the context.
    Stop,
    /// Leaves its mark.
    Mark(u64),
    /// Posts 2 and dispatches 3 to this lane, its own, and then leaves its mark 1.
    Dispatch(Lane),
    /// Leaves this mark where it waited for a timer until that had expired, and five more where it was cancelled.
    Waited(u64),
    /// Cancels what waits on this timer.
    Cancel(Name),
    /// Waits for a word, and then posts so many.
    Initiate(u32),
    /// Makes a timer that expires soon, and waits for it.
    MakeTimer,
    /// Leaves mark 1, sets its timer again and waits for it.
    SetAgain(Name),
    /// Leaves mark 2, destroys its timer and waits for it.
    FreeTimer(Name),
    /// Makes a strand, and posts two that are to be alone there and one that frees it.
    MakeStrand,
    /// Makes a strand and frees it.
    MakeAndFree,
    /// Leaves mark 1, or 9 where another one of its strand executes.
    Alone,
    /// Leaves mark 2, frees its strand and posts to it.
    FreeStrand(Name),
}

/// A handler that counts its execution.
pub(crate) struct Counting<'a> {
    pub(crate) task: Task,
    pub(crate) counts: &'a Counts,
}

/// When a timer expires that a handler sets, in milliseconds after its return.
const SOON: u64 = 5;

/// Looks so often at most for others.
const MOST_LOOKS: u32 = 1_000_000_000;

/// Leaves this mark behind the others.
fn mark(order: &AtomicU64, number: u64) {
    let marks = order.load(Ordering::SeqCst);
    order.store(
        marks.wrapping_mul(10).wrapping_add(number),
        Ordering::SeqCst,
    );
}

/// Waits until there are so many.
pub(crate) fn await_count(one: &AtomicU64, want: u64) {
    for _ in 0..MOST_LOOKS {
        if one.load(Ordering::SeqCst) >= want {
            return;
        }
        thread::yield_now();
    }
}

/// A handler with this task is initiated, or discarded where there is no room for it.
fn initiated<'a>(posted: Result<(), Full<Counting<'a>>>) {
    match posted {
        Ok(()) => {}
        Err(Full(handler)) => {
            handler.discard();
        }
    }
}

impl<'a> Counting<'a> {
    /// Counts its execution, and does its task.
    fn perform(self, code: Code, io: &mut Initiator<Counting<'a>, &'a Counts>)
        ensures grant { io.new.granted ≡ io.old.granted }
        ensures kept { io.new.kept ≡ io.old.kept }
    {
        let Counting { task, counts } = self;
        count(&counts.executed);
        match task {
            Task::Nothing => {}
            Task::Meet(want) => await_count(&counts.executed, want),
            Task::Chain(left, lane) => {
                if left > 0 {
                    let task = Task::Chain(left - 1, lane);
                    initiated(io.post(lane, Counting { task, counts }));
                }
            }
            Task::Stop => {
                io.stop();
            }
            Task::Mark(number) => mark(&counts.order, number),
            Task::Waited(number) => match code {
                Code::Ok => mark(&counts.order, number),
                _ => mark(&counts.order, number.saturating_add(5)),
            },
            Task::Dispatch(lane) => {
                initiated(io.post(
                    lane,
                    Counting {
                        task: Task::Mark(2),
                        counts,
                    },
                ));
                initiated(io.dispatch(
                    lane,
                    Counting {
                        task: Task::Mark(3),
                        counts,
                    },
                ));
                mark(&counts.order, 1);
            }
            Task::Cancel(timer) => {
                io.cancel(timer);
            }
            Task::Initiate(many) => {
                await_count(&counts.order, 1);
                post_so_many(many, counts, io);
            }
            Task::MakeTimer => match io.make_timer() {
                None => {}
                Some(timer) => wait_soon(timer, Task::SetAgain(timer), counts, io),
            },
            Task::SetAgain(timer) => {
                mark(&counts.order, 1);
                wait_soon(timer, Task::FreeTimer(timer), counts, io);
            }
            Task::FreeTimer(timer) => {
                mark(&counts.order, 2);
                io.free_timer(timer);
                let task = Task::Waited(3);
                initiated(io.wait(timer, Lane::Own, Counting { task, counts }));
            }
            Task::MakeStrand => make_strand(counts, io),
            Task::MakeAndFree => match io.make_strand(counts) {
                Ok(strand) => {
                    io.free_strand(strand);
                }
                Err(Full(state)) => count(&state.refused),
            },
            Task::Alone => be_alone(counts),
            Task::FreeStrand(strand) => {
                mark(&counts.order, 2);
                io.free_strand(strand);
                let task = Task::Waited(3);
                initiated(io.post(Lane::Strand(strand), Counting { task, counts }));
            }
        }
    }
}

/// Leaves mark 1, or 9 where another one is here.
fn be_alone(counts: &Counts) {
    let others = counts.inside.fetch_add(1, Ordering::SeqCst);
    for _ in 0..100u32 {
        thread::yield_now();
    }
    mark(&counts.order, if others == 0 { 1 } else { 9 });
    counts.inside.fetch_sub(1, Ordering::SeqCst);
}

/// Makes a strand, and posts two that are to be alone there and one that frees it.
fn make_strand<'a>(counts: &'a Counts, io: &mut Initiator<Counting<'a>, &'a Counts>)
    ensures grant { io.new.granted ≡ io.old.granted }
    ensures kept { io.new.kept ≡ io.old.kept }
{
    match io.make_strand(counts) {
        Ok(strand) => {
            let lane = Lane::Strand(strand);
            let task = Task::Alone;
            initiated(io.post(lane, Counting { task, counts }));
            let task = Task::Alone;
            initiated(io.post(lane, Counting { task, counts }));
            let task = Task::FreeStrand(strand);
            initiated(io.post(lane, Counting { task, counts }));
        }
        Err(Full(state)) => count(&state.refused),
    }
}

/// Sets a timer to expire soon, and waits for it.
fn wait_soon<'a>(
    timer: Name,
    task: Task,
    counts: &'a Counts,
    io: &mut Initiator<Counting<'a>, &'a Counts>,
)
    ensures grant { io.new.granted ≡ io.old.granted }
    ensures kept { io.new.kept ≡ io.old.kept }
{
    io.expires_after(timer, Duration::from_millis(SOON));
    initiated(io.wait(timer, Lane::Own, Counting { task, counts }));
}

/// Posts so many that do nothing.
fn post_so_many<'a>(many: u32, counts: &'a Counts, io: &mut Initiator<Counting<'a>, &'a Counts>)
    ensures grant { io.new.granted ≡ io.old.granted }
    ensures kept { io.new.kept ≡ io.old.kept }
{
    'posts: for _ in 0..many {
        let task = Task::Nothing;
        initiated(io.post(Lane::Own, Counting { task, counts }));
    }
}

impl<'a> Handler for Counting<'a> {
    type State = &'a Counts;

    ghost marks = { λ _. record { run = 1; drop = 0 } };

    ghost may = { λ handler done old new io later. Unit {0} };

    ghost may_free = { λ handler done io later. Unit {0} };

    fn call(
        self,
        done: Completion,
        state: &mut &'a Counts,
        io: &mut Initiator<Counting<'a>, &'a Counts>,
    ) -> u64 {
        let _state = state;
        self.perform(done.code, io);
        1
    }

    fn call_free(self, done: Completion, io: &mut Initiator<Counting<'a>, &'a Counts>) -> u64 {
        self.perform(done.code, io);
        1
    }

    fn discard(self) -> u64 {
        let Counting { task: _, counts } = self;
        count(&counts.discarded);
        0
    }

    fn retire(state: &'a Counts) {
        count(&state.retired);
    }
}
