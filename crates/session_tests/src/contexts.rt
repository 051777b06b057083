//! What no clause can say of a context: its `run`, and the rounds of a session, have executed the
//! handlers before the context is finished, which would execute what is left.

ghost use Rattle.std.specs.Prelude.{◌≡◌, false, length};
ghost use Rattle.op_handlers.specs.Rack.{IsWholeRack, handlers_in};
ghost use Rattle.session_script.specs.Limits.{most_acts};
ghost use Rattle.session_run.specs.RackMarks.{drop_mark, rack_run_mark};

use crate::counting::{Counting, Executions, counting_rack};
use crate::threads::run_on_threads;
use book_context::{BookContext, Session};
use op_handlers::{CompletionHandler, Rack};
use reactor_trait::{Reactor, SilentReactor};
use session_run::run_rounds;
use session_script::{Script, read_script};
use std::alloc::Global;
use std::marker::Brand;
use std::process::Abort;
use std::sync::Wait;
use std::thread::Threads;

/// By what a context is run.
#[derive(Clone, Copy)]
enum By {
    /// One call of `run`.
    OneCall,
    /// A call of `run` on each of two threads.
    TwoThreads,
    /// The rounds of its script.
    Rounds,
}

/// Runs a context. What is promised of the calls stays here.
fn run_by<
    'a,
    R: Threads + Wait + Sync,
    X: Reactor + Send,
    H: CompletionHandler + Send,
    N: Session + Send + Sync,
>(rt: &R, script: &Script, context: &mut BookContext<'a, X, H, N>, by: By) {
    match by {
        By::OneCall => context.run(rt),
        By::TwoThreads => run_on_threads(rt, context, &mut [0, 0]),
        By::Rounds => run_rounds(rt, script, context),
    }
}

/// How many handlers were executed when a context had been run, before it was finished; none where
/// there is no context.
fn executed_before_the_end<
    N: Session + Send + Sync,
    R: Threads + Wait + Sync,
    H: CompletionHandler + Send,
>(
    rt: &R,
    alloc: Global,
    script: &Script,
    rack: &mut Rack<H>,
    executions: &Executions,
    by: By,
) -> u64
    requires named { N.script ≡ script.now }
    requires told { N.told ≡ false }
    requires faults { N.faults ≡ 0 }
    requires run_marks { N.run ≡ rack_run_mark H.marks rack.old }
    requires drop_marks { N.drop ≡ drop_mark H.marks rack.old }
    requires whole { IsWholeRack rack.old }
    requires count { length (handlers_in rack.old) ≡ most_acts }
{
    // The rack has a number for each act.
    prove!(script.acts() <= rack.count());
    let reactor = SilentReactor::empty(alloc);
    let made = BookContext::<SilentReactor, H, N>::make(alloc, script, rack, reactor);
    let Ok(mut context) = made else {
        return 0;
    };
    run_by(rt, script, &mut context, by);
    let executed = executions.count();
    let _ = context.finish(rt);
    executed
}

/// So many handlers of a script are executed before its context is finished.
fn executes<R: Abort + Threads + Wait + Sync>(
    rt: &R,
    alloc: Global,
    text: &str,
    by: By,
    want: u64,
) {
    let script = read_script(alloc, text.as_bytes()).expect(rt, "a script");
    let executions = Executions::none();
    let mut rack = counting_rack(rt, alloc, &executions);
    let executed = executed_before_the_end::<Brand, R, Counting>(
        rt,
        alloc,
        &script,
        &mut rack,
        &executions,
        by,
    );
    rack.discard_all();
    assert_eq!(rt; executed, want, "{text}");
}

#[test]
fn run_has_executed_the_handlers_when_it_is_back(rt: HostRuntime) {
    for &(text, want) in ONE_ROUND {
        executes(&rt, rt.alloc(), text, By::OneCall, want);
        executes(&rt, rt.alloc(), text, By::TwoThreads, want);
    }
}

/// Scripts of one round with the number of their handlers that run in it.
const ONE_ROUND: &[(&str, u64)] = &[
    ("session 1 open { } run 1", 0),
    (
        "session 1 open { post - { } post - { post - { } } } run 1",
        3,
    ),
    (
        "session 1 strands 1 timers 1 open { post 0 { dispatch 0 { } } expires 0 5 wait 0 - - { } } run 2",
        3,
    ),
    ("session 1 open { post - { } stop } run 1", 0),
    (
        "session 1 timers 1 open { post - { } wait 0 - - { } } poll 1",
        2,
    ),
];

#[test]
fn the_rounds_have_executed_the_handlers_when_they_are_over(rt: HostRuntime) {
    for &(text, want) in ROUNDS {
        executes(&rt, rt.alloc(), text, By::Rounds, want);
    }
}

/// Scripts with the number of their handlers that run in their rounds: a round out of its order,
/// one left out and one without its restart each leave some to the end.
const ROUNDS: &[(&str, u64)] = &[
    ("session 1 open { post - { } post - { } } run 1", 2),
    (
        "session 1 strands 1 open { post 0 { } post 0 { } } run 16",
        2,
    ),
    (
        "session 1 strands 1 open { post 0 { stop } post 0 { } } run 1",
        1,
    ),
    (
        "session 1 strands 1 open { post 0 { stop } post 0 { } } run 1 restart run 1",
        2,
    ),
    (
        "session 1 timers 1 open { expires 0 5 wait 0 - - { } } poll 1 run 2",
        1,
    ),
    (
        "session 1 strands 1 timers 1 open { post 0 { stop } post 0 { stop } expires 0 5 wait 0 0 - { } } run 2 restart poll 1 restart run 1",
        3,
    ),
];
