ghost use Rattle.std.specs.Prelude.{◌≡◌, []};
ghost use Rattle.proactor_core.specs.Proactor.{IsSound};
ghost use Rattle.chan_core.specs.Channel.{new_channel};

use asio_types::{ActNo, Code, Point};
use chan_core::{ChanCode, ChanCore, ChanDone, TimedChan, TimedDone};
use proactor_core::Proactor;
use reactor_script::ScriptReactor;
use reactor_trait::Reactor;
use session_script::{Script, read_script};
use std::alloc::Global;
use std::process::Abort;

/// A turn of the proactor: a request that is taken, or time that moves to this point.
#[derive(Clone, Copy)]
enum Turn {
    Take(ActNo),
    Tick(u64),
}

/// The turns of a script, each with what is told then.
struct Case {
    shows: &'static str,
    script: &'static str,
    turns: &'static [(Turn, &'static [TimedDone])],
}

const NOTHING: &[TimedDone] = &[];

const LAPSE: Case = Case {
    shows: "a wait that completes cancels the operations whose deadline it is",
    script: "session 2 timers 1 open { expires 0 5 wait 0 - - { } } run 1",
    turns: &[
        (Turn::Take(0), NOTHING),
        (Turn::Take(1), NOTHING),
        (
            Turn::Tick(5),
            &[
                TimedDone::Io(1, Code::Ok, 0),
                TimedDone::Chan(ChanDone {
                    op: 7,
                    code: ChanCode::Cancelled,
                    value: None,
                }),
            ],
        ),
    ],
};

const ABORT: Case = Case {
    shows: "a wait that is cancelled is no deadline",
    script: "session 2 timers 1 open { expires 0 5 wait 0 - - { } cancel 0 } run 1",
    turns: &[
        (Turn::Take(0), NOTHING),
        (Turn::Take(1), NOTHING),
        (Turn::Take(2), &[TimedDone::Io(1, Code::Aborted, 0)]),
    ],
};

/// Exactly these are told, in this order.
fn complete<X: Reactor>(rt: &impl Abort, timed: &mut TimedChan<'_, X>, wanted: &[TimedDone])
    requires { IsSound X.state X.told timed.old.proactor }
    ensures sound { IsSound X.state X.told timed.new.proactor }
    ensures nothing_due { timed.new.proactor.tables.due.coming ≡ [] }
    ensures chan_told { timed.new.chan.due ≡ [] }
    ensures script { timed.new.proactor.script ≡ timed.old.proactor.script }
{
    for done in wanted {
        assert!(rt; timed.next() == Some(*done));
    }
    let last = timed.next();
    assert!(rt; last.is_none());
}

/// Makes a turn.
fn make<X: Reactor>(rt: &impl Abort, timed: &mut TimedChan<'_, X>, script: &Script, turn: Turn)
    requires sound { IsSound X.state X.told timed.old.proactor }
    requires nothing_due { timed.old.proactor.tables.due.coming ≡ [] }
    requires chan_told { timed.old.chan.due ≡ [] }
    requires script { timed.old.proactor.script ≡ script.now }
    ensures sound { IsSound X.state X.told timed.new.proactor }
    ensures script { timed.new.proactor.script ≡ script.now }
{
    match turn {
        Turn::Take(a) => {
            assert!(rt; a < script.acts());
            assert!(rt; !timed.was_taken(a));
            timed.take(a).expect(rt, "a reactor that works");
        }
        Turn::Tick(now) => {
            let point = timed.tick().expect(rt, "a reactor that works");
            assert!(rt; point == Point::Time(now));
        }
    }
}

/// A channel without a buffer, in which a send is pending whose deadline is the wait with number 1,
/// beside a proactor of the script.
fn started<'a, X: Reactor>(
    rt: &impl Abort,
    alloc: Global,
    script: &'a Script,
    reactor: X,
) -> TimedChan<'a, X>
    ensures sound { IsSound X.state X.told result.proactor }
    ensures nothing_due { result.proactor.tables.due.coming ≡ [] }
    ensures chan_told { result.chan.due ≡ [] }
    ensures script { result.proactor.script ≡ script.now }
{
    let Ok(proactor) = Proactor::start(alloc, script, reactor) else {
        panic!(rt; "a proactor starts")
    };
    let mut chan = ChanCore::make(alloc, 0, 1).expect(rt, "memory");
    chan.send(7, 10, Some(1));
    TimedChan::of(chan, proactor)
}

/// Makes all turns, one after another.
fn make_turns<X: Reactor>(
    rt: &impl Abort,
    timed: &mut TimedChan<'_, X>,
    script: &Script,
    turns: &[(Turn, &[TimedDone])],
)
    requires sound { IsSound X.state X.told timed.old.proactor }
    requires nothing_due { timed.old.proactor.tables.due.coming ≡ [] }
    requires chan_told { timed.old.chan.due ≡ [] }
    requires script { timed.old.proactor.script ≡ script.now }
{
    for &(turn, wanted) in turns {
        make(rt, timed, script, turn);
        complete(rt, timed, wanted);
    }
}

fn play(rt: &impl Abort, alloc: Global, case: &Case) {
    let script = read_script(alloc, case.script.as_bytes()).expect(rt, case.shows);
    let reactor = ScriptReactor::make(alloc, &[]).expect(rt, "memory");
    let mut timed = started(rt, alloc, &script, reactor);
    make_turns(rt, &mut timed, &script, case.turns);
}

#[test]
fn a_wait_that_completes_is_a_deadline(rt: HostRuntime) {
    play(&rt, rt.alloc(), &LAPSE);
}

#[test]
fn a_wait_that_is_cancelled_is_no_deadline(rt: HostRuntime) {
    play(&rt, rt.alloc(), &ABORT);
}
