//! Calls of workers, one after another in one thread: what each answers, and the history that is left.

use crate::asking::{Answer, Ask};
use crate::handlers::rack_of;
use crate::polled::{Left, Step, Steps, poll_script};
use crate::wanted::{MEMORY, has_trace, is_end, is_legal};
use lane_context::RoundEnd;
use lane_turns::One;
use reactor_script::{FailAt, ScriptReactor};
use session_script::read_script;
use std::alloc::Global;
use std::process::Abort;
use std::sync::Wait;

/// A script of one round, the calls of workers before it is closed, how it ends, and its trace.
pub(crate) type Row = (&'static str, &'static [Step], RoundEnd, &'static str);

/// The calls of a row answer what is wanted, where the reactor fails at some of its calls.
pub(crate) fn polls<R: Abort + Wait>(rt: &R, alloc: Global, row: &Row, fails: &[FailAt]) {
    let (text, steps, end, trace) = *row;
    let script = read_script(alloc, text.as_bytes()).expect(rt, "a script");
    let reactor = ScriptReactor::make(alloc, fails).expect(rt, MEMORY);
    let mut rack = rack_of(rt, alloc, None);
    let steps = Steps {
        all: steps,
        script: text,
    };
    let Left { history, last } = poll_script(rt, alloc, &script, reactor, &mut rack, steps);
    rack.discard_all();
    is_end(rt, last, end, text);
    has_trace(rt, alloc, &history, trace, text);
    is_legal(rt, alloc, &script, history.events(), text);
}

#[test]
fn each_call_answers_what_its_worker_did(rt: HostRuntime) {
    for row in POLLED {
        polls(&rt, rt.alloc(), row, &[]);
    }
}

const POSTS: &str = "session 1 strands 1 open { post 0 { } post 0 { } } run 4";

/// Of the workers number 4 is the caller's own.
const POLLED: &[Row] = &[
    (
        POSTS,
        &[
            (4, Ask::Work, Answer::Work(2)),
            (0, Ask::PollOne, Answer::Came(One::Ran(0, 1000))),
            (1, Ask::PollOne, Answer::Came(One::Ran(1, 1001))),
            (0, Ask::PollOne, Answer::Came(One::Nothing)),
            (4, Ask::Work, Answer::Work(0)),
        ],
        RoundEnd::Ended,
        "call 0 / back 0 / call 1 / back 1 / begin 0 ok 0 / end 0 1000 / begin 1 ok 0 / end 1 1001 / ended / ",
    ),
    (
        POSTS,
        &[
            (0, Ask::Stop, Answer::Stops),
            (0, Ask::PollOne, Answer::Came(One::Stopped)),
            (1, Ask::Stopped, Answer::Stopped(true)),
            (4, Ask::Work, Answer::Work(2)),
        ],
        RoundEnd::Stopped,
        "call 0 / back 0 / call 1 / back 1 / stop - / stopped / drop 0 1000 / drop 1 1001 / ",
    ),
    (
        "session 1 strands 4 timers 4 open { expires 3 74 wait 3 3 - { } } run 4",
        &[
            (4, Ask::PollOne, Answer::Came(One::Turned)),
            (4, Ask::PollOne, Answer::Came(One::Turned)),
            (4, Ask::PollOne, Answer::Came(One::Turned)),
            (4, Ask::PollOne, Answer::Came(One::Ran(1, 1001))),
            (4, Ask::PollOne, Answer::Came(One::Nothing)),
            (4, Ask::PollOne, Answer::Came(One::Nothing)),
        ],
        RoundEnd::Ended,
        "call 0 / back 0 / call 1 / back 1 / take 0 / take 1 / tick 74 / done 1 ok 0 / begin 1 ok 0 / end 1 1001 / ended / ",
    ),
];
