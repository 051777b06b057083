//! Logs that were written by hand, put together: each is one legal history of its script.

use crate::drawing::{Draws, logs_of};
use crate::wanted::{MEMORY, has_trace, is_legal};
use asio_types::{Code, Event};
use history_book::History;
use history_merge::{HistoryRoom, put_together};
use session_script::read_script;
use std::alloc::Global;
use std::process::Abort;

/// A script, how many seats draw, what they draw, the drops, and the trace of all.
type Row = (&'static str, u8, Draws, &'static [Event], &'static str);

/// The logs of these draws, put together with these drops.
fn merge<R: Abort>(
    rt: &R,
    alloc: Global,
    seats: u8,
    draws: &[(u8, Event)],
    drops: &[Event],
) -> History {
    assert!(rt; draws.len() <= 32);
    assert!(rt; drops.len() <= 32);
    let (logs, count) = logs_of(rt, alloc, seats, draws);
    let room = HistoryRoom::with_room(alloc, 64).expect(rt, MEMORY);
    put_together(logs.as_slice(), drops, count, room)
}

/// The logs of a row are put together into its history, which is legal; and room for the histories of
/// its script is there.
fn merges<R: Abort>(rt: &R, alloc: Global, row: &Row) {
    let (text, seats, draws, drops, trace) = *row;
    let history = merge(rt, alloc, seats, draws, drops);
    has_trace(rt, alloc, &history, trace, text);
    let script = read_script(alloc, text.as_bytes()).expect(rt, "a script");
    is_legal(rt, alloc, &script, history.events(), text);
    let _room = HistoryRoom::make(alloc, &script).expect(rt, MEMORY);
}

#[test]
fn logs_become_one_legal_history(rt: HostRuntime) {
    for row in ROWS {
        merges(&rt, rt.alloc(), row);
    }
}

// Of the seats these have the numbers: the strands first, then the reactor's lane, five workers, and
// the opener.
const ROWS: &[Row] = &[
    (
        "session 1 strands 1 open { post 0 { } post 0 { } } run 4",
        8,
        &[
            (7, Event::Call { act: 0 }),
            (7, Event::Back { act: 0 }),
            (7, Event::Call { act: 1 }),
            (7, Event::Back { act: 1 }),
            (
                0,
                Event::Begin {
                    op: 0,
                    code: Code::Ok,
                    size: 0,
                },
            ),
            (0, Event::End { op: 0, mark: 1000 }),
            (
                0,
                Event::Begin {
                    op: 1,
                    code: Code::Ok,
                    size: 0,
                },
            ),
            (0, Event::End { op: 1, mark: 1001 }),
            (7, Event::Ended),
        ],
        &[],
        "call 0\nback 0\ncall 1\nback 1\nbegin 0 ok 0\nend 0 1000\nbegin 1 ok 0\nend 1 1001\nended\n",
    ),
    (
        "session 1 strands 1 open { post 0 { } post 0 { } } run 4",
        8,
        &[
            (7, Event::Call { act: 0 }),
            (7, Event::Back { act: 0 }),
            (7, Event::Call { act: 1 }),
            (7, Event::Back { act: 1 }),
            (2, Event::Stop { act: None }),
            (7, Event::Stopped),
        ],
        &[
            Event::Dropped { op: 0, mark: 1000 },
            Event::Dropped { op: 1, mark: 1001 },
        ],
        "call 0\nback 0\ncall 1\nback 1\nstop -\nstopped\ndrop 0 1000\ndrop 1 1001\n",
    ),
    (
        "session 1 strands 2 open { post 0 { } post 1 { } } run 4",
        9,
        &[
            (8, Event::Call { act: 0 }),
            (8, Event::Back { act: 0 }),
            (8, Event::Call { act: 1 }),
            (8, Event::Back { act: 1 }),
            (
                1,
                Event::Begin {
                    op: 1,
                    code: Code::Ok,
                    size: 0,
                },
            ),
            (
                0,
                Event::Begin {
                    op: 0,
                    code: Code::Ok,
                    size: 0,
                },
            ),
            (1, Event::End { op: 1, mark: 1001 }),
            (0, Event::End { op: 0, mark: 1000 }),
            (8, Event::Ended),
        ],
        &[],
        "call 0\nback 0\ncall 1\nback 1\nbegin 1 ok 0\nbegin 0 ok 0\nend 1 1001\nend 0 1000\nended\n",
    ),
];
