//! Sessions of tasks, with what they come to.

use crate::sessions::{Wanted, comes_to, comes_to_seen, is_refused};
use asio_types::{Code, Event, SetupFault};
use lane_logs::Receipt;
use op_future::TaskEnd;
use reactor_script::{FailAt, Method};

/// A read that reaches the end of the stream.
const READ: &str =
    "session 1 streams 1 at 1 feed 0 x61626364 at 1 end 0 open { read 0 10 - - { } } run 1";

const READ_EVENTS: &[Event] = &[
    Event::Call { act: 0 },
    Event::Back { act: 0 },
    Event::Take { act: 0 },
    Event::Tick { now: 1 },
    Event::Done {
        op: 0,
        code: Code::Eof,
        size: 4,
    },
    Event::Begin {
        op: 0,
        code: Code::Eof,
        size: 4,
    },
    Event::End { op: 0, mark: 1000 },
    Event::Ended,
];

const READ_RECEIPT: Receipt = Receipt {
    op: 0,
    place: 0,
    code: Code::Eof,
    size: 4,
};

/// Its second operation is posted only where the wait is aborted.
const UNCALLED: &str = "session 1 timers 1 open { wait 0 - - { } abort { post - { } } } run 1";

const UNCALLED_EVENTS: &[Event] = &[
    Event::Call { act: 0 },
    Event::Back { act: 0 },
    Event::Take { act: 0 },
    Event::Done {
        op: 0,
        code: Code::Ok,
        size: 0,
    },
    Event::Begin {
        op: 0,
        code: Code::Ok,
        size: 0,
    },
    Event::End { op: 0, mark: 1000 },
    Event::Ended,
];

/// A handler stops the context before the wait is done.
const STOPPED: &str =
    "session 1 timers 1 open { expires 0 5 wait 0 - - { } post - { stop } } run 1";

const TWO: &str = "session 1 open { post - { } post - { } } run 2";

/// Sessions over a world that doesn't fail.
const ROWS: &[Wanted<'static>] = &[
    Wanted {
        script: READ,
        tasks: &[(&[0], &[READ_RECEIPT], TaskEnd::Done)],
        events: READ_EVENTS,
    },
    Wanted {
        script: READ,
        tasks: &[(&[0, 0], &[READ_RECEIPT, READ_RECEIPT], TaskEnd::Done)],
        events: READ_EVENTS,
    },
    Wanted {
        script: UNCALLED,
        tasks: &[(&[1], &[], TaskEnd::Ended)],
        events: UNCALLED_EVENTS,
    },
    Wanted {
        script: UNCALLED,
        tasks: &[(&[9], &[], TaskEnd::Unfit(9))],
        events: UNCALLED_EVENTS,
    },
    Wanted {
        script: STOPPED,
        tasks: &[(&[1], &[], TaskEnd::Stopped)],
        events: &[],
    },
];

#[test]
fn tasks_get_the_results_and_end_as_the_history_says(rt: HostRuntime) {
    for &row in ROWS {
        comes_to(&rt, rt.alloc(), row, &[]);
    }
}

/// Task 0 gets the receipt of operation 0 while the handler of operation 1 waits for that.
const GATE: Wanted<'static> = Wanted {
    script: TWO,
    tasks: &[
        (
            &[0],
            &[Receipt {
                op: 0,
                place: 0,
                code: Code::Ok,
                size: 0,
            }],
            TaskEnd::Done,
        ),
        (&[], &[], TaskEnd::Done),
    ],
    events: &[],
};

#[test]
fn a_task_gets_its_receipt_while_a_handler_executes(rt: HostRuntime) {
    comes_to_seen(&rt, rt.alloc(), GATE, 1);
}

const FAILED: Wanted<'static> = Wanted {
    script: READ,
    tasks: &[(&[0], &[], TaskEnd::Fault)],
    events: &[
        Event::Call { act: 0 },
        Event::Back { act: 0 },
        Event::Take { act: 0 },
        Event::Fault,
        Event::Dropped { op: 0, mark: 1000 },
    ],
};

#[test]
fn a_failing_reactor_ends_a_task(rt: HostRuntime) {
    let method = Method::Advance;
    comes_to(&rt, rt.alloc(), FAILED, &[FailAt { method, nth: 1 }]);
}

#[test]
fn a_refused_set_up_is_answered(rt: HostRuntime) {
    let method = Method::SetUp;
    let fails = [FailAt { method, nth: 1 }];
    is_refused(&rt, rt.alloc(), FAILED, &fails, SetupFault::Failed);
}
