use crate::calls::{Call, Wanted, complete, make};
use chan_core::{ChanCode, ChanCore};
use std::alloc::Global;
use std::process::Abort;

/// Calls of a channel of some capacity and room, each with what completes by it.
struct Case {
    shows: &'static str,
    capacity: u32,
    room: u32,
    steps: &'static [(Call, &'static [Wanted])],
}

const NOTHING: &[Wanted] = &[];

const ORDER: &[(Call, &[Wanted])] = &[
    (Call::Send(1, 10, None), &[Wanted::Ended(1, ChanCode::Ok)]),
    (Call::Send(2, 20, None), NOTHING),
    (
        Call::Receive(3, None),
        &[Wanted::Got(3, 10), Wanted::Ended(2, ChanCode::Ok)],
    ),
    (Call::Receive(4, None), &[Wanted::Got(4, 20)]),
    (Call::Receive(5, None), NOTHING),
    (Call::Close, &[Wanted::Ended(5, ChanCode::Closed)]),
    (
        Call::Send(6, 1, None),
        &[Wanted::Ended(6, ChanCode::Closed)],
    ),
];

const CASES: &[Case] = &[
    Case {
        shows: "what is buffered can be received from a closed channel",
        capacity: 1,
        room: 4,
        steps: &[
            (Call::Send(1, 10, None), &[Wanted::Ended(1, ChanCode::Ok)]),
            (Call::Send(2, 20, None), NOTHING),
            (Call::Send(3, 30, None), NOTHING),
            (
                Call::Close,
                &[
                    Wanted::Ended(2, ChanCode::Closed),
                    Wanted::Ended(3, ChanCode::Closed),
                ],
            ),
            (Call::Receive(4, None), &[Wanted::Got(4, 10)]),
            (
                Call::Receive(5, None),
                &[Wanted::Ended(5, ChanCode::Closed)],
            ),
            (Call::Close, NOTHING),
        ],
    },
    Case {
        shows: "a channel without a buffer hands values over",
        capacity: 0,
        room: 2,
        steps: &[
            (Call::Receive(1, None), NOTHING),
            (
                Call::Send(2, 7, None),
                &[Wanted::Ended(2, ChanCode::Ok), Wanted::Got(1, 7)],
            ),
            (Call::Send(3, 8, None), NOTHING),
            (
                Call::Receive(4, None),
                &[Wanted::Ended(3, ChanCode::Ok), Wanted::Got(4, 8)],
            ),
        ],
    },
    Case {
        shows: "a number comes again once its operation has completed",
        capacity: 1,
        room: 2,
        steps: &[
            (Call::Send(1, 10, None), &[Wanted::Ended(1, ChanCode::Ok)]),
            (Call::Send(1, 20, None), NOTHING),
            (
                Call::Receive(2, None),
                &[Wanted::Got(2, 10), Wanted::Ended(1, ChanCode::Ok)],
            ),
            (Call::Receive(2, None), &[Wanted::Got(2, 20)]),
            (Call::Receive(2, None), NOTHING),
            (Call::Cancel, &[Wanted::Ended(2, ChanCode::Cancelled)]),
            (Call::Send(2, 30, None), &[Wanted::Ended(2, ChanCode::Ok)]),
        ],
    },
    Case {
        shows: "a full room is freed by a cancel, a deadline and a closing",
        capacity: 0,
        room: 2,
        steps: &[
            (Call::Send(1, 10, None), NOTHING),
            (Call::Send(2, 20, Some(6)), NOTHING),
            (
                Call::Cancel,
                &[
                    Wanted::Ended(1, ChanCode::Cancelled),
                    Wanted::Ended(2, ChanCode::Cancelled),
                ],
            ),
            (Call::Receive(1, Some(5)), NOTHING),
            (Call::Receive(2, Some(6)), NOTHING),
            (Call::Lapse(4), NOTHING),
            (Call::Lapse(6), &[Wanted::Ended(2, ChanCode::Cancelled)]),
            (Call::Receive(2, None), NOTHING),
            (
                Call::Close,
                &[
                    Wanted::Ended(1, ChanCode::Closed),
                    Wanted::Ended(2, ChanCode::Closed),
                ],
            ),
        ],
    },
    Case {
        shows: "a deadline cancels the operations that have it, in order",
        capacity: 0,
        room: 4,
        steps: &[
            (Call::Send(1, 10, Some(5)), NOTHING),
            (Call::Send(2, 20, Some(6)), NOTHING),
            (Call::Send(3, 30, Some(5)), NOTHING),
            (
                Call::Lapse(5),
                &[
                    Wanted::Ended(1, ChanCode::Cancelled),
                    Wanted::Ended(3, ChanCode::Cancelled),
                ],
            ),
            (
                Call::Receive(4, None),
                &[Wanted::Ended(2, ChanCode::Ok), Wanted::Got(4, 20)],
            ),
        ],
    },
];

/// Each step's completions are those that are wanted.
fn play(rt: &impl Abort, alloc: Global, capacity: u32, room: u32, steps: &[(Call, &[Wanted])]) {
    assert!(rt; capacity <= 4096);
    assert!(rt; room >= 1);
    assert!(rt; room <= 4096);
    let mut chan = ChanCore::make(alloc, capacity, room).expect(rt, "memory");
    complete(rt, &mut chan, NOTHING);
    for &(call, wanted) in steps {
        make(rt, &mut chan, call);
        complete(rt, &mut chan, wanted);
    }
}

#[test]
fn values_go_in_the_order_of_their_sends(rt: HostRuntime) {
    play(&rt, rt.alloc(), 1, 4, ORDER);
}

#[test]
fn operations_end_as_their_channel_says(rt: HostRuntime) {
    for case in CASES {
        play(&rt, rt.alloc(), case.capacity, case.room, case.steps);
    }
}
