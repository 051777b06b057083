//! What becomes of groups, over the scripted world and over sockets.

ghost use Rattle.std.specs.Prelude.{◌≡◌, length};
ghost use Rattle.op_handlers.specs.Rack.{IsWholeRack, handlers_in};
ghost use Rattle.session_script.specs.Limits.{most_acts};

use crate::making::MEMORY;
use asio_types::{Code, Line, Lines, Types, What, World, class_of};
use op_future::TaskEnd;
use op_handlers::{Call, CompletionHandler, Rack, Ran};
use parallel_group::{GroupFault, GroupReport, Member, MemberDone, Members, WaitFor, run_group};
use reactor_mio::MioReactor;
use reactor_script::{FailAt, Method, ScriptReactor};
use reactor_trait::Reactor;
use session_script::MOST_ACTS;
use std::alloc::Global;
use std::process::Abort;
use std::sync::Wait;
use std::thread::Threads;

/// A handler that does nothing.
#[derive(Clone, Copy)]
struct Plain;

impl CompletionHandler for Plain {
    ghost marks = { λ _. record { run = λ _. 1; drop = 2 } };

    fn call(self, call: Call) -> Ran {
        Ran {
            mark: 1,
            class: class_of(call.code),
            begun: call.begun,
        }
    }

    fn discard(self) -> u64 {
        2
    }
}

/// A rack for any script.
fn rack_of<R: Abort>(rt: &R, alloc: Global) -> Rack<Plain>
    ensures whole { IsWholeRack result }
    ensures count { length (handlers_in result) ≡ most_acts }
{
    let mut handlers = Vec::with_capacity(alloc, MOST_ACTS as usize).expect(rt, MEMORY);
    for _ in 0..MOST_ACTS {
        handlers.push_reserved(Some(Plain));
    }
    Rack::of(handlers)
}

/// When the only stream's far end sends no more.
type Ends = Option<u64>;

/// A rule, the members, how many workers run them, when the stream ends, and in which order they
/// complete.
type Row = (
    WaitFor,
    &'static [Member],
    u8,
    Ends,
    &'static [(usize, Code, u32)],
);

/// A wait of 5 and a wait of 9.
const TWO: &[Member] = &[Member::Wait { after: 5 }, Member::Wait { after: 9 }];

/// A read of 4 bytes, and a wait of 5.
const MIXED: &[Member] = &[
    Member::Read { stream: 0, size: 4 },
    Member::Wait { after: 5 },
];

/// The later member completes first.
const TURNED: &[Member] = &[Member::Wait { after: 9 }, Member::Wait { after: 5 }];

const ONE: &[Member] = &[Member::Wait { after: 5 }];

/// What is asked of the rules.
const ROWS: &[Row] = &[
    (
        WaitFor::One,
        TWO,
        1,
        None,
        &[(0, Code::Ok, 0), (1, Code::Aborted, 0)],
    ),
    (
        WaitFor::All,
        TWO,
        1,
        None,
        &[(0, Code::Ok, 0), (1, Code::Ok, 0)],
    ),
    (
        WaitFor::OneSuccess,
        MIXED,
        1,
        Some(2),
        &[(0, Code::Eof, 0), (1, Code::Ok, 0)],
    ),
    (
        WaitFor::OneError,
        MIXED,
        1,
        Some(2),
        &[(0, Code::Eof, 0), (1, Code::Aborted, 0)],
    ),
    (
        WaitFor::All,
        TURNED,
        2,
        None,
        &[(1, Code::Ok, 0), (0, Code::Ok, 0)],
    ),
    (
        WaitFor::OneSuccess,
        TURNED,
        4,
        None,
        &[(1, Code::Ok, 0), (0, Code::Aborted, 0)],
    ),
    (WaitFor::All, ONE, 1, None, &[(0, Code::Ok, 0)]),
    (WaitFor::One, ONE, 16, None, &[(0, Code::Ok, 0)]),
    (WaitFor::OneSuccess, ONE, 2, None, &[(0, Code::Ok, 0)]),
    (WaitFor::OneError, ONE, 4, None, &[(0, Code::Ok, 0)]),
];

/// A world of one stream that ends then, or of none.
fn world_of<R: Abort>(rt: &R, alloc: Global, ends: Ends) -> World {
    let mut lines = Vec::new(alloc);
    let Some(time) = ends else {
        return World {
            streams: 0,
            lines: Lines::of(lines),
        };
    };
    lines
        .push(Line {
            time,
            stream: 0,
            what: What::End,
        })
        .expect(rt, MEMORY);
    World {
        streams: 1,
        lines: Lines::of(lines),
    }
}

/// What a group of this row comes to: the order of its members, and how it ended.
fn ran<R: Abort + Threads + Wait + Sync, X: Reactor + Send + Drop>(
    rt: &R,
    alloc: Global,
    row: Row,
    reactor: X,
) -> Result<(Vec<MemberDone>, TaskEnd), GroupFault> {
    let (rule, members, workers, ends, _want) = row;
    let world = world_of(rt, alloc, ends);
    let members = Members::of(Vec::from_slice(alloc, members).expect(rt, MEMORY));
    let types = Types::of(1).unwrap_or(Types::all());
    let rack = rack_of(rt, alloc);
    match run_group(
        rt, alloc, &world, &members, rule, types, workers, rack, reactor,
    ) {
        Ok(report) => {
            let GroupReport {
                history: _history,
                order,
                end,
                reactor: _reactor,
                let_go: _let_go,
            } = report;
            Ok((order, end))
        }
        Err((fault, _reactor)) => Err(fault),
    }
}

/// A member stands where it is wanted.
fn is_member<R: Abort>(rt: &R, done: MemberDone, want: (usize, Code, u32)) {
    let is = done.member == want.0 && done.code == want.1 && done.size == want.2;
    assert!(rt; is, "{done:?} {want:?}");
}

/// A group of this row ends so, and its members completed in this order.
fn ends_so<R: Abort + Threads + Wait + Sync, X: Reactor + Send + Drop>(
    rt: &R,
    alloc: Global,
    row: Row,
    reactor: X,
    want: TaskEnd,
) {
    let (order, end) = ran(rt, alloc, row, reactor).expect(rt, "a group that is run");
    let count = order.len();
    assert_eq!(rt; end, want, "the end of a group");
    assert_eq!(rt; count, row.4.len(), "members in the order");
    for (done, want) in order.iter().zip(row.4) {
        is_member(rt, *done, *want);
    }
}

#[test]
fn groups_complete_by_their_rules(rt: HostRuntime) {
    for &row in ROWS {
        let reactor = ScriptReactor::make(rt.alloc(), &[]).expect(&rt, MEMORY);
        ends_so(&rt, rt.alloc(), row, reactor, TaskEnd::Done);
    }
}

#[test]
fn groups_complete_by_their_rules_over_sockets(rt: HostRuntime) {
    for &row in ROWS {
        ends_so(&rt, rt.alloc(), row, MioReactor::make(rt), TaskEnd::Done);
    }
}

/// Groups over a reactor that fails where the later member would complete: the others before the first
/// that didn't complete are told.
const FAILING: &[Row] = &[
    (WaitFor::All, TWO, 1, None, &[(0, Code::Ok, 0)]),
    (WaitFor::All, TURNED, 1, None, &[]),
];

#[test]
fn members_behind_one_that_did_not_complete_are_not_told(rt: HostRuntime) {
    let method = Method::Advance;
    for &row in FAILING {
        let reactor = ScriptReactor::make(rt.alloc(), &[FailAt { method, nth: 2 }]).expect(
            &rt, MEMORY,
        );
        ends_so(&rt, rt.alloc(), row, reactor, TaskEnd::Fault);
    }
}

#[test]
fn a_group_without_members_is_refused(rt: HostRuntime) {
    let reactor = ScriptReactor::make(rt.alloc(), &[]).expect(&rt, MEMORY);
    let fault = match ran(&rt, rt.alloc(), (WaitFor::All, &[], 1, None, &[]), reactor) {
        Ok(_ran) => None,
        Err(fault) => Some(fault),
    };
    assert_eq!(&rt; fault, Some(GroupFault::Limit), "no members");
}

/// Sixteen waits, of which the first ends first.
const SIXTEEN: &[Member] = &[
    Member::Wait { after: 1 },
    Member::Wait { after: 2 },
    Member::Wait { after: 3 },
    Member::Wait { after: 4 },
    Member::Wait { after: 5 },
    Member::Wait { after: 6 },
    Member::Wait { after: 7 },
    Member::Wait { after: 8 },
    Member::Wait { after: 9 },
    Member::Wait { after: 10 },
    Member::Wait { after: 11 },
    Member::Wait { after: 12 },
    Member::Wait { after: 13 },
    Member::Wait { after: 14 },
    Member::Wait { after: 15 },
    Member::Wait { after: 16 },
];

/// A rule, and how the members behind the first end.
const RULES: &[(WaitFor, Code)] = &[
    (WaitFor::All, Code::Ok),
    (WaitFor::One, Code::Aborted),
    (WaitFor::OneSuccess, Code::Aborted),
    (WaitFor::OneError, Code::Ok),
];

/// All sixteen complete, in order, and all but the first so.
fn are_sixteen<R: Abort + Threads + Wait + Sync>(
    rt: &R,
    alloc: Global,
    rule: WaitFor,
    rest: Code,
    workers: u8,
) {
    let reactor = ScriptReactor::make(alloc, &[]).expect(rt, MEMORY);
    let row = (rule, SIXTEEN, workers, None, ROWS[0].4);
    let (order, end) = ran(rt, alloc, row, reactor).expect(rt, "a group that is run");
    let count = order.len();
    assert_eq!(rt; end, TaskEnd::Done, "the end of a group");
    assert_eq!(rt; count, SIXTEEN.len(), "members in the order");
    for (member, done) in order.iter().enumerate() {
        let code = if member == 0 { Code::Ok } else { rest };
        is_member(rt, *done, (member, code, 0));
    }
}

#[test]
fn sixteen_members_complete_by_each_rule(rt: HostRuntime) {
    for &(rule, rest) in RULES {
        are_sixteen(&rt, rt.alloc(), rule, rest, 1);
        are_sixteen(&rt, rt.alloc(), rule, rest, 4);
    }
}
