//! How handlers are spent, counted over whole sessions and after each refusal: those of operations that
//! were accepted are called or discarded, and no other one is called.

use crate::counting::{Executions, counting_rack};
use crate::sessions::{BOTH, Call, call_session, is_status, notes_of, words_of};
use crate::wanted::MEMORY;
use asio_types::{SureSink, TextSource};
use reactor_script::{FailAt, Method, ScriptReactor};
use session_run::Status;
use std::alloc::Global;
use std::process::Abort;
use std::sync::Wait;
use std::thread::Threads;

/// The words and the text of a session, the reads that fail, the calls of the reactor that do, its
/// status, and how many handlers it calls and discards.
type Row = (
    &'static str,
    &'static str,
    &'static [u32],
    &'static [FailAt],
    Status,
    (u64, u64),
);

const NESTED: &str = "session 1 open { post - { post - { } } } run 1";

/// The second is never called: a stop comes first. The third isn't even accepted.
const STOPPED: &str = "session 1 strands 1 open { post 0 { stop } post 0 { post - { } } } run 1";

const UNSET: &[FailAt] = &[FailAt {
    method: Method::SetUp,
    nth: 1,
}];

const ROWS: &[Row] = &[
    ("run", NESTED, &[], &[], Status::Done, (2, 4094)),
    ("run", STOPPED, &[], &[], Status::Done, (1, 4095)),
    ("run", NESTED, &[], UNSET, Status::ReactorFault, (0, 4096)),
    ("upgrade", NESTED, &[], &[], Status::Done, (0, 0)),
    ("runs", NESTED, &[], &[], Status::Usage, (0, 0)),
    ("run", "session 3", &[], &[], Status::Refused, (0, 0)),
    ("run", NESTED, &[1], &[], Status::ReadFault, (0, 0)),
];

/// How many handlers a session of either call calls and discards.
fn spent_by<R: Abort + Threads + Wait + Sync>(
    rt: &R,
    alloc: Global,
    call: Call,
    row: Row,
) -> (u64, u64) {
    let (words, text, reads, fails, want, _counts) = row;
    let words = words_of(rt, alloc, words);
    let executions = Executions::none();
    let mut source = TextSource::make(alloc, text.as_bytes(), reads).expect(rt, MEMORY);
    let mut out = SureSink::make(alloc, 1024).expect(rt, MEMORY);
    let mut notes = notes_of(rt, alloc);
    let mut rack = counting_rack(rt, alloc, &executions);
    let (status, _) = call_session(
        rt,
        alloc,
        call,
        words.as_slice(),
        &mut source,
        &mut out,
        &mut notes,
        ScriptReactor::make(alloc, fails).expect(rt, MEMORY),
        &mut rack,
    );
    is_status(rt, status, want, text);
    let spent = (executions.count(), executions.discards());
    rack.discard_all();
    spent
}

#[test]
fn no_handler_is_called_whose_operation_was_not_accepted(rt: HostRuntime) {
    for &call in BOTH {
        for &row in ROWS {
            let spent = spent_by(&rt, rt.alloc(), call, row);
            assert_eq!(rt; spent, row.5, "{}", row.1);
        }
    }
}
