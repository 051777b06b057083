//! Orders of one run. What is expected was worked out by hand from the definition of an order.

use run_lines::{Code, Doing, Entry, Line, Word, read_line};
use run_orders::Step;
use run_witness::{find_witness, judge};
use std::alloc::Global;
use std::test::Fail;

/// Two operations on one strand, of which the first calls a wait that the second cancels. Its handler
/// has no strand.
const RUN: [&str; 18] = [
    "0 call 0 post 0 0 -",
    "0 call 1 post 0 0 -",
    "1 begin 0 ok 0",
    "1 claim 1",
    "1 call 2 wait 0 - 9",
    "1 release 1",
    "1 end 0",
    "2 begin 1 ok 0",
    "2 claim 1",
    "2 cancel 9",
    "2 release 1",
    "2 end 1",
    "1 begin 2 aborted 0",
    "1 lock 3",
    "1 claim 1",
    "1 release 1",
    "1 unlock 3",
    "1 end 2",
];

/// A handler dispatches to a strand that is idle, so that this executes inside it. Another operation of
/// the strand is over by then.
const NESTED: [&str; 13] = [
    "0 call 0 post 0 - -",
    "0 call 1 post 0 0 -",
    "2 begin 1 ok 0",
    "2 end 1",
    "1 begin 0 ok 0",
    "1 call 2 dispatch 0 0 -",
    "1 begin 2 ok 0",
    "1 claim 1",
    "1 release 1",
    "1 end 2",
    "1 claim 1",
    "1 release 1",
    "1 end 0",
];

/// Lines of an order, each as a place of the run and its text, and whether they are an order that ends
/// where the last one overlaps the claim at place 8.
const ORDERS: [(&[(u64, &str)], bool); 7] = [
    (
        &[
            (0, "0 call 0 post 0 0 -"),
            (1, "0 call 1 post 0 0 -"),
            (2, "1 begin 0 ok 0"),
            (3, "1 claim 1"),
            (4, "1 call 2 wait 0 - 9"),
            (5, "1 release 1"),
            (6, "1 end 0"),
            (7, "2 begin 1 ok 0"),
            (8, "2 claim 1"),
            (9, "2 cancel 9"),
            (12, "1 begin 2 aborted 0"),
            (13, "1 lock 3"),
            (14, "1 claim 1"),
        ],
        true,
    ),
    // other numbers
    (
        &[
            (0, "0 call 5 post 0 0 -"),
            (1, "0 call 6 post 0 0 -"),
            (2, "1 begin 5 ok 0"),
            (3, "1 claim 1"),
            (4, "1 call 8 wait 0 - 9"),
            (5, "1 release 1"),
            (6, "1 end 5"),
            (7, "2 begin 6 ok 0"),
            (8, "2 claim 1"),
            (9, "2 cancel 9"),
            (12, "1 begin 8 aborted 0"),
            (13, "1 lock 3"),
            (14, "1 claim 1"),
        ],
        true,
    ),
    // without what aborts the wait
    (
        &[
            (0, "0 call 0 post 0 0 -"),
            (1, "0 call 1 post 0 0 -"),
            (2, "1 begin 0 ok 0"),
            (3, "1 claim 1"),
            (4, "1 call 2 wait 0 - 9"),
            (5, "1 release 1"),
            (6, "1 end 0"),
            (7, "2 begin 1 ok 0"),
            (8, "2 claim 1"),
            (12, "1 begin 2 aborted 0"),
            (13, "1 lock 3"),
            (14, "1 claim 1"),
        ],
        false,
    ),
    // by a thread that executes nothing in the run
    (
        &[
            (0, "0 call 0 post 0 0 -"),
            (1, "0 call 1 post 0 0 -"),
            (2, "1 begin 0 ok 0"),
            (3, "1 claim 1"),
            (4, "1 call 2 wait 0 - 9"),
            (5, "1 release 1"),
            (6, "1 end 0"),
            (7, "2 begin 1 ok 0"),
            (8, "2 claim 1"),
            (9, "2 cancel 9"),
            (12, "3 begin 2 aborted 0"),
            (13, "3 lock 3"),
            (14, "3 claim 1"),
        ],
        false,
    ),
    // by the thread that holds it
    (
        &[
            (0, "0 call 0 post 0 0 -"),
            (1, "0 call 1 post 0 0 -"),
            (2, "1 begin 0 ok 0"),
            (3, "1 claim 1"),
            (4, "1 call 2 wait 0 - 9"),
            (5, "1 release 1"),
            (6, "1 end 0"),
            (7, "1 begin 1 ok 0"),
            (8, "1 claim 1"),
            (9, "1 cancel 9"),
            (10, "1 release 1"),
            (11, "1 end 1"),
            (12, "2 begin 2 aborted 0"),
            (13, "2 lock 3"),
            (14, "2 claim 1"),
        ],
        false,
    ),
    // on the strand at once
    (
        &[
            (0, "0 call 0 post 0 0 -"),
            (1, "0 call 1 post 0 0 -"),
            (7, "2 begin 1 ok 0"),
            (8, "2 claim 1"),
            (2, "1 begin 0 ok 0"),
            (3, "1 claim 1"),
        ],
        false,
    ),
    // the wait begins before its call
    (
        &[(7, "2 begin 1 ok 0"), (8, "2 claim 1"), (14, "1 claim 1")],
        false,
    ),
];

/// What is set apart, lines of an order, and whether they are an order of the nested run that ends where
/// the last one overlaps the claim at place 7.
const APART: [(&[u64], &[(u64, &str)], bool); 4] = [
    // the other operation waits as the dispatch is called
    (
        &[2],
        &[
            (0, "0 call 0 post 0 - -"),
            (1, "0 call 1 post 0 0 -"),
            (4, "1 begin 0 ok 0"),
            (5, "1 call 2 dispatch 0 0 -"),
            (2, "2 begin 1 ok 0"),
            (3, "2 end 1"),
            (6, "2 begin 2 ok 0"),
            (7, "2 claim 1"),
            (10, "1 claim 1"),
        ],
        true,
    ),
    // the strand is idle
    (
        &[2],
        &[
            (0, "0 call 0 post 0 - -"),
            (1, "0 call 1 post 0 0 -"),
            (2, "2 begin 1 ok 0"),
            (3, "2 end 1"),
            (4, "1 begin 0 ok 0"),
            (5, "1 call 2 dispatch 0 0 -"),
            (6, "2 begin 2 ok 0"),
            (7, "2 claim 1"),
            (10, "1 claim 1"),
        ],
        false,
    ),
    // nothing is set apart
    (
        &[],
        &[
            (0, "0 call 0 post 0 - -"),
            (1, "0 call 1 post 0 0 -"),
            (4, "1 begin 0 ok 0"),
            (5, "1 call 2 dispatch 0 0 -"),
            (2, "2 begin 1 ok 0"),
            (3, "2 end 1"),
            (6, "2 begin 2 ok 0"),
            (7, "2 claim 1"),
            (10, "1 claim 1"),
        ],
        false,
    ),
    // what is inside no other is set apart, too
    (
        &[2, 0],
        &[
            (0, "0 call 0 post 0 - -"),
            (1, "0 call 1 post 0 0 -"),
            (4, "1 begin 0 ok 0"),
            (5, "1 call 2 dispatch 0 0 -"),
            (2, "2 begin 1 ok 0"),
            (3, "2 end 1"),
            (6, "2 begin 2 ok 0"),
            (7, "2 claim 1"),
            (10, "1 claim 1"),
        ],
        false,
    ),
];

/// A line by its text.
fn line_of(text: &str) -> Line {
    match read_line(text.as_bytes()) {
        Ok(Entry::Line(line)) => line,
        _ => Line {
            thread: 0,
            does: Doing::Stop { context: 0 },
        },
    }
}

/// The lines of a run.
pub(crate) fn lines_of(alloc: Global, texts: &[&str]) -> Result<Vec<Line>, Fail> {
    // the borrow checker's plan has to be told of the types within
    let _word: Option<Word> = None;
    let _code: Option<Code> = None;
    let _does: Option<Doing> = None;
    let mut run = Vec::new(alloc);
    for text in texts {
        run.push(line_of(text))?;
    }
    Ok(run)
}

/// The lines of an order.
fn steps_of(alloc: Global, order: &[(u64, &str)]) -> Result<Vec<Step>, Fail> {
    let _word: Option<Word> = None;
    let _code: Option<Code> = None;
    let _does: Option<Doing> = None;
    let _line: Option<Line> = None;
    let mut steps = Vec::new(alloc);
    for (place, text) in order {
        steps.push(Step {
            place: *place,
            line: line_of(text),
        })?;
    }
    Ok(steps)
}

/// Whether these lines are an order of a run that overlaps the claim at this place.
fn is_good(
    alloc: Global,
    run: &[&str],
    apart: &[u64],
    order: &[(u64, &str)],
    claim: u64,
) -> Result<bool, Fail> {
    let run = lines_of(alloc, run)?;
    let steps = steps_of(alloc, order)?;
    match steps.as_slice() {
        [before @ .., last] => {
            Ok(judge(alloc, &run, apart, before, last, 1, claim).unwrap_or(false))
        }
        [] => Ok(false),
    }
}

#[test]
fn orders_are_told_from_what_is_none(rt: HostRuntime) -> Result<(), Fail> {
    for (order, good) in &ORDERS {
        assert!(&rt; is_good(rt.alloc(), &RUN, &[], order, 8)? == *good);
    }
    Ok(())
}

#[test]
fn executions_set_apart_find_their_strands_busy(rt: HostRuntime) -> Result<(), Fail> {
    for (apart, order, good) in &APART {
        assert!(&rt; is_good(rt.alloc(), &NESTED, apart, order, 7)? == *good);
    }
    Ok(())
}

/// Whether an overlap of thing 1 is found.
fn is_found(alloc: Global, run: &[&str]) -> Result<bool, Fail> {
    let run = lines_of(alloc, run)?;
    match find_witness(alloc, &run, 1) {
        Ok(found) => Ok(found.is_some()),
        Err(_) => Ok(false),
    }
}

#[test]
fn orders_are_found(rt: HostRuntime) -> Result<(), Fail> {
    assert!(&rt; is_found(rt.alloc(), &RUN)?);
    assert!(&rt; is_found(rt.alloc(), &NESTED)?);
    Ok(())
}
