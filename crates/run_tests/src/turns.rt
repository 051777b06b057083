//! A run in which only turns of a strand keep claims apart. What is expected was worked out by hand from
//! what is forced.

use crate::orders::lines_of;
use run_overlaps::find_handed;
use std::alloc::Global;
use std::test::Fail;

/// Operation 2 has no strand. Operation 1 posts it, which is posted behind 0 to the same strand.
const RUN: [&str; 13] = [
    "0 call 0 post 0 0 -",
    "0 call 1 post 0 0 -",
    "1 begin 0 ok 0",
    "1 claim 1",
    "1 release 1",
    "1 end 0",
    "2 begin 1 ok 0",
    "2 call 2 post 0 - -",
    "2 end 1",
    "2 begin 2 ok 0",
    "2 claim 1",
    "2 release 1",
    "2 end 2",
];

/// Whether thing 1 is handed over if this thread posts operation 1.
fn is_handed_over(alloc: Global, poster: u64) -> Result<bool, Fail> {
    let mut run = lines_of(alloc, &RUN)?;
    if let Some(line) = run.get_mut(1) {
        line.thread = poster;
    }
    match find_handed(alloc, &run, &[1]) {
        Ok(handed) => Ok(!handed.is_empty()),
        Err(_) => Ok(false),
    }
}

#[test]
fn a_turn_of_a_strand_keeps_claims_apart(rt: HostRuntime) -> Result<(), Fail> {
    assert!(&rt; is_handed_over(rt.alloc(), 0)?);
    Ok(())
}

#[test]
fn a_posting_that_is_not_placed_keeps_nothing_apart(rt: HostRuntime) -> Result<(), Fail> {
    assert!(&rt; !is_handed_over(rt.alloc(), 3)?);
    Ok(())
}
