//! Which texts are read as a script, and the limits of each version.

use session_script::{MOST_ACTS, MOST_BYTES, ScriptFault, read_script};
use std::alloc::{AllocError, Global};
use std::process::Abort;
use std::test::Fail;

/// The rule, line and token of a refusal; zeros for a script, and 99 without memory.
pub(crate) fn verdict(alloc: Global, text: &[u8]) -> (u8, u32, u32) {
    match read_script(alloc, text) {
        Ok(_) => (0, 0, 0),
        Err(ScriptFault::Refused(refusal)) => (refusal.rule.number(), refusal.line, refusal.token),
        Err(ScriptFault::NoMemory) => (99, 99, 99),
    }
}

const READ: &[(&[u8], (u8, u32, u32))] = &[
    (b"", (4, 1, 1)),
    (b"session 3 open { } run 1", (9, 1, 2)),
    (b"session 1 open {} run 1", (3, 1, 4)),
    (b"session 1 open { jump } run 1", (4, 1, 5)),
    (b"session 1 open { post 0 { } } run 1", (6, 1, 6)),
    (b"session 1 open { } run 01", (5, 1, 7)),
    (b"session 1 open { } run 17", (7, 1, 7)),
    (b"session 1 guards 1 open { } run 1", (8, 1, 10)),
    (b"session 1 open {", (4, 1, 5)),
    // A byte that is no text comes before all tokens.
    (b"\xFF", (1, 1, 1)),
    (b"ses\xFF", (1, 1, 2)),
    (b"ses \xFF", (1, 1, 2)),
    (b"jump\n{} 01\n\x7F", (1, 3, 4)),
    (b"session 1 open { } run 1\x00", (1, 1, 8)),
    // Filters and absolute expiry are of version 2.
    (
        b"session 1 timers 1 open { expiresat 0 5 } run 1",
        (4, 1, 7),
    ),
    (
        b"session 2 timers 1 open { expiresat 0 5 } run 1",
        (0, 0, 0),
    ),
    (
        b"session 1 timers 1 slots 1 open { wait 0 - 0 only 4 { } } run 1",
        (4, 1, 13),
    ),
    (
        b"session 2 timers 1 slots 1 open { wait 0 - 0 only 4 { } } run 1",
        (0, 0, 0),
    ),
    // What is within all limits.
    (b"session 1 strands 0 open { } run 1", (0, 0, 0)),
    (
        b"session 1 strands 16 timers 32 slots 64 streams 16 open { } poll 16",
        (0, 0, 0),
    ),
    (
        b"session 2 strands 64 timers 128 slots 128 streams 64 guards 0 open { } run 16",
        (0, 0, 0),
    ),
    (
        b"session 1 streams 1 at 1099511627775 room 0 65536 at 0 reset 0 open { } run 1",
        (0, 0, 0),
    ),
    (
        b"session 2 streams 1 at 0 room 0 262144 open { read 0 16384 - - { } } run 1",
        (0, 0, 0),
    ),
    (
        b"session 1 streams 1 open { read 0 4096 - - { } readsome 0 1 - - { } abort { } other { } } run 1",
        (0, 0, 0),
    ),
    (
        b"session 1\tguards 1\r\nopen {\npost - { release 0 release 0 } } run 1\n",
        (0, 0, 0),
    ),
];

#[test]
fn reads_or_refuses_at_the_first_fault(rt: HostRuntime) {
    for (text, wanted) in READ {
        assert_eq!(rt; verdict(rt.alloc(), text), *wanted);
    }
}

/// A text of a front, some copies of a part, and a back.
fn repeated(
    alloc: Global,
    front: &str,
    part: &str,
    count: u32,
    back: &str,
) -> Result<Vec<u8>, AllocError> {
    let mut text = Vec::new(alloc);
    text.extend_from_slice(front.as_bytes())?;
    for _ in 0..count {
        text.extend_from_slice(part.as_bytes())?;
    }
    text.extend_from_slice(back.as_bytes())?;
    Ok(text)
}

/// A front, a part that is repeated, how often it may be, a back, and the token of the fault in a
/// text with one more.
type Limited = (&'static str, &'static str, u32, &'static str, u32);

const LIMITED: &[Limited] = &[
    ("session 1 open {", " post - { }", 1_024, " } run 1", 4_101),
    (
        "session 2 open {",
        " post - { }",
        MOST_ACTS,
        " } run 1",
        16_389,
    ),
    (
        "session 1 streams 1",
        " at 1 end 0",
        256,
        " open { } run 1",
        1_029,
    ),
    (
        "session 2 streams 1",
        " at 1 end 0",
        1_024,
        " open { } run 1",
        4_101,
    ),
    ("session 1 open { }", " run 1", 16, "", 38),
    ("session 2 open { }", " run 1", 64, "", 134),
    ("session 1 open { } run 1", " restart poll 9", 15, "", 53),
    (
        "session 1 streams 1 at 1 feed 0 x",
        "0f",
        4_096,
        " open { } run 1",
        9,
    ),
    (
        "session 2 streams 1 at 1 feed 0 x",
        "0f",
        16_384,
        " open { } run 1",
        9,
    ),
    (
        "session 1 streams 1 open { write 0 x",
        "0f",
        4_096,
        " - - { } } run 1",
        9,
    ),
    (
        "session 2 streams 1 open { writesome 0 x",
        "0f",
        16_384,
        " - - { } } run 1",
        9,
    ),
    (
        "session 2 streams 1 open { until 0 x",
        "0f",
        16,
        " 9 - - { } } run 1",
        9,
    ),
];

fn verdict_on(
    alloc: Global,
    front: &str,
    part: &str,
    count: u32,
    back: &str,
) -> Result<(u8, u32, u32), AllocError> {
    let text = repeated(alloc, front, part, count, back)?;
    Ok(verdict(alloc, text.as_slice()))
}

fn is_judged(
    rt: &impl Abort,
    alloc: Global,
    limited: &Limited,
    count: u32,
    wanted: (u8, u32, u32),
) -> Result<(), AllocError> {
    let (front, part, _, back, _) = limited;
    let judged = verdict_on(alloc, front, part, count, back)?;
    assert_eq!(rt; judged, wanted, "{front}");
    Ok(())
}

#[test]
fn accepts_as_many_as_the_limit(rt: HostRuntime) -> Result<(), Fail> {
    let alloc = rt.alloc();
    for limited in LIMITED {
        let (_, _, most, _, token) = limited;
        is_judged(&rt, alloc, limited, *most, (0, 0, 0))?;
        is_judged(&rt, alloc, limited, most.saturating_add(1), (7, 1, *token))?;
    }
    Ok(())
}

#[test]
fn a_text_is_no_longer_than_the_limit(rt: HostRuntime) -> Result<(), Fail> {
    let alloc = rt.alloc();
    for (count, wanted) in [
        (MOST_BYTES as u32, (4, 1, 1)),
        (MOST_BYTES as u32 + 1, (2, 0, 0)),
    ] {
        assert_eq!(rt; verdict_on(alloc, "", " ", count, "")?, wanted);
    }
    Ok(())
}

/// Postings, each in the one before.
fn nested(alloc: Global, depth: u32) -> Result<Vec<u8>, AllocError> {
    let mut text = repeated(alloc, "session 1 open {", " post - {", depth, " }")?;
    text.extend_from_slice(repeated(alloc, "", " }", depth, " run 1")?.as_slice())?;
    Ok(text)
}

#[test]
fn bodies_are_no_deeper_than_the_limit(rt: HostRuntime) -> Result<(), Fail> {
    for (depth, wanted) in [(31, (0, 0, 0)), (32, (7, 1, 100))] {
        let text = nested(rt.alloc(), depth)?;
        assert_eq!(rt; verdict(rt.alloc(), text.as_slice()), wanted);
    }
    Ok(())
}
