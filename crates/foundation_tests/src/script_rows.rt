//! Each place of the grammar with each rule that a token may break there. A front leads to a place:
//! the fault is at the token behind it, marked with `@`, or at the end of the text.

use crate::script_texts::verdict;
use std::alloc::{AllocError, Global};
use std::process::Abort;
use std::test::Fail;

/// Fronts that stand behind the same text.
type Places = (&'static str, &'static [&'static str]);

/// One of each object is declared, and `open` begins.
const OPEN: &str = "session 2 strands 1 timers 1 slots 1 streams 1 guards 1 open { ";

/// Where certain words or a brace are wanted, and no act.
const WORDS: Places = (
    "",
    &[
        "",
        "session 1 ",
        "session 2 strands 1 ",
        "session 1 timers 1 ",
        "session 2 slots 1 ",
        "session 1 streams 1 ",
        "session 2 guards 1 ",
        "session 1 streams 1 at 5 ",
        "session 1 streams 1 at 5 feed 0 x00 ",
        "session 1 streams 1 at 5 end 0 ",
        "session 1 streams 1 at 5 reset 0 ",
        "session 1 streams 1 at 5 room 0 1 ",
        "session 1 open ",
        "session 1 open { } ",
        "session 1 open { } restart ",
        "session 1 open { } run 1 restart ",
    ],
);

/// Where an act, a brace or the word of a branch is wanted.
const BODIES: Places = (
    OPEN,
    &[
        "",
        "stop ",
        "expires 0 5 ",
        "release 0 ",
        "post - ",
        "post - { ",
        "post - { } ",
        "defer - ",
        "dispatch - ",
        "wait 0 - - ",
        "wait 0 - 0 ",
        "wait 0 - 0 only 4 ",
        "wait 0 - - { ",
        "wait 0 - - { } ",
        "wait 0 - - { } abort ",
        "wait 0 - - { } abort { ",
        "wait 0 - - { } abort { } ",
        "wait 0 - - { } other ",
        "wait 0 - - { } other { ",
        "wait 0 - - { } other { } ",
        "readsome 0 1 - - ",
        "read 0 1 - - ",
        "until 0 x00 1 - - ",
        "writesome 0 x00 - - ",
        "write 0 x00 - - ",
    ],
);

/// Where the number of a stream is wanted in a line.
const STREAMS: Places = (
    "session 1 streams 1 at 5 ",
    &["feed ", "end ", "reset ", "room "],
);

/// Where the number of an object is wanted in an act.
const OBJECTS: Places = (
    OPEN,
    &[
        "expires ",
        "expiresat ",
        "wait ",
        "cancel ",
        "cancelone ",
        "emit ",
        "readsome ",
        "read ",
        "until ",
        "writesome ",
        "write ",
        "close ",
        "release ",
    ],
);

/// Where a strand or a slot is wanted, or none.
const OPTIONS: Places = (
    OPEN,
    &[
        "post ",
        "defer ",
        "dispatch ",
        "wait 0 ",
        "wait 0 - ",
        "readsome 0 1 ",
        "readsome 0 1 - ",
        "read 0 1 ",
        "read 0 1 0 ",
        "until 0 x00 1 ",
        "until 0 x00 1 - ",
        "writesome 0 x00 ",
        "writesome 0 x00 0 ",
        "write 0 x00 ",
        "write 0 x00 - ",
    ],
);

/// Where a number within limits is wanted, and no act.
const NUMBERS: Places = (
    "",
    &[
        "session ",
        "session 1 strands ",
        "session 2 timers ",
        "session 1 slots ",
        "session 2 streams ",
        "session 1 guards ",
        "session 1 at ",
        "session 1 streams 1 at 5 room 0 ",
        "session 1 open { } run ",
        "session 1 open { } poll ",
        "session 1 open { } run 1 restart run ",
    ],
);

/// Where a number within limits is wanted in an act.
const SIZES: Places = (
    OPEN,
    &[
        "expires 0 ",
        "expiresat 0 ",
        "emit 0 ",
        "readsome 0 ",
        "read 0 ",
        "until 0 x00 ",
        "wait 0 - 0 only ",
        "readsome 0 1 - 0 only ",
        "read 0 1 - 0 only ",
        "until 0 x00 1 - 0 only ",
        "writesome 0 x00 - 0 only ",
        "write 0 x00 - 0 only ",
    ],
);

/// Where bytes are wanted.
const BYTES: Places = (
    "session 1 streams 1 ",
    &[
        "open { until 0 ",
        "open { writesome 0 ",
        "open { write 0 ",
        "at 5 feed 0 ",
    ],
);

/// The text without its mark `@`, and the line and the number of the token behind the mark, or else
/// of the end.
fn unmarked(alloc: Global, front: &str, marked: &str) -> Result<(Vec<u8>, u32, u32), AllocError> {
    let mut text = Vec::new(alloc);
    let mut line: u32 = 1;
    let mut token: u32 = 1;
    let mut found = false;
    let mut inside = false;
    for byte in front.as_bytes().iter().chain(marked.as_bytes().iter()) {
        if *byte == b'@' {
            found = true;
            continue;
        }
        text.push(*byte)?;
        if !found {
            token = token.saturating_add((inside && *byte <= b' ') as u32);
            line = line.saturating_add((*byte == b'\n') as u32);
            inside = *byte > b' ';
        }
    }
    Ok((text, line, token.saturating_add((inside && !found) as u32)))
}

/// Each text behind the front is refused by this rule, at its mark or at its end.
fn refuses_all(
    rt: &impl Abort,
    alloc: Global,
    rule: u8,
    front: &str,
    texts: &[&str],
) -> Result<(), Fail> {
    for marked in texts {
        let (text, line, token) = unmarked(alloc, front, marked)?;
        assert_eq!(rt;
            verdict(alloc, text.as_slice()),
            (rule, line, token),
            "{marked}"
        );
    }
    Ok(())
}

/// Each token breaks this rule at each of these places.
type Broken = (u8, &'static [Places], &'static [&'static str]);

const BROKEN: &[Broken] = &[
    // The text ends early.
    (
        4,
        &[
            WORDS, BODIES, STREAMS, OBJECTS, OPTIONS, NUMBERS, SIZES, BYTES,
        ],
        &["", "\n"],
    ),
    // Tokens of no kind.
    (
        3,
        &[
            WORDS, BODIES, STREAMS, OBJECTS, OPTIONS, NUMBERS, SIZES, BYTES,
        ],
        &["@run1", "@x0A", "@{}", "@1,000", "@01x", "@--"],
    ),
    // Another word, or no word.
    (4, &[WORDS, BODIES], &["@jump", "@5", "@-", "@x00"]),
    // No number.
    (
        4,
        &[STREAMS, OBJECTS, OPTIONS, NUMBERS, SIZES],
        &["@open", "@{", "@}", "@x00"],
    ),
    // No bytes.
    (4, &[BYTES], &["@open", "@-", "@5", "@xabc", "@x"]),
    (
        5,
        &[STREAMS, OBJECTS, OPTIONS, NUMBERS, SIZES],
        &[
            "@01",
            "@00",
            "@18446744073709551616",
            "@99999999999999999999",
        ],
    ),
    // None of these is declared.
    (
        6,
        &[STREAMS, OBJECTS, OPTIONS],
        &["@1", "@2", "@256", "@18446744073709551615"],
    ),
];

/// Each of these tokens is refused by this rule behind each of these fronts.
fn refuses_at_all(
    rt: &impl Abort,
    alloc: Global,
    rule: u8,
    kind: &Places,
    tokens: &[&str],
) -> Result<(), Fail> {
    let (before, places) = kind;
    for place in *places {
        let front = format!(in alloc; "{before}{place}")?;
        refuses_all(rt, alloc, rule, front.as_str(), tokens)?;
    }
    Ok(())
}

fn are_broken(rt: &impl Abort, alloc: Global, rows: &[Broken]) -> Result<(), Fail> {
    for (rule, kinds, tokens) in rows {
        for kind in *kinds {
            refuses_at_all(rt, alloc, *rule, kind, tokens)?;
        }
    }
    Ok(())
}

#[test]
fn each_token_is_refused_where_it_breaks_a_rule(rt: HostRuntime) -> Result<(), Fail> {
    are_broken(&rt, rt.alloc(), BROKEN)
}

/// Behind this front each of these texts breaks this rule.
type Refused = (u8, &'static str, &'static [&'static str]);

const REFUSED: &[Refused] = &[
    (
        6,
        "session ",
        &[
            "1 at 1 end @0",
            "2 streams 3 at 1 feed @3 x00",
            "1 open { post @0 { }",
            "1 strands 2 open { dispatch @2",
            "1 open { cancel @0",
            "1 open { release @0",
        ],
    ),
    // What belongs to version 2 alone.
    (
        4,
        "session ",
        &[
            "1 timers 1 open { @expiresat 0 5",
            "1 timers 1 slots 1 open { wait 0 - 0 @only 4 { }",
            "2 timers 1 slots 1 open { wait 0 - - @only 4 { }",
            "2 slots 1 streams 1 open { read 0 1 - - @only",
        ],
    ),
    // What stands elsewhere.
    (
        4,
        "session 1 timers 1 ",
        &[
            "@strands",
            "@timers",
            "open { stop @run",
            "open { post - { } @abort",
            "open { wait 0 - - { } other { } @abort",
            "open { wait 0 - - { } other { } @other",
            "open { } restart @restart",
            "open { } run 1 @2",
            "open { } run 1 @open",
            "guards 1 open { } run 1 @}",
            "guards 1 open { } run 1 @stop",
        ],
    ),
    (
        3,
        "session 1 open { } run 1 ",
        &["@run1", "@x6", "@{}", "@--"],
    ),
    (
        9,
        "session ",
        &[
            "@0 open { } run 1",
            "@3 open { } run 1",
            "\n@18446744073709551615",
        ],
    ),
    (
        7,
        "session 1 ",
        &[
            "strands @17",
            "timers @33",
            "slots @65",
            "streams @17",
            "guards @300",
            "at @1099511627776",
            "streams 1 at 1 room 0 @0",
            "streams 1 at 1 room 0 @65537",
            "streams 1 open { readsome 0 @0",
            "streams 1 open { readsome 0 @4097",
            "streams 1 open { read 0 @4097",
            "streams 1 open { until 0 x00 @4097",
            "open { } run @0",
            "open { } poll @17",
        ],
    ),
    (
        7,
        "session 2 ",
        &[
            "strands @65",
            "timers @129",
            "slots @129",
            "streams @65",
            "guards @65",
            "at @18446744073709551615",
            "streams 1 at 1 room 0 @262145",
            "streams 1 open { read 0 @16385",
            "timers 1 open { expiresat 0 @1099511627776",
            "slots 1 open { emit 0 @8",
            "timers 1 slots 1 open { wait 0 - 0 only @8",
            "open { } run 1 restart run @18446744073709551615",
        ],
    ),
    (
        8,
        "session ",
        &[
            "1 guards 1 open { } run 1",
            "2 guards 2 open { release 0 } run 1",
            "1 guards 2 open { post - { release 1 } }\nrun 1\n",
            "1 guards 1 open { } run 1 restart poll 2",
        ],
    ),
];

fn are_refused(rt: &impl Abort, alloc: Global, rows: &[Refused]) -> Result<(), Fail> {
    for (rule, front, texts) in rows {
        refuses_all(rt, alloc, *rule, front, texts)?;
    }
    Ok(())
}

#[test]
fn these_texts_are_refused(rt: HostRuntime) -> Result<(), Fail> {
    are_refused(&rt, rt.alloc(), REFUSED)
}
