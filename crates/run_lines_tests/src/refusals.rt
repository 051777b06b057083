//! What is no line is refused, with the first word that can't stand where it does.

use run_lines::read_line;
use std::test::Fail;

const THREAD: &str = "word 1: expected the number of a thread, or name";

const VERB: &str =
    "word 2: expected call, back, done, begin, end, throw, drop, claim, release, lock, \
    unlock, mark, after, cancel, work, stop or restart";

const KIND: &str = "word 2: expected strand, thing, op, thread, context, lock or mark";

const TEXT: &str = "word 4: expected printable characters";

/// Lines that are none, and what is said of them.
const REFUSED: [(&str, &str); 26] = [
    ("", THREAD),
    (" 0 end 1", THREAD),
    ("+1 end 1", THREAD),
    ("00 end 1", THREAD),
    ("18446744073709551616 end 1", THREAD),
    ("names strand 0 room", THREAD),
    ("0", VERB),
    ("0 ", VERB),
    ("0  end 1", VERB),
    ("0 ended 1", VERB),
    ("0 end", "word 3: expected a number below 2^64"),
    ("0 end 01", "word 3: expected a number below 2^64"),
    ("0 end -", "word 3: expected a number below 2^64"),
    ("0 end 1 ", "word 4: expected the end of the line"),
    ("0 claim 1 2", "word 4: expected the end of the line"),
    (
        "0 begin 1 Ok 0",
        "word 4: expected a small letter and up to 31 small letters, digits and _",
    ),
    (
        "0 begin 1 _k 0",
        "word 4: expected a small letter and up to 31 small letters, digits and _",
    ),
    ("0 done 1 ok", "word 5: expected a number below 2^64"),
    (
        "0 call 1 post 0 x -",
        "word 6: expected a number below 2^64, or -",
    ),
    (
        "0 call 1 post 0 - -1",
        "word 7: expected a number below 2^64, or -",
    ),
    (
        "0 call 1 post 0 - - -",
        "word 8: expected the end of the line",
    ),
    ("name", KIND),
    ("name Strand 0 room", KIND),
    ("name strand - room", "word 3: expected a number below 2^64"),
    ("name strand 0", TEXT),
    ("name strand 0 ", TEXT),
];

#[test]
fn what_is_no_line_is_refused_at_its_first_bad_word(rt: HostRuntime) -> Result<(), Fail> {
    let alloc = rt.alloc();
    for (line, says) in REFUSED {
        let Err(bad) = read_line(line.as_bytes()) else {
            return Err("it was read")?;
        };
        let said = format!(in alloc; "{bad}")?;
        assert_eq!(rt; said.as_str(), says, "{line}");
    }
    Ok(())
}
