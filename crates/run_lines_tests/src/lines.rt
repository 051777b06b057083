//! Lines are read as what they say, and written as they were read.

use run_lines::{Code, Doing, Entry, Kind, Letters, Line, LineText, Word, read_line};
use std::process::Abort;
use std::test::Fail;

/// The largest number.
const MOST: u64 = u64::MAX;

/// The letters of a test.
fn letters(text: &str) -> Result<Letters, Fail> {
    Ok(Letters::of(text.as_bytes()).ok_or("no letters")?)
}

/// The line that a text says.
fn line_of(text: &str) -> Result<Line, Fail> {
    match read_line(text.as_bytes()) {
        Ok(Entry::Line(line)) => Ok(line),
        Ok(Entry::Name(_)) => Err("a name")?,
        Err(bad) => Err(bad)?,
    }
}

/// This text is written as it was read.
fn again(rt: &impl Abort, text: &str) -> Result<(), Fail> {
    let line = line_of(text)?;
    assert_eq!(rt; LineText::of(&line).as_slice(), text.as_bytes());
    Ok(())
}

/// This text says that, and that is written as this text.
fn both(rt: &impl Abort, text: &str, thread: u64, does: Doing) -> Result<(), Fail> {
    let line = line_of(text)?;
    assert!(rt; line == Line { thread, does }, "{text}");
    assert_eq!(rt; LineText::of(&line).as_slice(), text.as_bytes());
    Ok(())
}

/// A call of operation 7 of context 0 by thread 2, on strand 0 and thing 9.
fn call(word: Word) -> Doing {
    Doing::Call {
        op: 7,
        word,
        context: 0,
        strand: Some(0),
        thing: Some(9),
    }
}

#[test]
fn calls_are_read_and_written(rt: HostRuntime) -> Result<(), Fail> {
    both(&rt, "2 call 7 post 0 0 9", 2, call(Word::Post))?;
    both(&rt, "2 call 7 defer 0 0 9", 2, call(Word::Defer))?;
    both(&rt, "2 call 7 dispatch 0 0 9", 2, call(Word::Dispatch))?;
    let read = Word::of(letters("read_some2")?);
    both(&rt, "2 call 7 read_some2 0 0 9", 2, call(read))?;
    let alone = Doing::Call {
        op: MOST,
        word: Word::of(letters("wait")?),
        context: 1,
        strand: None,
        thing: None,
    };
    both(&rt, "2 call 18446744073709551615 wait 1 - -", 2, alone)
}

#[test]
fn what_becomes_of_an_operation_is_read_and_written(rt: HostRuntime) -> Result<(), Fail> {
    let (op, code, size) = (2, Code::of(letters("eof")?), 9);
    both(&rt, "0 back 2", 0, Doing::Back { op })?;
    both(&rt, "1 done 2 eof 9", 1, Doing::Done { op, code, size })?;
    both(&rt, "1 begin 2 eof 9", 1, Doing::Begin { op, code, size })?;
    let (code, size) = (Code::Aborted, MOST);
    both(
        &rt,
        "1 begin 2 aborted 18446744073709551615",
        1,
        Doing::Begin { op, code, size },
    )?;
    both(&rt, "1 end 2", 1, Doing::End { op })?;
    both(&rt, "1 throw 2", 1, Doing::Throw { op })?;
    both(&rt, "1 drop 2", 1, Doing::Drop { op })
}

/// What else a thread does, behind the number of the thread.
const ELSE: [(&str, Doing); 10] = [
    ("18446744073709551615 claim 1", Doing::Claim { thing: 1 }),
    (
        "18446744073709551615 release 1",
        Doing::Release { thing: 1 },
    ),
    ("18446744073709551615 lock 2", Doing::Lock { lock: 2 }),
    ("18446744073709551615 unlock 2", Doing::Unlock { lock: 2 }),
    ("18446744073709551615 mark 3", Doing::Mark { mark: 3 }),
    ("18446744073709551615 after 3", Doing::After { mark: 3 }),
    ("18446744073709551615 cancel 1", Doing::Cancel { thing: 1 }),
    ("18446744073709551615 work 4", Doing::Work { context: 4 }),
    ("18446744073709551615 stop 4", Doing::Stop { context: 4 }),
    (
        "18446744073709551615 restart 4",
        Doing::Restart { context: 4 },
    ),
];

#[test]
fn what_else_a_thread_does_is_read_and_written(rt: HostRuntime) -> Result<(), Fail> {
    for (text, does) in ELSE {
        both(&rt, text, MOST, does)?;
    }
    Ok(())
}

/// Names, with their kinds and numbers.
const NAMES: [(&str, Kind, u64, &str); 8] = [
    ("name strand 0 room", Kind::Strand, 0, "room"),
    ("name thing 1 members", Kind::Thing, 1, "members"),
    ("name op 2 on_accept()", Kind::Op, 2, "on_accept()"),
    ("name thread 3 main thread", Kind::Thread, 3, "main thread"),
    ("name context 4  ", Kind::Context, 4, " "),
    ("name lock 5 ~", Kind::Lock, 5, "~"),
    ("name mark 6 -", Kind::Mark, 6, "-"),
    (
        "name op 18446744073709551615 name op 0",
        Kind::Op,
        MOST,
        "name op 0",
    ),
];

#[test]
fn a_name_goes_to_the_end_of_its_line(rt: HostRuntime) -> Result<(), Fail> {
    for (line, kind, number, text) in NAMES {
        let Ok(Entry::Name(name)) = read_line(line.as_bytes()) else {
            return Err(line)?;
        };
        assert_eq!(rt; name.kind, kind, "{line}");
        assert_eq!(rt; name.number, number, "{line}");
        assert_eq!(rt; name.text, text.as_bytes(), "{line}");
    }
    Ok(())
}

/// Two handlers of one strand and a wait's, which claim the members of a room.
const ROOM: &str = "0 call 0 post 0 0 - / 0 call 1 post 0 0 - / 1 begin 0 ok 0 / 1 claim 1 / \
    1 call 2 wait 0 - 9 / 1 release 1 / 1 end 0 / 2 begin 1 ok 0 / 2 claim 1 / 2 cancel 9 / \
    2 release 1 / 2 end 1 / 1 begin 2 aborted 0 / 1 lock 3 / 1 claim 1 / 1 release 1 / 1 unlock 3 / \
    1 end 2";

#[test]
fn the_lines_of_a_run_are_written_as_they_were_read(rt: HostRuntime) -> Result<(), Fail> {
    for text in ROOM.split(" / ") {
        again(&rt, text)?;
    }
    Ok(())
}
