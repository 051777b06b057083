//! Texts read within a limit, and notes made of words and numbers.

use asio_types::{SlowSource, SureSink, TextSource};
use std::alloc::Global;
use std::test::Fail;
use text_io::{Unfinished, read_text, write_field, write_refusal};

/// What is read of four bytes that come two at a time.
fn read_of(alloc: Global, most: usize) -> Result<Vec<u8>, Fail> {
    let mut source = SlowSource::make(alloc, b"abcd", 2)?;
    match read_text(alloc, &mut source, most) {
        Ok(text) => Ok(text),
        Err(_) => Err("no text".into()),
    }
}

#[test]
fn a_source_is_read_to_its_end_or_to_the_limit(rt: HostRuntime) -> Result<(), Fail> {
    for (most, want) in [
        (0usize, b"".as_slice()),
        (3, b"abc".as_slice()),
        (4, b"abcd".as_slice()),
        (9, b"abcd".as_slice()),
    ] {
        let text = read_of(rt.alloc(), most)?;
        assert_eq!(rt; text.as_slice(), want, "at most {most}");
    }
    Ok(())
}

#[test]
fn a_failure_in_mid_stream_gives_no_text(rt: HostRuntime) -> Result<(), Fail> {
    let alloc = rt.alloc();
    let mut source = TextSource::make(alloc, b"abcd", &[2])?;
    let unread = read_text(alloc, &mut source, 9);
    assert_eq!(rt; unread.err(), Some(Unfinished::Failed));
    Ok(())
}

#[test]
fn notes_name_their_numbers(rt: HostRuntime) -> Result<(), Fail> {
    let alloc = rt.alloc();
    let mut notes = SureSink::make(alloc, 64)?;
    assert!(rt; write_field(&mut notes, b"line ", 4294967295).is_ok());
    assert!(rt; write_refusal(&mut notes, b": refused ", 10, 0, 7).is_ok());
    let want = b"line 4294967295: refused 10 at line 0 token 7\n".as_slice();
    assert_eq!(rt; notes.bytes(), want);
    Ok(())
}
