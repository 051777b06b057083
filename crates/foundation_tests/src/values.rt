//! Codes, types of cancellation, the lines of a world, and the sources and sinks.

use asio_types::{
    Bytes, Class, Code, Failed, Line, Lines, NoMemory, Sink, SlowSink, SlowSource, Source, StdSink,
    StdSource, SureSink, SureSource, TextSink, TextSource, Types, What, class_of, write_all,
};
use std::alloc::Global;
use std::io;
use std::process::Abort;
use std::test::Fail;

#[test]
fn codes_have_their_class(rt: HostRuntime) {
    let classes = [
        (Code::Ok, Class::Ok),
        (Code::Aborted, Class::Abort),
        (Code::Eof, Class::Other),
        (Code::Reset, Class::Other),
    ];
    for (code, class) in classes {
        assert_eq!(rt; class_of(code), class);
    }
}

#[test]
fn types_combine_as_bits(rt: HostRuntime) -> Result<(), Fail> {
    assert!(rt; Types::of(8).is_none());
    let terminal = Types::of(1).ok_or("terminal")?;
    let partial_or_total = Types::of(6).ok_or("partial or total")?;
    assert!(rt; !terminal.meets(partial_or_total));
    assert!(rt; Types::all().meets(terminal));
    assert_eq!(rt; Types::all().both(partial_or_total).bits(), 6);
    Ok(())
}

// One line, which feeds two bytes.
fn one_line(alloc: Global) -> Result<Lines, NoMemory> {
    let fed = Bytes::from_slice(alloc, b"ab")?;
    let mut lines = Vec::new(alloc);
    lines.push(Line {
        time: 4,
        stream: 0,
        what: What::Feed(fed),
    })?;
    Ok(Lines::of(lines))
}

// The time of the first line, and how many bytes it feeds.
fn first_feed(lines: &Lines) -> Option<(u64, usize)> {
    let first = lines.as_slice().first()?;
    match &first.what {
        What::Feed(bytes) => Some((first.time, bytes.as_slice().len())),
        _ => None,
    }
}

#[test]
fn a_world_keeps_its_lines(rt: HostRuntime) -> Result<(), NoMemory> {
    let alloc = rt.alloc();
    let lines = one_line(alloc)?;
    let copy = Lines::from_slice(alloc, lines.as_slice())?;
    assert_eq!(rt; first_feed(&lines), Some((4, 2)));
    assert_eq!(rt; first_feed(&copy), Some((4, 2)));
    assert_eq!(rt; copy.into_vec().len(), 1);
    Ok(())
}

// What a read of at most two bytes gives: how many, and the buffer; or nothing where it failed.
fn read_two<S: Source>(source: &mut S) -> Option<(usize, [u8; 2])> {
    let mut buf = *b"--";
    match source.read(&mut buf) {
        Ok(n) => Some((n, buf)),
        Err(Failed) => None,
    }
}

// Each read of at most two bytes gives this.
fn gives<S: Source>(rt: &impl Abort, source: &mut S, reads: &[Option<(usize, [u8; 2])>]) {
    for (at, read) in reads.iter().enumerate() {
        assert_eq!(rt; read_two(source), *read, "at read {at}");
    }
}

// Each write of two bytes takes so many.
fn takes<S: Sink>(rt: &impl Abort, sink: &mut S, writes: &[Result<usize, Failed>]) {
    for (at, took) in writes.iter().enumerate() {
        assert_eq!(rt; sink.write(b"ab"), *took, "at write {at}");
    }
}

#[test]
fn sources_give_their_text(rt: HostRuntime) -> Result<(), NoMemory> {
    let mut sure = SureSource::make(rt.alloc(), b"c")?;
    gives(&rt, &mut sure, &[Some((1, *b"c-"))]);
    let mut slow = SlowSource::make(rt.alloc(), b"abc", 1)?;
    gives(&rt, &mut slow, &[Some((1, *b"a-"))]);
    Ok(())
}

const TEXT_READS: &[Option<(usize, [u8; 2])>] = &[Some((2, *b"ab")), None, Some((1, *b"c-"))];

#[test]
fn a_text_source_fails_as_told(rt: HostRuntime) -> Result<(), NoMemory> {
    let mut source = TextSource::make(rt.alloc(), b"abc", &[2])?;
    gives(&rt, &mut source, TEXT_READS);
    Ok(())
}

const TEXT_WRITES: &[Result<usize, Failed>] = &[Ok(2), Err(Failed), Ok(1), Err(Failed)];

#[test]
fn a_text_sink_fails_as_told(rt: HostRuntime) -> Result<(), NoMemory> {
    let mut sink = TextSink::make(rt.alloc(), 3, &[2])?;
    takes(&rt, &mut sink, TEXT_WRITES);
    assert_eq!(rt; sink.bytes(), b"aba".as_slice());
    Ok(())
}

// How many bytes are lost after a write of two, where it takes them.
fn lost_after_write(sink: &mut SureSink) -> Option<u64> {
    match sink.write(b"ab") {
        Ok(2) => Some(sink.lost()),
        _ => None,
    }
}

#[test]
fn a_sure_sink_counts_what_it_loses(rt: HostRuntime) -> Result<(), NoMemory> {
    let mut sink = SureSink::make(rt.alloc(), 3)?;
    for lost in 0..2 {
        assert_eq!(rt; lost_after_write(&mut sink), Some(lost));
    }
    assert_eq!(rt; sink.bytes(), b"ab".as_slice());
    Ok(())
}

const WHOLE_WRITES: &[(&[u8], Result<(), Failed>)] = &[(b"abcde", Ok(())), (b"fgh", Err(Failed))];

#[test]
fn all_bytes_are_written_or_the_first_ones(rt: HostRuntime) -> Result<(), NoMemory> {
    let mut slow = SlowSink::make(rt.alloc(), 2, 7)?;
    for (bytes, result) in WHOLE_WRITES {
        assert_eq!(rt; write_all(&mut slow, bytes), *result);
    }
    assert_eq!(rt; slow.bytes(), b"abcdefg".as_slice());
    Ok(())
}

// A reader and a writer of std that counts what it is asked, and fails where that count is odd.
#[derive(Drop)]
struct Counting {
    calls: u8,
}

impl Counting {
    fn count(&mut self) -> io::Result<()> {
        self.calls = self.calls.saturating_add(1);
        if self.calls % 2 == 1 {
            return Err(io::Error::from(io::ErrorKind::Interrupted));
        }
        Ok(())
    }
}

impl io::Read for Counting {
    fn read(&mut self, buf: &mut [u8]) -> io::Result<usize> {
        self.count()?;
        let Some(first) = buf.first_mut() else {
            return Ok(0);
        };
        *first = self.calls;
        Ok(1)
    }
}

impl io::Write for Counting {
    fn write(&mut self, buf: &[u8]) -> io::Result<usize> {
        self.count()?;
        Ok(buf.len().min(1))
    }

    fn flush(&mut self) -> io::Result<()> {
        self.count()
    }
}

const READS: &[Option<(usize, [u8; 2])>] = &[
    None,
    Some((1, *b"\x02-")),
    None,
    Some((1, *b"\x04-")),
];

#[test]
fn a_reader_is_asked_once_a_call(rt: HostRuntime) {
    let mut reader = Counting { calls: 0 };
    let mut source = StdSource::of(&mut reader);
    gives(&rt, &mut source, READS);
    assert_eq!(rt; reader.calls, 4);
}

const WRITES: &[Result<usize, Failed>] = &[Err(Failed), Ok(1), Err(Failed), Ok(1)];

#[test]
fn a_writer_is_asked_once_a_call(rt: HostRuntime) {
    let mut writer = Counting { calls: 0 };
    let mut sink = StdSink::of(&mut writer);
    takes(&rt, &mut sink, WRITES);
    assert_eq!(rt; writer.calls, 4);
}
