//! Operations on streams whose bytes and room come at once or in two pieces; what each gives is
//! written by hand.

ghost use Rattle.std.specs.Prelude.{◌≡◌, ◌≤◌, IfOk, length};
ghost use Rattle.std.specs.VecDeque.{deque_len};
ghost use Rattle.stream_rules.specs.Asked.{writing_view, IsCountable};

use asio_types::{Code, NoMemory, OpNo, ReadMark, WriteMark};
use std::alloc::Global;
use std::collections::VecDeque;
use stream_rules::{
    Asks, Completion, Pipe, Queued, Reading, Writing, first_end, serve_reads, serve_writes,
};

/// A reading operation, the bytes that come, the mark behind them, how it completes, and how many
/// bytes it leaves.
type ReadCase = (
    Reading<'static>,
    &'static [u8],
    Option<ReadMark>,
    Option<(Code, u32)>,
    usize,
);

/// The bytes of a write, the room that comes, the mark behind it, how the write completes, and how
/// many bytes are sent.
type WriteCase = (
    &'static [u8],
    u32,
    Option<WriteMark>,
    Option<(Code, u32)>,
    usize,
);

/// How a reading operation completes where the first bytes are there at first, and the others and
/// the mark come later; and how many bytes it leaves.
fn read_cut(
    alloc: Global,
    reading: Reading,
    bytes: &[u8],
    cut: usize,
    mark: Option<ReadMark>,
) -> Result<(Option<(Code, u32)>, usize), NoMemory>
    requires { cut ≤ length bytes.now }
{
    let Ok(count) = u32::try_from(bytes.len()) else {
        return Err(NoMemory);
    };
    let mut pipe = Pipe::make(alloc, count, 0)?;
    pipe.inbound.feed(&bytes[..cut]);
    let first = pipe.serve_read(reading, 0);
    pipe.inbound.feed(&bytes[cut..]);
    if let Some(mark) = mark {
        pipe.inbound.set_mark(mark);
    }
    let outcome = match first.outcome {
        Some(outcome) => Some(outcome),
        None => pipe.serve_read(reading, first.used).outcome,
    };
    Ok((outcome, pipe.inbound.there().len()))
}

/// How a writing operation completes where so much room is there at first, and the rest and the
/// mark come later; and how many bytes are sent.
fn write_cut(
    alloc: Global,
    writing: Writing,
    room: u32,
    cut: u32,
    mark: Option<WriteMark>,
) -> Result<(Option<(Code, u32)>, usize), NoMemory>
    requires cut { cut ≤ room }
    requires countable { IsCountable (writing_view writing) }
{
    let mut pipe = Pipe::make(alloc, 0, room)?;
    pipe.outbound.add_room(cut);
    let first = pipe.serve_write(writing, 0);
    pipe.outbound.add_room(room - cut);
    if let Some(mark) = mark {
        pipe.outbound.set_mark(mark);
    }
    let outcome = match first.outcome {
        Some(outcome) => Some(outcome),
        None => pipe.serve_write(writing, first.used).outcome,
    };
    Ok((outcome, pipe.outbound.sent().len()))
}

const LINE: Reading<'static> = Reading::Until {
    delimiter: b"\r\n",
    max: 64,
};

const COMMAND: Reading<'static> = Reading::Until {
    delimiter: b"\n",
    max: 64,
};

const SHORT: Reading<'static> = Reading::Until {
    delimiter: b"\n",
    max: 4,
};

const TEN: Reading<'static> = Reading::All { size: 10 };

const READS: &[ReadCase] = &[
    (
        Reading::All { size: 2 },
        b"ab",
        None,
        Some((Code::Ok, 2)),
        0,
    ),
    (TEN, b"abcdefghij", None, Some((Code::Ok, 10)), 0),
    (TEN, b"abcd", Some(ReadMark::Eof), Some((Code::Eof, 4)), 0),
    (Reading::All { size: 4 }, b"", None, None, 0),
    (LINE, b"ab\r\ncd\r\n", None, Some((Code::Ok, 4)), 4),
    (LINE, b"ab\rcd\n", None, None, 6),
    (COMMAND, b"hi\n", None, Some((Code::Ok, 3)), 0),
    (SHORT, b"abcd", None, Some((Code::NotFound, 0)), 4),
    (SHORT, b"abc\n", None, Some((Code::Ok, 4)), 0),
    (
        SHORT,
        b"hi\n",
        Some(ReadMark::Reset),
        Some((Code::Ok, 3)),
        0,
    ),
    (
        SHORT,
        b"hi",
        Some(ReadMark::Reset),
        Some((Code::Reset, 0)),
        2,
    ),
];

/// Each stays, or completes, alike however its bytes are cut.
#[test]
fn composed_reads_give_the_same_for_every_cut(rt: HostRuntime) -> Result<(), NoMemory> {
    for (reading, bytes, mark, outcome, left) in READS {
        for cut in 0..=bytes.len() {
            let got = read_cut(rt.alloc(), *reading, bytes, cut, *mark)?;
            assert_eq!(rt; got, (*outcome, *left));
        }
    }
    Ok(())
}

const WRITES: &[WriteCase] = &[
    (b"abcd", 11, None, Some((Code::Ok, 4)), 4),
    (
        b"abcd",
        2,
        Some(WriteMark::Broken),
        Some((Code::Broken, 2)),
        2,
    ),
    (
        b"abcd",
        3,
        Some(WriteMark::Reset),
        Some((Code::Reset, 3)),
        3,
    ),
    (b"hi\n", 64, None, Some((Code::Ok, 3)), 3),
    (b"hi\n", 2, None, None, 2),
];

/// Each is whole however its room is cut.
#[test]
fn composed_writes_give_the_same_for_every_cut(rt: HostRuntime) -> Result<(), NoMemory> {
    for (bytes, room, mark, outcome, sent) in WRITES {
        assert!(rt; bytes.len() < 8);
        for cut in 0..=*room {
            let writing = Writing::All { bytes };
            let got = write_cut(rt.alloc(), writing, *room, cut, *mark)?;
            assert_eq!(rt; got, (*outcome, *sent));
        }
    }
    Ok(())
}

const TWO: Reading<'static> = Reading::Some { size: 2 };

const FOUR: Reading<'static> = Reading::Some { size: 4 };

/// How many bytes are there at first.
const SOME: &[(usize, ReadCase)] = &[
    (3, (TWO, b"abc", None, Some((Code::Ok, 2)), 1)),
    (1, (TWO, b"abc", None, Some((Code::Ok, 1)), 2)),
    (0, (FOUR, b"", Some(ReadMark::Eof), Some((Code::Eof, 0)), 0)),
    (
        0,
        (FOUR, b"", Some(ReadMark::Reset), Some((Code::Reset, 0)), 0),
    ),
];

/// A read or a write of some bytes completes with what is there at first.
#[test]
fn what_is_there_is_enough_for_some(rt: HostRuntime) -> Result<(), NoMemory> {
    for (cut, (reading, bytes, mark, outcome, left)) in SOME {
        assert!(rt; *cut <= bytes.len());
        let got = read_cut(rt.alloc(), *reading, bytes, *cut, *mark)?;
        assert_eq!(rt; got, (*outcome, *left));
    }
    let writing = Writing::Some { bytes: b"abc" };
    let got = write_cut(rt.alloc(), writing, 2, 2, None)?;
    assert_eq!(rt; got, (Some((Code::Ok, 2)), 2));
    Ok(())
}

/// What every operation here asks for: a line, or two bytes to write.
struct Asked;

impl Asks for Asked {
    ghost use Rattle.std.specs.Prelude.{[], ◌∷◌, ⊤};
    ghost use Rattle.stream_rules.specs.Serving.{Until, All_of};

    ghost IsReading = { λ _ _. ⊤ };

    ghost IsWriting = { λ _ _. ⊤ };

    ghost reads = { λ _ _. Until (13 ∷ 10 ∷ []) 64 };

    ghost writes = { λ _ _. All_of (97 ∷ 98 ∷ []) };

    fn reading(&self, _op: OpNo) -> Reading<'_> {
        Reading::Until {
            delimiter: b"\r\n",
            max: 64,
        }
    }

    fn writing(&self, _op: OpNo) -> Writing<'_> {
        Writing::All { bytes: b"ab" }
    }
}

fn queued(op: OpNo) -> Queued {
    Queued {
        op,
        accepted: op,
        moved: 0,
    }
}

fn two_queued(alloc: Global) -> Result<VecDeque<Queued>, NoMemory>
    ensures { IfOk result (λ queue. deque_len queue ≡ 2) }
{
    let mut queue = VecDeque::with_capacity(alloc, 2)?;
    queue.push_back_reserved(queued(0));
    queue.push_back_reserved(queued(1));
    Ok(queue)
}

/// What two reads of a line give, where the first bytes are there at first, and the others come
/// later.
fn two_lines_cut(alloc: Global, bytes: &[u8], cut: usize) -> Result<Vec<Completion>, NoMemory>
    requires { cut ≤ length bytes.now }
{
    let Ok(count) = u32::try_from(bytes.len()) else {
        return Err(NoMemory);
    };
    let mut queue = two_queued(alloc)?;
    let mut completed = Vec::with_capacity(alloc, 2)?;
    let mut pipe = Pipe::make(alloc, count, 0)?;
    pipe.inbound.feed(&bytes[..cut]);
    serve_reads(&Asked, &mut queue, &mut pipe, &mut completed);
    pipe.inbound.feed(&bytes[cut..]);
    serve_reads(&Asked, &mut queue, &mut pipe, &mut completed);
    Ok(completed)
}

/// The second of two lines begins where the first one ended, however the bytes of both are cut.
#[test]
fn two_lines_are_read_in_order_for_every_cut(rt: HostRuntime) -> Result<(), NoMemory> {
    let bytes: &[u8] = b"ab\r\ncd\r\n";
    let outcome = (Code::Ok, 4);
    let lines = [Completion { op: 0, outcome }, Completion { op: 1, outcome }];
    for cut in 0..=bytes.len() {
        let completed = two_lines_cut(rt.alloc(), bytes, cut)?;
        assert_eq!(rt; completed.as_slice(), lines.as_slice());
    }
    Ok(())
}

/// What is seen of two writes: the head of the queue where they stay at first, which of them
/// completed at last, the head then, and all bytes that are sent.
#[derive(Drop)]
struct Written {
    at_first: Option<(OpNo, u32)>,
    completed: Vec<Completion>,
    at_last: Option<(OpNo, u32)>,
    sent: Vec<u8>,
}

/// The operation at the head of a queue, and how many of its bytes are sent.
fn head_of(queue: &VecDeque<Queued>) -> Option<(OpNo, u32)> {
    queue.front().map(|head| (head.op, head.moved))
}

/// What is seen of two writes where so much room is there at first, and the rest comes later.
fn two_writes_cut(alloc: Global, room: u32, cut: u32) -> Result<Written, NoMemory>
    requires { cut ≤ room }
{
    let mut queue = two_queued(alloc)?;
    let mut completed = Vec::with_capacity(alloc, 2)?;
    let mut pipe = Pipe::make(alloc, 0, room)?;
    pipe.outbound.add_room(cut);
    serve_writes(&Asked, &mut queue, &mut pipe, &mut completed);
    let at_first = head_of(&queue);
    pipe.outbound.add_room(room - cut);
    serve_writes(&Asked, &mut queue, &mut pipe, &mut completed);
    Ok(Written {
        at_first,
        completed,
        at_last: head_of(&queue),
        sent: Vec::from_slice(alloc, pipe.outbound.sent())?,
    })
}

/// A write that stays has its bytes so far sent, and the next one waits behind it.
#[test]
fn a_write_that_stays_keeps_what_it_sent(rt: HostRuntime) -> Result<(), NoMemory> {
    let written = two_writes_cut(rt.alloc(), 3, 1)?;
    let outcome = (Code::Ok, 2);
    let completed = [Completion { op: 0, outcome }];
    assert_eq!(rt; written.at_first, Some((0, 1)));
    assert_eq!(rt; written.completed.as_slice(), completed.as_slice());
    assert_eq!(rt; written.at_last, Some((1, 1)));
    assert_eq!(rt; written.sent.as_slice(), b"aba".as_slice());
    Ok(())
}

/// The search goes on behind what was seen, and finds a delimiter that begins there.
#[test]
fn a_delimiter_may_begin_in_what_was_seen(rt: HostRuntime) -> Result<(), NoMemory> {
    assert_eq!(rt; first_end(b"\r\n", b"a\rb\r", 0), None);
    assert_eq!(rt; first_end(b"\r\n", b"a\rb\r\nc\r\n", 4), Some(5));
    Ok(())
}
