//! Traces as text: each event has its line, and a failed write leaves the lines before.

use crate::histories::history_of;
use asio_types::{Code, Event, Sink, SlowSink, SureSink, TextSink};
use history_book::{History, write_trace};
use std::test::Fail;

// Each kind of event, with each code, no act, 0 and the greatest numbers.
const EVENTS: [Event; 22] = [
    Event::Call { act: 0 },
    Event::Back { act: 4294967295 },
    Event::Stop { act: Some(17) },
    Event::Stop { act: None },
    Event::Begin {
        op: 0,
        code: Code::Ok,
        size: 0,
    },
    Event::End {
        op: 4294967295,
        mark: 18446744073709551615,
    },
    Event::Take { act: 10 },
    Event::Done {
        op: 4294967295,
        code: Code::NotFound,
        size: 4294967295,
    },
    Event::Done {
        op: 1,
        code: Code::Aborted,
        size: 2,
    },
    Event::Done {
        op: 3,
        code: Code::Eof,
        size: 4,
    },
    Event::Done {
        op: 5,
        code: Code::Bad,
        size: 6,
    },
    Event::Begin {
        op: 7,
        code: Code::Broken,
        size: 8,
    },
    Event::Begin {
        op: 9,
        code: Code::Reset,
        size: 100,
    },
    Event::Tick { now: 0 },
    Event::Tick {
        now: 18446744073709551615,
    },
    Event::Last,
    Event::Fault,
    Event::Ended,
    Event::Stopped,
    Event::Polled,
    Event::Restart,
    Event::Dropped { op: 0, mark: 0 },
];

static TRACE: &[u8] =
    b"call 0\nback 4294967295\nstop 17\nstop -\nbegin 0 ok 0\nend 4294967295 18446744073709551615\ntake 10\ndone 4294967295 not_found 4294967295\ndone 1 aborted 2\ndone 3 eof 4\ndone 5 bad 6\nbegin 7 broken 8\nbegin 9 reset 100\ntick 0\ntick 18446744073709551615\nlast\nfault\nended\nstopped\npolled\nrestart\ndrop 0 0\n";

/// Whether all of the trace of a history was written.
fn is_written<K: Sink>(history: &History, sink: &mut K) -> bool {
    write_trace(history, sink).is_ok()
}

#[test]
fn each_event_has_its_line(rt: HostRuntime) -> Result<(), Fail> {
    let alloc = rt.alloc();
    let history = history_of(alloc, &EVENTS).or(Err("memory"))?;
    let mut sure = SureSink::make(alloc, 400).or(Err("memory"))?;
    assert!(rt; is_written(&history, &mut sure));
    assert_eq!(rt; sure.bytes(), TRACE);
    let mut slow = SlowSink::make(alloc, 1, 400).or(Err("memory"))?;
    assert!(rt; is_written(&history, &mut slow));
    assert_eq!(rt; slow.bytes(), TRACE);
    Ok(())
}

#[test]
fn a_failure_leaves_the_lines_before(rt: HostRuntime) -> Result<(), Fail> {
    let alloc = rt.alloc();
    let history = history_of(alloc, &EVENTS).or(Err("memory"))?;
    let mut text = TextSink::make(alloc, 400, &[3]).or(Err("memory"))?;
    assert!(rt; !is_written(&history, &mut text));
    assert_eq!(rt; text.bytes(), b"call 0\nback 4294967295\n".as_slice());
    Ok(())
}
