//! One session in memory, and what the checker of traces says of it.

ghost use Rattle.std.specs.Prelude.{◌≡◌, length};
ghost use Rattle.session_script.specs.Limits.{most_acts};
ghost use Rattle.op_handlers.specs.Rack.{IsWholeRack, handlers_in};

use crate::marked::{Marks, PLAIN, rack_of};
use crate::wanted::{MEMORY, is_bytes, is_lines, is_text, text_of};
use asio_types::{Bytes, Sink, Source, SureSink, SureSource};
use op_handlers::{CompletionHandler, Rack};
use reactor_script::{FailAt, ScriptReactor};
use reactor_trait::Reactor;
use session_run::{Status, asio_session, book_session};
use session_script::MOST_ACTS;
use std::alloc::Global;
use std::process::Abort;
use std::sync::Wait;
use std::thread::Threads;
use trace_check::check_session;

/// More bytes than the longest trace of these tests.
pub(crate) const ROOM: u32 = 262_145;

/// Which of the two calls a session is.
#[derive(Clone, Copy)]
pub(crate) enum Call {
    /// `asio_session`.
    Asio,
    /// `book_session`, on the context with one lock.
    Book,
}

pub(crate) const BOTH: &[Call] = &[Call::Asio, Call::Book];

/// What a session came to.
#[derive(Drop)]
pub(crate) struct Ended {
    pub(crate) status: Status,
    pub(crate) note: String,
    /// What was sent on stream 0.
    pub(crate) sent: Bytes,
}

/// What a session in memory left.
#[derive(Drop)]
pub(crate) struct Left {
    pub(crate) ended: Ended,
    pub(crate) trace: String,
}

/// The words of a command line.
pub(crate) fn words_of<R: Abort>(rt: &R, alloc: Global, text: &str) -> Vec<String> {
    let mut words = Vec::new(alloc);
    for word in text.split_whitespace() {
        let word = String::from_str(alloc, word).expect(rt, MEMORY);
        words.push(word).expect(rt, MEMORY);
    }
    words
}

/// Room for the notes of a session.
pub(crate) fn notes_of<R: Abort>(rt: &R, alloc: Global) -> SureSink {
    SureSink::make(alloc, 256).expect(rt, MEMORY)
}

/// A session: the one place of both calls in all tests. What is promised of them stays here, since a
/// test that knew it would be dear to prove.
pub(crate) fn call_session<
    R: Threads + Wait + Sync,
    S: Source,
    K: Sink,
    X: Reactor + Send,
    H: CompletionHandler + Send,
>(
    rt: &R,
    alloc: Global,
    call: Call,
    words: &[String],
    source: &mut S,
    out: &mut K,
    notes: &mut SureSink,
    reactor: X,
    rack: &mut Rack<H>,
) -> (Status, X)
    requires whole { IsWholeRack rack.old }
    requires count { length (handlers_in rack.old) ≡ most_acts }
{
    match call {
        Call::Asio => asio_session(rt, alloc, words, source, out, notes, reactor, rack),
        Call::Book => book_session(rt, alloc, words, source, out, notes, reactor, rack),
    }
}

/// What a session left, and its reactor.
#[derive(Drop)]
pub(crate) struct Run<X> {
    pub(crate) status: Status,
    pub(crate) note: String,
    pub(crate) reactor: X,
}

/// A session of these words with this source, this out and this reactor, with handlers of these
/// marks.
pub(crate) fn session_over<R: Abort + Threads + Wait + Sync, S: Source, K: Sink, X: Reactor + Send>(
    rt: &R,
    alloc: Global,
    call: Call,
    words: &str,
    source: &mut S,
    out: &mut K,
    reactor: X,
    marks: Marks,
) -> Run<X> {
    let words = words_of(rt, alloc, words);
    let mut notes = notes_of(rt, alloc);
    let mut rack = rack_of(rt, alloc, MOST_ACTS, marks);
    let (status, reactor) = call_session(
        rt,
        alloc,
        call,
        words.as_slice(),
        source,
        out,
        &mut notes,
        reactor,
        &mut rack,
    );
    rack.discard_all();
    Run {
        status,
        note: text_of(rt, alloc, notes.bytes()),
        reactor,
    }
}

/// A session of these words with this source and this out over the scripted world, in which these
/// calls fail, with handlers of these marks.
pub(crate) fn session<R: Abort + Threads + Wait + Sync, S: Source, K: Sink>(
    rt: &R,
    alloc: Global,
    call: Call,
    words: &str,
    source: &mut S,
    out: &mut K,
    fails: &[FailAt],
    marks: Marks,
) -> Ended {
    let reactor = ScriptReactor::make(alloc, fails).expect(rt, MEMORY);
    let run = session_over(rt, alloc, call, words, source, out, reactor, marks);
    Ended {
        status: run.status,
        note: run.note,
        sent: Bytes::from_slice(alloc, run.reactor.sent(0)).expect(rt, MEMORY),
    }
}

/// A session of these words from memory to memory.
pub(crate) fn left_by<R: Abort + Threads + Wait + Sync>(
    rt: &R,
    alloc: Global,
    call: Call,
    words: &str,
    script: &str,
    fails: &[FailAt],
    marks: Marks,
) -> Left {
    let mut source = SureSource::make(alloc, script.as_bytes()).expect(rt, MEMORY);
    let mut out = SureSink::make(alloc, ROOM).expect(rt, MEMORY);
    let ended = session(rt, alloc, call, words, &mut source, &mut out, fails, marks);
    let trace = text_of(rt, alloc, out.bytes());
    Left { ended, trace }
}

/// A session's status is the one that is wanted.
pub(crate) fn is_status<R: Abort>(rt: &R, status: Status, want: Status, row: &str) {
    assert_eq!(rt; status, want, "{row}");
}

/// A session came to this status, with this note.
pub(crate) fn is_ended<R: Abort>(rt: &R, ended: &Ended, status: Status, note: &str, row: &str) {
    is_status(rt, ended.status, status, row);
    is_text(rt, ended.note.as_str(), note, row);
}

/// A session that runs a script, in which nothing fails, with the usual marks.
pub(crate) fn ran_well<R: Abort + Threads + Wait + Sync>(
    rt: &R,
    alloc: Global,
    call: Call,
    script: &str,
) -> Left {
    let left = left_by(rt, alloc, call, "run", script, &[], PLAIN);
    is_ended(rt, &left.ended, Status::Done, "", script);
    left
}

/// The checker's call, as that of a session.
fn call_checker(
    alloc: Global,
    words: &[String],
    source: &mut SureSource,
    out: &mut SureSink,
    notes: &mut SureSink,
) {
    let _ = check_session(alloc, words, source, out, notes);
}

/// The checker says this of a script and a trace, and notes nothing.
pub(crate) fn is_judged<R: Abort>(
    rt: &R,
    alloc: Global,
    words: &str,
    script: &str,
    trace: &str,
    verdict: &str,
) {
    let words = words_of(rt, alloc, words);
    let input = format!(in alloc; "{script}\n--\n{trace}").expect(rt, MEMORY);
    let mut source = SureSource::make(alloc, input.as_bytes()).expect(rt, MEMORY);
    let mut out = notes_of(rt, alloc);
    let mut notes = notes_of(rt, alloc);
    call_checker(alloc, words.as_slice(), &mut source, &mut out, &mut notes);
    is_bytes(rt, notes.bytes(), b"", script);
    let said = text_of(rt, alloc, out.bytes());
    is_text(rt, said.as_str(), verdict, trace);
}

/// The trace is one of a legal history of the script, whether bytes are told or not.
pub(crate) fn is_legal<R: Abort>(rt: &R, alloc: Global, script: &str, trace: &str) {
    for &words in &["", "--net"] {
        is_judged(rt, alloc, words, script, trace, "legal\n");
    }
}

/// A session of either call that runs a script with handlers of these marks, in which nothing fails,
/// writes these lines, and they are legal.
pub(crate) fn writes<R: Abort + Threads + Wait + Sync>(
    rt: &R,
    alloc: Global,
    script: &str,
    marks: Marks,
    trace: &str,
) {
    for &call in BOTH {
        writes_by(rt, alloc, call, script, marks, trace);
    }
}

/// The same of one of the calls.
pub(crate) fn writes_by<R: Abort + Threads + Wait + Sync>(
    rt: &R,
    alloc: Global,
    call: Call,
    script: &str,
    marks: Marks,
    trace: &str,
) {
    let left = left_by(rt, alloc, call, "run", script, &[], marks);
    is_ended(rt, &left.ended, Status::Done, "", script);
    is_lines(rt, alloc, left.trace.as_str(), trace, script);
    is_legal(rt, alloc, script, left.trace.as_str());
}
