//! The program: it checks the trace that standard input has behind its script.
#![tactic(auto)]

use asio_types::{Sink, StdSink, StdSource, write_all};
use std::process::ExitCode;
use text_io::{NoWords, words_of};
use trace_check::{CheckStatus, check_session};

/// Says why there is no command line: one that can't be read as a whole is faulty.
fn without_words<N: Sink>(notes: &mut N, why: NoWords) -> CheckStatus {
    let status = match why {
        NoWords::Unreadable => CheckStatus::Usage,
        NoWords::NoMemory => CheckStatus::NoMemory,
    };
    let _ = write_all(notes, status.note());
    status
}

fn main(rt: HostRuntime) -> ExitCode {
    let mut source = StdSource::of(rt.stdin());
    let mut out = StdSink::of(rt.stdout());
    let mut notes = StdSink::of(rt.stderr());
    let status = match words_of(&rt) {
        Ok(words) => check_session(
            rt.alloc(),
            words.as_slice(),
            &mut source,
            &mut out,
            &mut notes,
        ),
        Err(why) => without_words(&mut notes, why),
    };
    ExitCode::from(status.number())
}
