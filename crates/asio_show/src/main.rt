//! The program: it shows why the trace that standard input has behind its script is judged as it is,
//! or a picture of it.
#![tactic(auto)]

use asio_types::{Sink, StdSink, StdSource, write_all};
use std::io::IsTerminal;
use std::process::ExitCode;
use text_io::{NoWords, words_of};
use trace_check::CheckStatus;
use trace_show::{show_note_of, show_session};

/// Says why there is no command line: one that can't be read as a whole is faulty.
fn without_words<N: Sink>(notes: &mut N, why: NoWords) -> CheckStatus {
    let status = match why {
        NoWords::Unreadable => CheckStatus::Usage,
        NoWords::NoMemory => CheckStatus::NoMemory,
    };
    let _ = write_all(notes, show_note_of(status));
    status
}

fn main(rt: HostRuntime) -> ExitCode {
    let mut source = StdSource::of(rt.stdin());
    let mut out = StdSink::of(rt.stdout());
    let stderr = rt.stderr();
    let on_terminal = stderr.is_terminal();
    let mut notes = StdSink::of(stderr);
    let status = match words_of(&rt) {
        Ok(words) => show_session(
            rt.alloc(),
            words.as_slice(),
            &mut source,
            &mut out,
            &mut notes,
            on_terminal,
        ),
        Err(why) => without_words(&mut notes, why),
    };
    ExitCode::from(status.number())
}
