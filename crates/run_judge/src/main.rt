//! The program: it judges the run in a file, or the one that standard input has, by the rules of runs.
#![tactic(auto)]

mod form;
mod listing;
mod orders;
mod overlaps;
mod session;
mod status;

use crate::form::{Form, Question, form_of};
use crate::orders::order;
use crate::overlaps::overlaps;
use crate::session::{Sources, check, picture, why};
use crate::status::Status;
use asio_types::{Sink, Source, StdSink, StdSource, write_all};
use std::fs::File;
use std::process::ExitCode;
use text_io::{NoWords, words_of};

/// What is asked of the run in the file that a command names, and that is read more than once.
fn explain<K: Sink>(rt: &HostRuntime, form: &Form<'_>, out: &mut K) -> Status {
    let Ok(first) = File::open(rt, form.file) else {
        return Status::ReadFault;
    };
    let (Ok(second), Ok(third)) = (File::open(rt, form.file), File::open(rt, form.file)) else {
        return Status::ReadFault;
    };
    let mut sources = Sources {
        first: StdSource::of(first),
        second: StdSource::of(second),
        third: StdSource::of(third),
    };
    if form.question == Question::Overlaps {
        overlaps(rt.alloc(), &mut sources, out)
    } else {
        why(rt.alloc(), form, &mut sources, out)
    }
}

/// What is asked of the run that a source gives.
fn answer<S: Source, K: Sink + Drop, N: Sink>(
    rt: &HostRuntime,
    form: &Form<'_>,
    source: &mut S,
    mut out: K,
    notes: &mut N,
) -> Status {
    match form.question {
        Question::Check => check(rt.alloc(), form, source, &mut out),
        Question::Why | Question::Overlaps => explain(rt, form, &mut out),
        Question::Order { thing } => order(rt.alloc(), source, thing, &mut out),
        Question::Picture { window } => picture(rt.alloc(), window, source, out, notes),
    }
}

/// What is asked of the run that a command names.
fn judge<K: Sink + Drop, N: Sink>(
    rt: &HostRuntime,
    form: &Form<'_>,
    out: K,
    notes: &mut N,
) -> Status {
    if form.file.as_bytes() == b"-".as_slice() {
        let mut source = StdSource::of(rt.stdin());
        return answer(rt, form, &mut source, out, notes);
    }
    let Ok(file) = File::open(rt, form.file) else {
        return Status::ReadFault;
    };
    let mut source = StdSource::of(file);
    answer(rt, form, &mut source, out, notes)
}

fn main(rt: HostRuntime) -> ExitCode {
    let out = StdSink::of(rt.stdout());
    let mut notes = StdSink::of(rt.stderr());
    let status = match words_of(&rt) {
        Ok(words) => match form_of(words.as_slice()) {
            Some(form) => judge(&rt, &form, out, &mut notes),
            None => Status::Usage,
        },
        Err(NoWords::Unreadable) => Status::Usage,
        Err(NoWords::NoMemory) => Status::NoMemory,
    };
    let _ = write_all(&mut notes, status.note());
    ExitCode::from(status.number())
}
