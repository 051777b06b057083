//! The program: it says which orders the script in a file, or the one that standard input has, may
//! have.
#![tactic(auto)]

use asio_types::{Sink, StdSink, StdSource, write_all};
use order_report::{OrdersStatus, orders_session};
use std::fs::File;
use std::process::ExitCode;
use text_io::{NoWords, words_of};

/// Says why nothing was asked.
fn refuse<N: Sink>(notes: &mut N, status: OrdersStatus) -> OrdersStatus {
    let _ = write_all(notes, status.note());
    status
}

/// Asks about the script that standard input has.
fn ask_input<K: Sink, N: Sink>(
    rt: &HostRuntime,
    words: &[String],
    out: &mut K,
    notes: &mut N,
) -> OrdersStatus {
    let mut source = StdSource::of(rt.stdin());
    orders_session(rt.alloc(), words, &mut source, out, notes)
}

/// Asks about the script in a file.
fn ask_file<K: Sink, N: Sink>(
    rt: &HostRuntime,
    name: &String,
    words: &[String],
    out: &mut K,
    notes: &mut N,
) -> OrdersStatus {
    let Ok(file) = File::open(rt, name) else {
        return refuse(notes, OrdersStatus::ReadFault);
    };
    let mut source = StdSource::of(file);
    orders_session(rt.alloc(), words, &mut source, out, notes)
}

/// Asks what the words of a command ask: the first is a file, or `-` for standard input, unless it
/// begins with two of these.
fn ask<K: Sink, N: Sink>(
    rt: &HostRuntime,
    words: &[String],
    out: &mut K,
    notes: &mut N,
) -> OrdersStatus {
    match words {
        [name, rest @ ..] => if name.starts_with("--") {
            ask_input(rt, words, out, notes)
        } else if name.as_bytes() == b"-".as_slice() {
            ask_input(rt, rest, out, notes)
        } else {
            ask_file(rt, name, rest, out, notes)
        },
        _ => ask_input(rt, words, out, notes),
    }
}

fn main(rt: HostRuntime) -> ExitCode {
    let mut out = StdSink::of(rt.stdout());
    let mut notes = StdSink::of(rt.stderr());
    let status = match words_of(&rt) {
        Ok(words) => ask(&rt, words.as_slice(), &mut out, &mut notes),
        Err(NoWords::Unreadable) => refuse(&mut notes, OrdersStatus::Usage),
        Err(NoWords::NoMemory) => refuse(&mut notes, OrdersStatus::NoMemory),
    };
    ExitCode::from(status.number())
}
