use asio_types::{StdSink, write_all};
use std::io::{IsTerminal, Write};
use std::rt::Clock;
use std::thread;
use std::thread::Threads;
use std::time::Duration;

/// After how many seconds a session is said to run still.
const PATIENCE: u64 = 2;

/// What a terminal is told of a session that takes long.
const STILL_RUNS: &[u8] =
    b"note: the session still runs: `run` returns once no operation and no guard is outstanding\n";

/// Says on a terminal that the session still runs, if it does after two seconds. The thread that
/// says it isn't joined, and ends with the program.
pub(crate) fn tell_later<R, N>(rt: R, notes: N)
where
    R: Threads + Clock + Copy + Send + 'static,
    N: Write + IsTerminal + Send + Drop + 'static,
{
    if !notes.is_terminal() {
        return;
    }
    let mut notes = StdSink::of(notes);
    let _ = thread::spawn(&rt, move || {
        thread::sleep(&rt, Duration::from_secs(PATIENCE));
        let _ = write_all(&mut notes, STILL_RUNS);
    });
}
