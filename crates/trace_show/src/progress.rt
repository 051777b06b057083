use asio_types::{Failed, Sink, write_all};
use text_io::write_field;

/// A trace with fewer lines is shown at once, and nothing is said of how far it is.
const FEW_LINES: usize = 4_096;

/// Whether the notes get to know how far it is: for a long trace, and on a terminal alone, where
/// each word on it is written over the one before.
pub(crate) fn shows_progress(on_terminal: bool, lines: usize) -> bool {
    on_terminal && lines >= FEW_LINES
}

/// Says that the trace is being judged.
pub(crate) fn show_judging<N: Sink>(notes: &mut N, shows: bool) {
    if shows {
        let _ = write_all(notes, b"\rasio_show: judging the trace");
    }
}

fn write_drawn<N: Sink>(notes: &mut N, percent: u32) -> Result<(), Failed> {
    write_field(notes, b"\x1b[K\rasio_show: ", percent)?;
    write_all(notes, b" % drawn")
}

/// Says how much of the picture is drawn.
pub(crate) fn show_drawn<N: Sink>(notes: &mut N, shows: bool, percent: u32) {
    if shows {
        let _ = write_drawn(notes, percent);
    }
}

/// Takes the last word on it away.
pub(crate) fn end_progress<N: Sink>(notes: &mut N, shows: bool) {
    if shows {
        let _ = write_all(notes, b"\r\x1b[K");
    }
}
