use crate::form::Form;
use crate::status::Status;
use asio_types::{Sink, Source, write_all};
use run_names::{Names, NotNamed, read_names};
use run_picture::{Scene, Unread, Window, read_scene, write_picture};
use run_reader::LineReader;
use run_verdict::{
    Against, Ending, Judge, NotTold, find_against, judge_run, take_run, write_against,
    write_ending, write_owed_lines,
};
use std::alloc::Global;
use text_io::{BufferedSink, write_field};

/// The same run, to be read three times.
#[derive(Drop)]
pub struct Sources<S> {
    pub first: S,
    pub second: S,
    pub third: S,
}

/// Writes what came of a run, and answers the status.
fn say<K: Sink>(out: &mut K, ending: &Ending) -> Status {
    match write_ending(out, ending) {
        Ok(()) => Status::of(ending),
        Err(_) => Status::WriteFault,
    }
}

/// The verdict on a run.
pub fn check<S: Source, K: Sink>(
    alloc: Global,
    form: &Form<'_>,
    source: &mut S,
    out: &mut K,
) -> Status {
    match judge_run(alloc, form.level, source) {
        Ok(ending) => say(out, &ending),
        Err(_) => Status::NoMemory,
    }
}

/// Writes which line stands against the one that breaks a rule, and answers the status.
fn say_against<K: Sink>(out: &mut K, names: &Names, against: Option<Against>) -> Status {
    match against {
        Some(against) => match write_against(out, names, &against) {
            Ok(()) => Status::NotLegal,
            Err(_) => Status::WriteFault,
        },
        None => Status::NotLegal,
    }
}

/// The status where the second reading doesn't come as far as the first one.
fn status_again(ending: &Ending) -> Status {
    match ending {
        Ending::NoRoom { .. } => Status::NoMemory,
        _ => Status::ReadFault,
    }
}

/// Writes what stands against the line that was found, by a reader and a judge that are new.
fn answer_against<S: Source, K: Sink>(
    reader: &mut LineReader,
    judge: &Judge,
    again: &mut Judge,
    ending: &Ending,
    second: &mut S,
    names: &Names,
    out: &mut K,
) -> Status {
    match find_against(reader, judge, again, ending, second) {
        Ok(against) => say_against(out, names, against),
        Err(ending) => status_again(&ending),
    }
}

/// Writes which lines tell of what is under way, by a reader and a judge that are new.
fn answer_owed<S: Source, K: Sink>(
    reader: &mut LineReader,
    judge: &Judge,
    again: &mut Judge,
    lines: u64,
    second: &mut S,
    names: &Names,
    out: &mut K,
) -> Status {
    match write_owed_lines(reader, judge, again, second, lines, names, out) {
        Ok(()) => Status::NotLegal,
        Err(NotTold::Unwritten) => Status::WriteFault,
        Err(NotTold::Unread { ending }) => status_again(&ending),
    }
}

/// What stands against the verdict of a judge, or what is under way, in the names of the run.
fn answer_why<S: Source, K: Sink>(
    alloc: Global,
    judge: &Judge,
    form: &Form<'_>,
    ending: &Ending,
    second: &mut S,
    names: &Names,
    out: &mut K,
) -> Status {
    let Ok(mut reader) = LineReader::make(alloc) else {
        return Status::NoMemory;
    };
    let mut again = Judge::new(alloc, form.level);
    match ending {
        Ending::SoFar { lines, .. } => answer_owed(
            &mut reader,
            judge,
            &mut again,
            *lines,
            second,
            names,
            out,
        ),
        _ => answer_against(&mut reader, judge, &mut again, ending, second, names, out),
    }
}

/// The verdict, and what stands against it, by a judge that has followed nothing.
fn answer<S: Source, K: Sink>(
    alloc: Global,
    judge: &mut Judge,
    form: &Form<'_>,
    sources: &mut Sources<S>,
    out: &mut K,
) -> Status {
    let Ok(mut reader) = LineReader::make(alloc) else {
        return Status::NoMemory;
    };
    let ending = take_run(&mut reader, judge, &mut sources.first);
    let status = say(out, &ending);
    if status != Status::NotLegal {
        return status;
    }
    match read_names(alloc, &mut sources.third) {
        Ok(names) => answer_why(
            alloc,
            judge,
            form,
            &ending,
            &mut sources.second,
            &names,
            out,
        ),
        Err(NotNamed::ReadFault) => Status::ReadFault,
        Err(NotNamed::NoMemory) => Status::NoMemory,
    }
}

/// The verdict on a run, and which line stands against the one that breaks a rule, or which lines tell
/// of what is under way at the end. The same run is read once more for each of both, and for the names.
pub fn why<S: Source, K: Sink>(
    alloc: Global,
    form: &Form<'_>,
    sources: &mut Sources<S>,
    out: &mut K,
) -> Status {
    let mut judge = Judge::new(alloc, form.level);
    answer(alloc, &mut judge, form, sources, out)
}

/// Writes a picture behind a buffer.
fn draw<K: Sink + Drop>(alloc: Global, out: K, scene: &Scene) -> Status {
    let Ok(mut buffered) = BufferedSink::make(alloc, out, 32_768) else {
        return Status::NoMemory;
    };
    let Ok(()) = write_picture(&mut buffered, scene) else {
        return Status::WriteFault;
    };
    match buffered.flush() {
        Ok(()) => Status::Legal,
        Err(_) => Status::WriteFault,
    }
}

/// Notes that a line is none of a run.
fn note_bad<N: Sink>(notes: &mut N, at: u64) -> Status {
    let number = at.min(u32::MAX as u64) as u32;
    let _ = write_field(notes, b"run_judge: bad run at line ", number);
    let _ = write_all(notes, b"\n");
    Status::Bad
}

/// A picture of the lines of a window.
pub fn picture<S: Source, K: Sink + Drop, N: Sink>(
    alloc: Global,
    window: Window,
    source: &mut S,
    out: K,
    notes: &mut N,
) -> Status {
    match read_scene(alloc, source, window) {
        Ok(scene) => draw(alloc, out, &scene),
        Err(Unread::Bad { at }) => note_bad(notes, at),
        Err(Unread::ReadFault) => Status::ReadFault,
        Err(Unread::NoMemory) => Status::NoMemory,
    }
}
