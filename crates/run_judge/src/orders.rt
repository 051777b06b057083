use crate::overlaps::read_lines;
use crate::status::Status;
use asio_types::{Failed, Sink, Source, write_all};
use run_lines::{Line, LineText};
use run_witness::{Fault, Witness, find_witness};
use std::alloc::Global;

fn write_line<K: Sink>(out: &mut K, line: &Line) -> Result<(), Failed> {
    write_all(out, LineText::of(line).as_slice())?;
    write_all(out, b"\n")
}

/// An order as a run of its own.
fn write_order<K: Sink>(out: &mut K, witness: &Witness) -> Result<(), Failed> {
    write_all(out, b"run 1\n")?;
    for step in &witness.steps {
        write_line(out, &step.line)?;
    }
    write_line(out, &witness.last.line)
}

/// Writes an order of a run in which two threads hold this thing at the end.
pub fn order<S: Source, K: Sink>(alloc: Global, source: &mut S, thing: u64, out: &mut K) -> Status {
    let lines = match read_lines(alloc, source) {
        Ok(lines) => lines,
        Err(unread) => return unread.status(),
    };
    match find_witness(alloc, &lines, thing) {
        Ok(Some(witness)) => match write_order(out, &witness) {
            Ok(()) => Status::Legal,
            Err(_) => Status::WriteFault,
        },
        Ok(None) => Status::Unknown,
        Err(Fault::Illegal) => Status::NotLegal,
        Err(Fault::NoRoom) => Status::NoMemory,
    }
}
