//! The events of a trace as objects.
use crate::names::{NamedKind, Names};
use asio_types::NoMemory;
use fault_reports::{Field, event_words};
use std::alloc::Global;
use std::str;
use text_places::{JsonLine, Text, lines_of, pieces_of};

/// The number that a word of a trace is.
fn number_of(word: &[u8]) -> u64 {
    let text = str::from_utf8(word).unwrap_or("");
    text.parse::<u64>().unwrap_or(0)
}

/// An act, and its name, where it has one; `-` is none.
fn write_act(object: &mut JsonLine, names: &Names, word: &[u8]) {
    if word == b"-".as_slice() {
        return;
    }
    let act = number_of(word);
    object.number("act", act);
    if let Ok(act) = u32::try_from(act) {
        if let Some(name) = names.find(NamedKind::Act, act) {
            object.words("name", name);
        }
    }
}

/// What a field of a line says.
fn write_member(object: &mut JsonLine, names: &Names, field: Field, word: &[u8]) {
    match field {
        Field::Act | Field::StopAct | Field::Operation => write_act(object, names, word),
        Field::Code => object.text("code", word),
        Field::Size => object.number("size", number_of(word)),
        Field::Mark => object.number("mark", number_of(word)),
        Field::Time => object.number("time", number_of(word)),
    }
}

/// A line of a trace as an object: its number, the word of the event, and its fields.
fn write_object(alloc: Global, names: &Names, number: u64, line: &[u8], text: &mut Text) {
    let mut object = JsonLine::empty(alloc);
    object.number("line", number);
    let mut fields: &[Field] = &[];
    for (i, word) in pieces_of(line, b' ').enumerate() {
        if i == 0 {
            object.text("event", word);
            fields = fields_of(word);
        } else if let Some(field) = fields.get(i - 1) {
            write_member(&mut object, names, *field, word);
        }
    }
    object.end(text);
}

/// What stands behind the first word of a line.
fn fields_of(word: &[u8]) -> &'static [Field] {
    match event_words(word) {
        Some(event) => event.fields,
        None => &[],
    }
}

/// The trace of a session that was run as objects, one a line, with the names that the head of its
/// script gives.
pub fn trace_objects(alloc: Global, head: &[u8], trace: &[u8]) -> Result<Vec<u8>, NoMemory> {
    let names = Names::of_head(alloc, head)?;
    let mut text = Text::empty(alloc);
    let mut number = 0u64;
    for line in lines_of(trace) {
        number = number.saturating_add(1);
        write_object(alloc, &names, number, line, &mut text);
    }
    text.finish()
}
