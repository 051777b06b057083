use std::alloc::Global;
use text_places::{JsonLine, Text, excerpt_at, line_round, lines_of};

/// A file of a command: its name, as it was given, and its text.
#[derive(Clone, Copy)]
pub struct FileText<'t> {
    /// The name; `-` is standard input.
    pub name: &'t str,
    /// The text.
    pub text: &'t [u8],
}

/// The name of a file as it is shown.
pub fn shown_name(name: &str) -> &str {
    if name == "-" { "standard input" } else { name }
}

/// What kind of fault it is.
#[derive(Clone, Copy)]
pub enum FaultKind {
    /// The script is refused by the rule with this number, at the token with this one.
    Refused {
        /// The number of the rule.
        rule: u8,
        /// The number of the token, from 1; 0 where there is none.
        token: u32,
    },
    /// The trace is bad.
    BadTrace,
}

/// A place in a file.
#[derive(Clone, Copy)]
pub struct Place {
    /// How many bytes stand before it.
    pub at: usize,
    /// How many bytes are meant.
    pub width: usize,
    /// Its column, from 1.
    pub column: usize,
}

/// A fault of a file: where it stands, and what is wrong in words.
#[derive(Drop)]
pub struct Fault<'t> {
    /// Of what it is.
    pub kind: FaultKind,
    /// The file.
    pub file: FileText<'t>,
    /// The line of the file, from 1; 0 where the whole file is meant.
    pub line: u64,
    /// The place; none where the whole file is meant.
    pub place: Option<Place>,
    /// What is wrong.
    pub title: Text,
    /// What could stand in the place; empty where nothing is said.
    pub could_stand: Text,
    /// Hints, a line each.
    pub hints: Text,
}

/// The line, and carets below the place, with the line's number before it.
fn write_excerpt(alloc: Global, text: &mut Text, fault: &Fault, place: Place, gutter: usize) {
    let (line, at) = line_round(fault.file.text, place.at);
    let Ok(made) = excerpt_at(alloc, line, at, place.width) else {
        return text.cut();
    };
    text.blanks(gutter);
    text.line(" |");
    text.number(fault.line);
    text.words(" | ");
    text.bytes(made.shown.as_slice());
    text.words("\n");
    text.blanks(gutter);
    text.words(" | ");
    text.bytes(made.carets.as_slice());
    text.words("\n");
}

/// Where it stands: the file, the line and the column.
fn write_place(text: &mut Text, fault: &Fault) {
    text.words("--> ");
    text.words(shown_name(fault.file.name));
    if let Some(place) = fault.place {
        text.field(":", fault.line);
        text.field(":", place.column as u64);
    }
    text.words("\n");
}

/// A line of help behind its heading.
fn write_help_line(text: &mut Text, gutter: usize, heading: &str, line: &[u8]) {
    text.blanks(gutter);
    text.words(heading);
    text.bytes(line);
    text.words("\n");
}

/// What could stand in the place, and the hints.
fn write_help(text: &mut Text, could_stand: &[u8], hints: &[u8], gutter: usize) {
    if !could_stand.is_empty() {
        write_help_line(text, gutter, " = could stand here: ", could_stand);
    }
    for hint in lines_of(hints) {
        write_help_line(text, gutter, " = hint: ", hint);
    }
}

impl Fault<'_> {
    /// Writes the fault as a compiler says it: what is wrong, the file with line and column, the line
    /// with carets below the place, what could stand there, and hints.
    pub fn write_text(&self, alloc: Global, text: &mut Text) {
        let gutter = itoa::Buffer::new().format(self.line).len();
        text.words("error: ");
        text.bytes(self.title.as_bytes());
        text.words("\n");
        text.blanks(gutter);
        write_place(text, self);
        if let Some(place) = self.place {
            write_excerpt(alloc, text, self, place, gutter);
        }
        write_help(
            text,
            self.could_stand.as_bytes(),
            self.hints.as_bytes(),
            gutter,
        );
        self.cut(text);
    }

    /// Says of a text with the fault that it isn't whole, where a part of the fault isn't.
    fn cut(&self, text: &mut Text) {
        if self.title.faults > 0 || self.could_stand.faults > 0 || self.hints.faults > 0 {
            text.cut();
        }
    }

    /// Writes the fault as one object, with the exit status that it gives.
    pub fn write_json(&self, alloc: Global, status: u8, text: &mut Text) {
        let mut line = JsonLine::begin(alloc, shown_name(self.file.name), status);
        line.words(
            "verdict",
            match self.kind {
                FaultKind::Refused { .. } => "refused",
                FaultKind::BadTrace => "bad trace",
            },
        );
        line.number("line", self.line);
        if let Some(place) = self.place {
            line.number("column", place.column as u64);
        }
        if let FaultKind::Refused { rule, token } = self.kind {
            line.number("token", token as u64);
            line.number("rule", rule as u64);
        }
        line.text("message", self.title.as_bytes());
        if !self.could_stand.bytes.is_empty() {
            line.text("could_stand", self.could_stand.as_bytes());
        }
        line.lines("hints", self.hints.as_bytes());
        line.end(text);
        self.cut(text);
    }
}
