//! What is wrong with a line of a trace that is no line of an event.
ghost use Rattle.std.specs.Prelude.{◌≡◌, ◌≢◌, ◌+◌, ◌≤◌, ◌<◌, ℕ, IfSome, None, length, slice_index, take};
ghost use Rattle.text_places.specs.Lines.{IsLineAt, line_feeds};
ghost use Rattle.fault_reports.specs.FaultPlace.{IsFileSpot, IsOnLine, IsTraceSpot, trace_fault_line};

use crate::event_fields::{CODES, EVENTS, EventWords, Field, event_words, is_code};
use crate::fault::{Fault, FaultKind, FileText, Place};
use crate::hint_token::{BYTE_ORDER_MARK, near_word_hint};
use crate::place::place_in;
use std::alloc::Global;
use std::str;
use text_places::{Text, digits_len, len_before, line_begin, lines_in, pieces_of};

/// A trace, and where in its file it begins.
#[derive(Clone, Copy)]
pub struct TracePart<'t> {
    /// The file.
    pub file: FileText<'t>,
    /// How many of its bytes stand before the trace.
    pub begin: usize,
    /// The trace.
    pub text: &'t [u8],
}

/// Where in a line the fault stands, and what it is.
#[derive(Drop)]
struct Found {
    at: usize,
    width: usize,
    what: Text,
    could_stand: Text,
    hints: Text,
}

impl Found {
    /// Nothing yet.
    fn nothing(alloc: Global) -> Found {
        Found {
            at: 0,
            width: 1,
            what: Text::empty(alloc),
            could_stand: Text::empty(alloc),
            hints: Text::empty(alloc),
        }
    }

    /// What is wrong with so many bytes at a place.
    fn say(&mut self, at: usize, width: usize, what: &str) {
        self.at = at;
        self.width = width;
        self.what.words(what);
    }

    /// A word that isn't what its field wants.
    fn say_word(&mut self, at: usize, word: &[u8], why: &str) {
        self.say(at, word.len(), "");
        self.what.quoted("", word);
        self.what.words(why);
    }

    /// How such a line looks.
    fn show_example(&mut self, event: &EventWords) {
        self.hints
            .quoted("the line looks so: ", event.example.as_bytes());
        self.hints.words("\n");
    }
}

/// How many blanks stand at the end of a line.
fn blanks_at_end(line: &[u8]) -> usize {
    let mut blanks = 0usize;
    for byte in line {
        let is_blank = *byte == b' ' || *byte == b'\t';
        blanks = if is_blank {
            blanks.saturating_add(1)
        } else {
            0
        };
    }
    blanks
}

/// A fault of the line's front. Says whether there is one.
fn front_fault(line: &[u8], found: &mut Found) -> bool {
    if line.is_empty() {
        found.say(0, 1, "an empty line");
    } else if line.starts_with(BYTE_ORDER_MARK) {
        found.say(0, 1, "a byte order mark");
        found.hints.line("save the trace without one");
    } else if line.starts_with(b"#") || line.starts_with(b"//") {
        found.say(0, line.len(), "a trace has no comments");
    } else {
        return false;
    }
    true
}

/// A fault of the line's end. Says whether there is one.
fn end_fault(line: &[u8], found: &mut Found) -> bool {
    if line.ends_with(b"\r") {
        found.say(line.len().saturating_sub(1), 1, "the line ends with CR LF");
        found.hints.line("lines of a trace end with LF alone");
        return true;
    }
    let blanks = blanks_at_end(line);
    if blanks > 0 {
        let what = "blanks at the end of the line";
        found.say(line.len().saturating_sub(blanks), blanks, what);
    }
    blanks > 0
}

/// More than one blank between two words, or another one than a space. Says whether there is one.
fn blank_fault(line: &[u8], found: &mut Found) -> bool {
    let mut is_behind_blank = true;
    for (at, byte) in line.iter().enumerate() {
        if *byte == b'\t' || (*byte == b' ' && is_behind_blank) {
            found.say(
                at,
                1,
                "one space, and no other blank, stands between two words",
            );
            return true;
        }
        is_behind_blank = *byte == b' ';
    }
    false
}

/// What is wrong with a number that is to be below 2^32, or below 2^64; none where nothing is.
fn number_fault(word: &[u8], is_wide: bool) -> Option<&'static str> {
    if digits_len(word) < word.len() || word.is_empty() {
        return Some(" is no number");
    }
    if word.len() > 1 && word.starts_with(b"0") {
        return Some(" has a leading zero");
    }
    if is_below(word, if is_wide { u64::MAX } else { u32::MAX as u64 }) {
        None
    } else {
        Some(" is too large")
    }
}

/// Whether digits are those of a number up to this one.
fn is_below(digits: &[u8], most: u64) -> bool {
    let text = str::from_utf8(digits).unwrap_or("");
    match text.parse::<u64>() {
        Ok(number) => number <= most,
        Err(_) => false,
    }
}

/// What could stand in the place of a number.
fn numbers_line(is_wide: bool) -> &'static str {
    if is_wide {
        "a number from 0 to 18446744073709551615"
    } else {
        "a number from 0 to 4294967295"
    }
}

/// What is wrong with the word of a code. Says whether something is.
fn code_fault(alloc: Global, at: usize, word: &[u8], found: &mut Found) -> bool {
    let is_code = is_code(word);
    if !is_code {
        found.say_word(at, word, " is no code");
        found.could_stand.words(CODES);
        near_word_hint(alloc, word, CODES.as_bytes(), &mut found.hints);
    }
    !is_code
}

/// What is wrong with the word of a number, in whose place other words may stand too. Says whether
/// something is.
fn number_word_fault(
    is_wide: bool,
    others: &str,
    at: usize,
    word: &[u8],
    found: &mut Found,
) -> bool {
    let Some(why) = number_fault(word, is_wide) else {
        return false;
    };
    found.say_word(at, word, why);
    found.could_stand.words(others);
    found.could_stand.words(numbers_line(is_wide));
    true
}

/// What is wrong with the word of a field. Says whether something is.
fn field_fault(alloc: Global, field: Field, at: usize, word: &[u8], found: &mut Found) -> bool {
    match field {
        Field::Code => code_fault(alloc, at, word, found),
        Field::StopAct => {
            word != b"-".as_slice() && number_word_fault(false, "`-`, ", at, word, found)
        }
        _ => number_word_fault(field.is_wide(), "", at, word, found),
    }
}

/// What is wrong with a word behind that of an event, of which so many stand before it. Says whether
/// something is.
fn word_fault(
    alloc: Global,
    event: &EventWords,
    before: usize,
    at: usize,
    word: &[u8],
    found: &mut Found,
) -> bool {
    match event.fields.get(before) {
        Some(field) => field_fault(alloc, *field, at, word, found),
        None => {
            found.say_word(at, word, " is too much");
            found.show_example(event);
            true
        }
    }
}

/// What is wrong with the fields behind the word of an event. Says whether something is.
fn fields_fault(alloc: Global, line: &[u8], event: &EventWords, found: &mut Found) -> bool {
    let mut at = 0usize;
    for (i, word) in pieces_of(line, b' ').enumerate() {
        if i > 0 && word_fault(alloc, event, i - 1, at, word, found) {
            return true;
        }
        at = at.saturating_add(word.len()).saturating_add(1);
    }
    missing_fault(line, event, found)
}

/// How many words stand behind the first one of a line, with one space before each.
fn words_behind(line: &[u8]) -> usize {
    let mut words = 0usize;
    for byte in line {
        if *byte == b' ' {
            words = words.saturating_add(1);
        }
    }
    words
}

/// A field that is missing. Says whether one is.
fn missing_fault(line: &[u8], event: &EventWords, found: &mut Found) -> bool {
    match event.fields.get(words_behind(line)) {
        Some(field) => {
            found.say(line.len(), 1, field.missing());
            found.show_example(event);
            true
        }
        None => false,
    }
}

/// What is wrong with the words of a line. Says whether something is.
fn words_fault(alloc: Global, line: &[u8], found: &mut Found) -> bool {
    let (first, _) = line.split_at(len_before(line, b' '));
    match event_words(first) {
        Some(event) => fields_fault(alloc, line, event, found),
        None => {
            say_no_event(alloc, first, found);
            true
        }
    }
}

/// A first word that is that of no event.
fn say_no_event(alloc: Global, word: &[u8], found: &mut Found) {
    found.say(0, word.len(), "no event is called ");
    found.what.quoted("", word);
    found.could_stand.words(EVENTS);
    near_word_hint(alloc, word, EVENTS.as_bytes(), &mut found.hints);
}

/// What is wrong with a line that is no line of an event, or has no line end.
fn line_fault(alloc: Global, line: &[u8], is_ended: bool, found: &mut Found) {
    let is_told = front_fault(line, found)
        || end_fault(line, found)
        || blank_fault(line, found)
        || words_fault(alloc, line, found);
    if is_told {
        return;
    }
    if is_ended {
        found.say(0, line.len(), "this is no line of an event");
    } else {
        found.say(line.len(), 1, "the last line has no line end");
        found.hints.line("each line of a trace ends with a line feed, the last one too");
    }
}

/// The line of a text that begins here, without its line end.
fn line_from(text: &[u8], begin: usize) -> &[u8]
    requires { begin ≤ length text.now }
    ensures within { begin + length result.now ≤ length text.now }
    ensures line { (k : ℕ) → begin ≤ k → k < begin + length result.now →
        slice_index text.now k ≢ 10 }
{
    let (_, rest) = text.split_at(begin);
    let (line, _) = rest.split_at(len_before(rest, b'\n'));
    line
}

/// What is wrong with this line of a trace, in words.
fn title_of(alloc: Global, line: u32, what: &Text) -> Text {
    let mut title = Text::empty(alloc);
    title.field("bad trace at line ", line as u64);
    title.words(": ");
    title.bytes(what.as_bytes());
    if what.faults > 0 {
        title.cut();
    }
    title
}

/// The place of what was found in this line, which begins there.
fn place_of(trace: TracePart, number: u32, begin: usize, at: usize, width: usize) -> Place
    requires { IsLineAt trace.text.now number begin }
    ensures { trace.entry.begin + length trace.entry.text.now ≤ length trace.entry.file.text.now →
        IsFileSpot trace.entry.file.text.now trace.entry.begin
        (IsOnLine trace.entry.text.now number) result }
{
    let line = line_from(trace.text, begin);
    place_in(
        trace.file.text,
        trace.begin,
        begin + at.min(line.len()),
        width,
    )
}

/// The fault of a trace that is too long.
fn long_trace_fault(alloc: Global, trace: TracePart<'_>) -> Fault<'_>
    ensures { result.place ≡ None }
{
    let mut title = Text::empty(alloc);
    title.words("bad trace: it has more than 1,048,576 bytes");
    Fault {
        kind: FaultKind::BadTrace,
        file: trace.file,
        line: 0,
        place: None,
        title,
        could_stand: Text::empty(alloc),
        hints: Text::empty(alloc),
    }
}

/// How many lines of its file stand before a trace.
fn lines_before(trace: TracePart) -> usize
    ensures value { trace.entry.begin ≤ length trace.entry.file.text.now →
        result ≡ line_feeds (take trace.entry.begin trace.entry.file.text.now) }
    ensures bound { result ≤ length trace.entry.file.text.now }
{
    let file = trace.file.text;
    lines_in(&file[..trace.begin.min(file.len())])
}

/// The fault of a line of a trace that begins there.
fn line_fault_at(alloc: Global, trace: TracePart<'_>, line: u32, begin: usize) -> Fault<'_>
    requires { IsLineAt trace.text.now line begin }
    ensures line { trace.entry.begin ≤ length trace.entry.file.text.now →
        result.line ≡ trace_fault_line line trace.entry.file.text.now trace.entry.begin }
    ensures place { IsTraceSpot trace.entry.file.text.now trace.entry.begin
        trace.entry.text.now line result.place }
{
    let mut found = Found::nothing(alloc);
    let text = line_from(trace.text, begin);
    let is_ended = begin + text.len() < trace.text.len();
    line_fault(alloc, text, is_ended, &mut found);
    let title = title_of(alloc, line, &found.what);
    Fault {
        kind: FaultKind::BadTrace,
        file: trace.file,
        line: line as u64 + lines_before(trace) as u64,
        place: Some(place_of(trace, line, begin, found.at, found.width)),
        title,
        could_stand: found.could_stand,
        hints: found.hints,
    }
}

/// The fault of a trace at this line of it; 0 where it is too long. The place is on that line, which
/// is counted in the file.
pub fn trace_fault(alloc: Global, trace: TracePart<'_>, line: u32) -> Fault<'_>
    ensures line { trace.entry.begin ≤ length trace.entry.file.text.now →
        IfSome result.place (λ _. result.line
        ≡ trace_fault_line line trace.entry.file.text.now trace.entry.begin) }
    ensures place { IsTraceSpot trace.entry.file.text.now trace.entry.begin
        trace.entry.text.now line result.place }
{
    match line_begin(trace.text, line) {
        Some(begin) => line_fault_at(alloc, trace, line, begin),
        None => long_trace_fault(alloc, trace),
    }
}
