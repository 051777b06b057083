ghost use Rattle.std.specs.Prelude.{◌≡◌, ◌+◌, ◌≤◌, ◌<◌, [], ◌∷◌, ◌++◌, length};
ghost use Rattle.std.specs.Fmt.{decimal};
ghost use Rattle.history_book.specs.Trace.{line_end, line_of, space, word_of_code};

use asio_types::{Code, Event};
use std::marker::Model;

/// One line of a trace while it is put together; it takes no memory. Contracts see the list of its
/// bytes.
#[derive(Drop)]
pub(crate) struct TraceLine {
    bytes: [u8; 64],
    len: usize,
}

impl Model for TraceLine {
    ghost use Rattle.std.specs.Prelude.{ℕ, ◌≤◌, List, take};

    ghost Value = { List ℕ };

    ghost view = { λ l. take l.len l.bytes };

    ghost invariant = { λ l. l.len ≤ 64 };
}

impl TraceLine {
    /// The line of this event.
    pub(crate) fn of_event(event: &Event) -> TraceLine
        ensures { result ≡ line_of event.now }
    {
        match *event {
            Event::Call { act } => TraceLine::of_number(b"call ", act as u64),
            Event::Back { act } => TraceLine::of_number(b"back ", act as u64),
            Event::Stop { act: Some(act) } => TraceLine::of_number(b"stop ", act as u64),
            Event::Stop { act: None } => TraceLine::of_word(b"stop -"),
            Event::Begin { op, code, size } => TraceLine::of_outcome(b"begin ", op, code, size),
            Event::End { op, mark } => TraceLine::of_mark(b"end ", op, mark),
            Event::Take { act } => TraceLine::of_number(b"take ", act as u64),
            Event::Done { op, code, size } => TraceLine::of_outcome(b"done ", op, code, size),
            Event::Tick { now } => TraceLine::of_number(b"tick ", now),
            Event::Last => TraceLine::of_word(b"last"),
            Event::Fault => TraceLine::of_word(b"fault"),
            Event::Ended => TraceLine::of_word(b"ended"),
            Event::Stopped => TraceLine::of_word(b"stopped"),
            Event::Polled => TraceLine::of_word(b"polled"),
            Event::Restart => TraceLine::of_word(b"restart"),
            Event::Dropped { op, mark } => TraceLine::of_mark(b"drop ", op, mark),
        }
    }

    /// The bytes so far.
    pub(crate) fn as_slice(&self) -> &[u8]
        ensures { result.now ≡ self.now }
    {
        &self.bytes[..self.len]
    }

    fn of_word(word: &[u8]) -> TraceLine
        requires { length word.now ≤ 8 }
        ensures { result ≡ word.now ++ line_end }
    {
        let mut line = TraceLine::empty();
        line.push_word(word);
        line.push_word(b"\n");
        line
    }

    fn of_number(word: &[u8], number: u64) -> TraceLine
        requires { length word.now ≤ 8 }
        ensures { result ≡ word.now ++ decimal number ++ line_end }
    {
        let mut line = TraceLine::empty();
        line.push_word(word);
        line.push_number(number);
        line.push_word(b"\n");
        line
    }

    fn of_mark(word: &[u8], op: u32, mark: u64) -> TraceLine
        requires { length word.now ≤ 8 }
        ensures { result ≡ word.now ++ decimal op ++ space ++ decimal mark ++ line_end }
    {
        let mut line = TraceLine::empty();
        line.push_word(word);
        line.push_number(op as u64);
        line.push_word(b" ");
        line.push_number(mark);
        line.push_word(b"\n");
        line
    }

    fn of_outcome(word: &[u8], op: u32, code: Code, size: u32) -> TraceLine
        requires { length word.now ≤ 8 }
        ensures { result
            ≡ word.now ++ decimal op ++ space ++ word_of_code code ++ space ++ decimal size
            ++ line_end }
    {
        let mut line = TraceLine::empty();
        line.push_word(word);
        line.push_number(op as u64);
        line.push_word(b" ");
        line.push_word(word_of(code));
        line.push_word(b" ");
        line.push_number(size as u64);
        line.push_word(b"\n");
        line
    }

    fn empty() -> TraceLine
        ensures { result ≡ [] }
    {
        TraceLine {
            bytes: [0; 64],
            len: 0,
        }
    }

    fn push(&mut self, byte: u8)
        requires { length self.old < 64 }
        ensures { self.new ≡ self.old ++ byte ∷ [] }
    {
        self.bytes[self.len] = byte;
        self.len += 1;
    }

    fn push_word(&mut self, word: &[u8])
        requires { length self.old + length word.now ≤ 64 }
        ensures held { self.new ≡ self.old ++ word.now }
        ensures grown { length self.new ≡ length self.old + length word.now }
    {
        for byte in word {
            self.push(*byte);
        }
    }

    fn push_number(&mut self, number: u64)
        requires { length self.old + 20 ≤ 64 }
        ensures held { self.new ≡ self.old ++ decimal number }
        ensures grown { length self.new ≤ length self.old + 20 }
    {
        self.push_digits(number);
    }

    fn push_digits(&mut self, number: u64)
        requires { length self.old + length (decimal number) ≤ 64 }
        ensures { self.new ≡ self.old ++ decimal number }
    {
        if number < 10 {
            self.push(b'0' + number as u8);
        } else {
            self.push_digits(number / 10);
            self.push(b'0' + (number % 10) as u8);
        }
    }
}

fn word_of(code: Code) -> &'static [u8]
    ensures word { result.now ≡ word_of_code code }
    ensures short { length result.now ≤ 9 }
{
    match code {
        Code::Ok => b"ok",
        Code::Aborted => b"aborted",
        Code::Eof => b"eof",
        Code::NotFound => b"not_found",
        Code::Bad => b"bad",
        Code::Broken => b"broken",
        Code::Reset => b"reset",
    }
}
