ghost use Rattle.std.specs.Prelude.{◌≡◌, ◌+◌, ◌≤◌, [], ◌∷◌, ◌++◌, length};
ghost use Rattle.std.specs.Fmt.{decimal};
ghost use Rattle.run_lines.specs.Code.{IsCode, code_text};
ghost use Rattle.run_lines.specs.Line.{IsDoing, IsLine, doing_words, line_text};
ghost use Rattle.run_lines.specs.LineText.{with_all_words, with_words};
ghost use Rattle.run_lines.specs.Number.{Is64, IsOptional, optional_text};

use crate::code::Code;
use crate::line::{Doing, Line};
use crate::word::Word;
use itoa::Buffer;
use std::marker::Model;

/// The most bytes of a line: a call whose numbers have 20 digits, and its word 32 letters.
pub const MOST_LINE: usize = 142;

/// The text of a line, without the line feed at its end; it takes no memory. Contracts see the list
/// of its bytes.
#[derive(Drop)]
pub struct LineText {
    bytes: [u8; 142],
    len: usize,
}

impl Model for LineText {
    ghost use Rattle.std.specs.Prelude.{ℕ, ◌≤◌, List, take};

    ghost Value = { List ℕ };

    ghost view = { λ l. take l.len l.bytes };

    ghost invariant = { λ l. l.len ≤ 142 };
}

impl LineText {
    /// The text of this line, which is read as this line again.
    pub fn of(line: &Line) -> LineText
        ensures text { result ≡ line_text line.now }
        ensures readable { IsLine line.now }
    {
        LineText::with_all_words(line)
    }

    /// The bytes.
    pub fn as_slice(&self) -> &[u8]
        ensures value { result.now ≡ self.now }
        ensures short { length result.now ≤ 142 }
    {
        &self.bytes[..self.len]
    }

    fn with_all_words(line: &Line) -> LineText
        ensures text { result ≡ with_all_words line.now }
        ensures readable { IsLine line.now }
    {
        let thread = line.thread;
        match line.does {
            Doing::Call {
                op,
                word,
                context,
                strand,
                thing,
            } => LineText::of_call(thread, op, word, context, strand, thing),
            Doing::Back { op } => LineText::of_one(thread, b"back", op),
            Doing::Done { op, code, size } => LineText::of_outcome(thread, b"done", op, code, size),
            Doing::Begin { op, code, size } => LineText::of_outcome(
                thread, b"begin", op, code, size,
            ),
            Doing::End { op } => LineText::of_one(thread, b"end", op),
            Doing::Throw { op } => LineText::of_one(thread, b"throw", op),
            Doing::Drop { op } => LineText::of_one(thread, b"drop", op),
            Doing::Claim { thing } => LineText::of_one(thread, b"claim", thing),
            Doing::Release { thing } => LineText::of_one(thread, b"release", thing),
            Doing::Lock { lock } => LineText::of_one(thread, b"lock", lock),
            Doing::Unlock { lock } => LineText::of_one(thread, b"unlock", lock),
            Doing::Mark { mark } => LineText::of_one(thread, b"mark", mark),
            Doing::After { mark } => LineText::of_one(thread, b"after", mark),
            Doing::Cancel { thing } => LineText::of_one(thread, b"cancel", thing),
            Doing::Work { context } => LineText::of_one(thread, b"work", context),
            Doing::Stop { context } => LineText::of_one(thread, b"stop", context),
            Doing::Restart { context } => LineText::of_one(thread, b"restart", context),
        }
    }

    fn of_one(thread: u64, verb: &[u8], number: u64) -> LineText
        requires { length verb.now ≤ 7 }
        ensures text { result ≡ with_words (decimal thread) (verb.now ∷ decimal number ∷ []) }
        ensures thread { Is64 thread }
        ensures number { Is64 number }
    {
        let mut text = LineText::of_thread(thread);
        text.push_word(verb);
        text.push_number(number);
        text
    }

    fn of_outcome(thread: u64, verb: &[u8], op: u64, code: Code, size: u64) -> LineText
        requires { length verb.now ≤ 7 }
        ensures text { result
            ≡ with_words (decimal thread)
            (verb.now ∷ decimal op ∷ code_text code ∷ decimal size ∷ []) }
        ensures thread { Is64 thread }
        ensures op { Is64 op }
        ensures code { IsCode code }
        ensures size { Is64 size }
    {
        let mut text = LineText::of_thread(thread);
        text.push_word(verb);
        text.push_number(op);
        text.push_word(code.as_slice());
        text.push_number(size);
        text
    }

    fn of_call(
        thread: u64,
        op: u64,
        word: Word,
        context: u64,
        strand: Option<u64>,
        thing: Option<u64>,
    ) -> LineText
        ensures text { result
            ≡ with_words (decimal thread)
            (doing_words (Doing.Call op word context strand thing)) }
        ensures thread { Is64 thread }
        ensures readable { IsDoing (Doing.Call op word context strand thing) }
    {
        let mut text = LineText::of_thread(thread);
        text.push_word(b"call");
        text.push_number(op);
        text.push_word(word.as_slice());
        text.push_number(context);
        text.push_optional(strand);
        text.push_optional(thing);
        text
    }

    fn of_thread(thread: u64) -> LineText
        ensures text { result ≡ decimal thread }
        ensures short { length result ≤ 20 }
    {
        let mut text = LineText {
            bytes: [0; 142],
            len: 0,
        };
        let mut digits = Buffer::new();
        text.push_all(digits.format(thread).as_bytes());
        text
    }

    fn push_all(&mut self, bytes: &[u8])
        requires { length self.old + length bytes.now ≤ 142 }
        ensures { self.new ≡ self.old ++ bytes.now }
    {
        self.bytes[self.len..self.len + bytes.len()].copy_from_slice(bytes);
        self.len += bytes.len();
    }

    /// A space and a word.
    fn push_word(&mut self, word: &[u8])
        requires { length self.old + length word.now + 1 ≤ 142 }
        ensures held { self.new ≡ self.old ++ 32 ∷ word.now }
        ensures grown { length self.new ≡ length self.old + length word.now + 1 }
    {
        self.push_all(b" ");
        self.push_all(word);
    }

    /// A space and a number.
    fn push_number(&mut self, number: u64)
        requires { length self.old + 21 ≤ 142 }
        ensures held { self.new ≡ self.old ++ 32 ∷ decimal number }
        ensures grown { length self.new ≤ length self.old + 21 }
    {
        let mut digits = Buffer::new();
        self.push_word(digits.format(number).as_bytes());
    }

    /// A space, and a number or `-`.
    fn push_optional(&mut self, number: Option<u64>)
        requires { length self.old + 21 ≤ 142 }
        ensures held { self.new ≡ self.old ++ 32 ∷ optional_text number }
        ensures grown { length self.new ≤ length self.old + 21 }
        ensures fits { IsOptional number }
    {
        match number {
            Some(number) => self.push_number(number),
            None => self.push_word(b"-"),
        }
    }
}
