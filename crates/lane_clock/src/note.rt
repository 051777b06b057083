ghost use Rattle.std.specs.Prelude.{◌≡◌, ◌<◌, Some};
ghost use Rattle.lane_clock.specs.NoteWord.{code_number, code_of, IsNote, note_word, note_in_word};

use asio_types::{Code, OpNo};

/// What a cell holds: an operation that is ready, with how it completed. It is kept in one word.
#[derive(Clone, Copy, Debug, PartialEq, Eq)]
pub struct Note {
    /// The operation, below 65,535.
    pub op: OpNo,
    /// Its `error_code`.
    pub code: Code,
    /// How many bytes were transferred.
    pub size: u32,
}

fn number_of(code: Code) -> u64
    ensures { result ≡ code_number code }
{
    match code {
        Code::Ok => 0,
        Code::Aborted => 1,
        Code::Eof => 2,
        Code::NotFound => 3,
        Code::Bad => 4,
        Code::Broken => 5,
        Code::Reset => 6,
    }
}

fn code_with(number: u64) -> Code
    ensures { result ≡ code_of number }
{
    match number {
        0 => Code::Ok,
        1 => Code::Aborted,
        2 => Code::Eof,
        3 => Code::NotFound,
        4 => Code::Bad,
        5 => Code::Broken,
        _ => Code::Reset,
    }
}

impl Note {
    /// The word of a full cell, which is not 0.
    pub(crate) fn to_word(self) -> u64
        requires op { self.op < 65535 }
        ensures word { result ≡ note_word (Some self) }
        ensures note { IsNote self }
    {
        1 + self.op as u64 + (number_of(self.code) << 16) + ((self.size as u64) << 24)
    }

    /// What a cell with this word holds.
    pub(crate) fn of_word(word: u64) -> Option<Note>
        ensures { result ≡ note_in_word word }
    {
        if word == 0 {
            return None;
        }
        let rest = word - 1;
        Some(Note {
            op: (rest % (1 << 16)) as u32,
            code: code_with(rest / (1 << 16) % (1 << 8)),
            size: (rest / (1 << 24) % (1 << 32)) as u32,
        })
    }
}
