ghost use Rattle.std.specs.Prelude.{◌≡◌, ◌++◌, IfOk, IfSome, OnOk, is_some, codes};
ghost use Rattle.std.specs.List.{list_all, position};
ghost use Rattle.chat_handlers.specs.Texts.{IsSaid, is_asked, is_blank, is_word, is_word_byte, name_of, room_of, said_line};

use crate::lines::{next_line, without_return};
use asio_types::NoMemory;

/// The words of rooms and members have at most so many bytes.
const MOST_WORD: usize = 32;

fn is_word_byte(byte: u8) -> bool
    ensures { result ≡ is_word_byte byte }
{
    (byte >= b'a' && byte <= b'z')
        || (byte >= b'A' && byte <= b'Z')
        || (byte >= b'0' && byte <= b'9')
        || byte == b'-'
        || byte == b'_'
}

fn are_word_bytes(word: &[u8]) -> bool
    ensures { result ≡ list_all is_word_byte word.now }
{
    word.iter().all(|byte| is_word_byte(*byte))
}

/// Whether it names a room or a member: letters, digits, `-` and `_`, at most 32 of them.
pub fn is_word(word: &[u8]) -> bool
    ensures { result ≡ is_word word.now }
{
    !word.is_empty() && word.len() <= MOST_WORD && are_word_bytes(word)
}

fn blank_in(line: &[u8]) -> Option<usize>
    ensures { result ≡ position is_blank line.now }
{
    line.iter().position(|byte| *byte == b' ')
}

/// The words of a first line: a room and a name.
pub(crate) fn words_of(line: &[u8]) -> Option<(&[u8], &[u8])>
    ensures asked { is_some result ≡ is_asked line.now }
    ensures room { IfSome result (λ r. r.0.now ≡ room_of line.now) }
    ensures name { IfSome result (λ r. r.1.now ≡ name_of line.now) }
{
    let at = blank_in(line)?;
    let word = &line[..at];
    let name = &line[at + 1..];
    if is_word(word) && is_word(name) {
        Some((word, name))
    } else {
        None
    }
}

/// Appends what a member says by a line.
fn say(text: &mut Vec<u8>, name: &[u8], line: &[u8]) -> Result<(), NoMemory>
    ensures { OnOk result (text.new.items ≡ text.old.items ++ said_line name.now line.now) }
{
    text.extend_from_slice(name)?;
    text.extend_from_slice(b": ")?;
    text.extend_from_slice(without_return(line))?;
    text.extend_from_slice(b"\n")?;
    Ok(())
}

/// Appends what a member says by all lines of these bytes; answers what is behind them.
pub(crate) fn say_all<'a>(
    text: &mut Vec<u8>,
    name: &[u8],
    bytes: &'a [u8],
) -> Result<&'a [u8], NoMemory>
    ensures { IfOk result (λ rest. IsSaid name.now bytes.now text.old.items text.new.items rest.now) }
{
    let mut rest = bytes;
    'lines: while let Some((line, behind)) = next_line(rest) {
        say(text, name, line)?;
        rest = behind;
    }
    Ok(rest)
}

/// Appends that a member did this.
pub(crate) fn tell_of(text: &mut Vec<u8>, name: &[u8], did: &[u8]) -> Result<(), NoMemory>
    ensures { OnOk result (text.new.items ≡ text.old.items ++ (codes "* " ++ name.now ++ did.now)) }
{
    text.extend_from_slice(b"* ")?;
    text.extend_from_slice(name)?;
    text.extend_from_slice(did)?;
    Ok(())
}
