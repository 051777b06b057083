ghost use Rattle.std.specs.Prelude.{◌≡◌};
ghost use Rattle.std.specs.List.{list_all};
ghost use Rattle.run_lines.specs.Name.{is_printable, is_text};
ghost use Rattle.run_lines.specs.Reading.{kind_in};

use crate::letters::is;

/// What a name is given to; the numbers of each kind are its own.
#[derive(Clone, Copy, Debug, PartialEq, Eq)]
pub enum Kind {
    /// A strand, or another executor that runs one handler at a time.
    Strand,
    /// A socket, a timer or data of the program.
    Thing,
    /// An operation.
    Op,
    /// A thread.
    Thread,
    /// An execution context.
    Context,
    /// A mutex.
    Lock,
    /// A mark.
    Mark,
}

/// The name of something: one or more printable ASCII characters. Names mean nothing to the rules.
#[derive(Clone, Copy, Debug)]
pub struct Name<'a> {
    pub kind: Kind,
    pub number: u64,
    pub text: &'a [u8],
}

/// The kind that a word is.
#[tactic(auto, unfolding(crate::specs::Reading::kind_in))]
pub(crate) fn kind_of(word: &[u8]) -> Option<Kind>
    ensures { result ≡ kind_in word.now }
{
    if is(word, b"strand") {
        Some(Kind::Strand)
    } else if is(word, b"thing") {
        Some(Kind::Thing)
    } else if is(word, b"op") {
        Some(Kind::Op)
    } else if is(word, b"thread") {
        Some(Kind::Thread)
    } else if is(word, b"context") {
        Some(Kind::Context)
    } else if is(word, b"lock") {
        Some(Kind::Lock)
    } else if is(word, b"mark") {
        Some(Kind::Mark)
    } else {
        None
    }
}

fn all_printable(bytes: &[u8]) -> bool
    ensures { result ≡ list_all is_printable bytes.now }
{
    bytes.iter().all(|byte| b' ' <= *byte && *byte <= b'~')
}

/// Whether the bytes may be a name.
#[tactic(auto, unfolding(crate::specs::Name::is_text))]
pub(crate) fn is_text(bytes: &[u8]) -> bool
    ensures { result ≡ is_text bytes.now }
{
    !bytes.is_empty() && all_printable(bytes)
}
