ghost use Rattle.std.specs.Prelude.{◌≡◌, ◌↔◌, ◌<◌, ◌^◌, ℕ, [], ◌∷◌, map, Some, None, IsTrue, string_bytes};
ghost use Rattle.std.specs.Fmt.{decimal};
ghost use Rattle.session_run.specs.Form.{HasForm, IsForm, IsNet};

use generated_session::{MOST_SIZE, MOST_START};
use itoa::Buffer;

/// The forms of the command: what a session does. The contract of the session names them.
#[derive(Clone, Copy, Debug, PartialEq, Eq)]
pub enum Form {
    /// A script is read and run, and its trace is written.
    Run,
    /// The same; the caller asks for a reactor over sockets.
    Net,
    /// A script is read and upgraded, and the text of its upgrade is written.
    Upgrade,
    /// The script that these numbers make is run, and the summary of its history is written.
    Gen {
        /// The number that makes the session, at most 65,536.
        start: u32,
        /// How many acts it has, from 1 to 1,024.
        size: u32,
    },
}

/// The number of 32 bits that a word is in decimal, without a leading zero.
fn number_of(word: &String) -> Option<u32>
    ensures { (n : ℕ) → n < 2 ^ 32 → (result ≡ Some n) ↔ (string_bytes word.now ≡ decimal n) }
{
    let Ok(number) = word.as_str().parse::<u32>() else {
        return None;
    };
    let mut buffer = Buffer::new();
    if buffer.format(number).as_bytes() == word.as_bytes() {
        Some(number)
    } else {
        None
    }
}

/// The form with this one word.
fn form_of_word(word: &String) -> Option<Form>
    ensures some { (form : Form) → (result ≡ Some form) ↔ IsForm (string_bytes word.now ∷ []) form }
{
    if word.as_bytes() == b"run".as_slice() {
        Some(Form::Run)
    } else if word.as_bytes() == b"upgrade".as_slice() {
        Some(Form::Upgrade)
    } else {
        None
    }
}

/// The form with these two words.
fn form_of_two(word: &String, option: &String) -> Option<Form>
    ensures some { (form : Form) → (result ≡ Some form) ↔
        IsForm (string_bytes word.now ∷ string_bytes option.now ∷ []) form }
{
    if word.as_bytes() == b"run".as_slice() && option.as_bytes() == b"--net".as_slice() {
        Some(Form::Net)
    } else {
        None
    }
}

/// The form with these three words.
fn form_of_three(word: &String, start: &String, size: &String) -> Option<Form>
    ensures some { (form : Form) → (result ≡ Some form) ↔
        IsForm (string_bytes word.now ∷ string_bytes start.now ∷ string_bytes size.now ∷ []) form }
{
    if word.as_bytes() != b"gen".as_slice() {
        return None;
    }
    let start = number_of(start)?;
    let size = number_of(size)?;
    if start <= MOST_START && 1 <= size && size <= MOST_SIZE {
        Some(Form::Gen { start, size })
    } else {
        None
    }
}

/// The form of the command that the words are.
pub(crate) fn form_of(words: &[String]) -> Option<Form>
    ensures some { (form : Form) → (result ≡ Some form) ↔ IsForm (map string_bytes words.now) form }
    ensures none { (result ≡ None) ↔ (HasForm (map string_bytes words.now) → ⊥) }
{
    match words {
        [word] => form_of_word(word),
        [word, option] => form_of_two(word, option),
        [word, start, size] => form_of_three(word, start, size),
        _ => None,
    }
}

/// Whether the words ask for a session over sockets, whose reactor the caller makes.
///
/// In `crates/asio_run/src/main.rt`:
///
/// ```rust
/// let ended = if asks_for_sockets(words) {
///     let reactor = MioReactor::make(rt);
/// ..
/// } else {
///     match ScriptReactor::make(alloc, &[]) {
/// ```
pub fn asks_for_sockets(words: &[String]) -> bool
    ensures { IsTrue result ↔ IsNet (map string_bytes words.now) }
{
    match form_of(words) {
        Some(Form::Net) => true,
        _ => false,
    }
}
