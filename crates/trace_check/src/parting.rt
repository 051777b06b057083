ghost use Rattle.std.specs.Prelude.{◌≡◌, ◌+◌, ◌≤◌, ◌↔◌, length, take, IsTrue, IfSome, IfNone};
ghost use Rattle.trace_check.specs.Parting.{AreLines, HasNoParting, InputParts, LineStandsAt, parting_line};

use crate::reading::MOST_TRACE;
use session_script::MOST_BYTES;

/// The line that parts a script from a trace.
const PARTING_LINE: &[u8] = b"--\n";

/// The most bytes of an input: a script, the line between, and a trace.
pub const MOST_INPUT: usize = MOST_BYTES + PARTING_LINE.len() + MOST_TRACE;

/// The bytes of which a session has any use: one more shows that an input is too long.
pub const MOST_INPUT_READ: usize = MOST_INPUT + 1;

/// The two parts of an input.
#[derive(Clone, Copy)]
pub struct Parted<'a> {
    /// The script's text.
    pub script: &'a [u8],
    /// The trace's text.
    pub trace: &'a [u8],
}

/// Whether the line stands at the front.
fn begins_with_it(text: &[u8]) -> bool
    ensures { IsTrue result ↔ (take 3 text.now ≡ parting_line) }
{
    text.starts_with(PARTING_LINE)
}

/// Whether whole lines stand before this place.
fn is_line_start(input: &[u8], at: usize) -> bool
    requires { at ≤ length input.now }
    ensures { IsTrue result ↔ AreLines (take at input.now) }
{
    at == 0 || input[at - 1] == b'\n'
}

/// Whether the line stands at this place, behind whole lines.
fn stands_at(input: &[u8], at: usize) -> bool
    requires { at ≤ length input.now }
    ensures stands { IsTrue result ↔ LineStandsAt input.now at }
    ensures fits { IsTrue result → at + 3 ≤ length input.now }
{
    begins_with_it(&input[at..]) && is_line_start(input, at)
}

/// The parts of an input round the first line that parts it. Looks at each byte once.
pub fn part<'a>(input: &'a [u8]) -> Option<Parted<'a>>
    ensures some { IfSome result
        (λ parted. InputParts input.now parted.script.now parted.trace.now) }
    ensures none { IfNone result (HasNoParting input.now) }
{
    for at in 0..input.len() {
        if stands_at(input, at) {
            return Some(Parted {
                script: &input[..at],
                trace: &input[at + PARTING_LINE.len()..],
            });
        }
    }
    None
}
