ghost use Rattle.std.specs.Prelude.{◌≡◌, ◌≤◌, ◌<◌, ◌^◌, ◌*◌, cond, length};
ghost use Rattle.session_orders.specs.Place.{AllFit, asked_by, asked_of, base_of, code_with, has_own, number_of, own_event, own_place};

use crate::bounds::ReactorKind;
use crate::place::COLUMNS;
use asio_types::{Code, Event, OpNo};
use session_script::{Act, Script, acts_fit};

/// No operation of a script moves as many bytes.
pub(crate) const SIZES: u64 = 16_385;

/// How many codes there are.
pub(crate) const CODES: u64 = 7;

/// Where the places of completions begin.
pub(crate) fn base(script: &Script) -> u64
    ensures base { result ≡ base_of script.now }
    ensures small { result ≤ 2 ^ 16 }
{
    COLUMNS * (script.acts() as u64 + 1)
}

/// How many bytes an act may move at most.
fn asked_by(act: &Act) -> u64
    ensures { result ≡ asked_by act.now }
{
    match act {
        Act::ReadSome { size, .. } | Act::ReadAll { size, .. } => *size as u64,
        Act::Until { max, .. } => *max as u64,
        Act::WriteSome { bytes, .. } | Act::WriteAll { bytes, .. } => bytes.as_slice().len() as u64,
        _ => 0,
    }
}

/// How many bytes the act with a number may move at most.
pub(crate) fn asked_of(script: &Script, op: u64) -> u64
    ensures { result ≡ asked_of script.now op }
{
    if op >= script.acts() as u64 {
        return 0;
    }
    asked_by(script.act(op as u32))
}

/// Whether a completion has a place of its own.
pub(crate) fn has_own(script: &Script, kind: ReactorKind, op: OpNo, size: u32) -> bool
    ensures { result ≡ has_own script.now kind op size }
{
    if kind.told || op >= script.acts() {
        return false;
    }
    size as u64 <= asked_of(script, op as u64)
}

/// The number of a code.
fn number_of(code: Code) -> u64
    ensures number { result ≡ number_of code }
    ensures small { result < 7 }
{
    match code {
        Code::Ok => 0,
        Code::Aborted => 1,
        Code::Eof => 2,
        Code::NotFound => 3,
        Code::Bad => 4,
        Code::Broken => 5,
        Code::Reset => 6,
    }
}

/// The code with a number.
fn code_with(number: u64) -> Code
    ensures { result ≡ code_with number }
{
    match number {
        0 => Code::Ok,
        1 => Code::Aborted,
        2 => Code::Eof,
        3 => Code::NotFound,
        4 => Code::Bad,
        5 => Code::Broken,
        _ => Code::Reset,
    }
}

/// The completion with a place of its own.
pub(crate) fn own_event_at(script: &Script, n: u64) -> Option<Event>
    requires { n < 2 ^ 36 }
    ensures { result ≡ own_event script.now n }
{
    let op = n / SIZES / CODES;
    let size = n % SIZES;
    if size > asked_of(script, op) {
        return None;
    }
    Some(Event::Done {
        op: op as u32,
        code: code_with(n / SIZES % CODES),
        size: size as u32,
    })
}

/// The place of a completion.
pub(crate) fn done_place(script: &Script, kind: ReactorKind, op: OpNo, code: Code, size: u32) -> u64
    ensures place { result ≡ cond (has_own script.now kind op size)
        (own_place script.now op code size) (8 * length script.now.acts) }
    ensures small { result < 2 ^ 50 }
{
    if has_own(script, kind, op, size) {
        base(script) + (CODES * op as u64 + number_of(code)) * SIZES + size as u64
    } else {
        COLUMNS * script.acts() as u64
    }
}

/// No operation of a script asks for more bytes than the limits of scripts allow.
pub(crate) fn sizes_fit(script: &Script)
    ensures { AllFit script.now }
{
    acts_fit(script);
}
