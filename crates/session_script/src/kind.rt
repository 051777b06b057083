ghost use Rattle.std.specs.Prelude.{◌≡◌, ◌≤◌, ◌<◌, ◌^◌, ◌*◌, ◌+◌, true, false, MatchOption, MatchResult, IfOk, OnOk};
ghost use Rattle.std.specs.List.{list_all};
ghost use Rattle.std.specs.Str.{bytes_eq};
ghost use Rattle.session_script.specs.Kinds.{is_word, is_number, is_data, is_lowercase, is_digit, is_hexadecimal, misplaced, exactly, another_word, decimal_from, number, within, known, chosen, version, data_digits, hexadecimal};

use crate::refusal::Rule;

/// Whether a token is this word.
pub(crate) fn is(bytes: &[u8], word: &[u8]) -> bool
    ensures { result ≡ bytes_eq bytes.now word.now }
{
    bytes == word
}

fn are_lowercase(bytes: &[u8]) -> bool
    ensures { result ≡ list_all is_lowercase bytes.now }
{
    bytes.iter().all(|b| b'a' <= *b && *b <= b'z')
}

fn are_digits(bytes: &[u8]) -> bool
    ensures { result ≡ list_all is_digit bytes.now }
{
    bytes.iter().all(|b| b'0' <= *b && *b <= b'9')
}

fn is_hexadecimal(byte: u8) -> bool
    ensures { result ≡ is_hexadecimal byte }
{
    (b'0' <= byte && byte <= b'9') || (b'a' <= byte && byte <= b'f')
}

fn are_hexadecimal(bytes: &[u8]) -> bool
    ensures { result ≡ list_all is_hexadecimal bytes.now }
{
    bytes.iter().all(|b| is_hexadecimal(*b))
}

/// A run of `a` to `z`.
#[tactic(auto, unfolding(crate::specs::Kinds::is_word))]
fn is_word(bytes: &[u8]) -> bool
    ensures { result ≡ is_word bytes.now }
{
    !bytes.is_empty() && are_lowercase(bytes)
}

/// A run of `0` to `9`.
#[tactic(auto, unfolding(crate::specs::Kinds::is_number))]
fn is_number(bytes: &[u8]) -> bool
    ensures { result ≡ is_number bytes.now }
{
    !bytes.is_empty() && are_digits(bytes)
}

/// `x` and an even, positive number of hexadecimal digits.
#[tactic(auto, unfolding(crate::specs::Kinds::is_data))]
fn is_data(bytes: &[u8]) -> bool
    ensures { result ≡ is_data bytes.now }
{
    bytes.len() >= 3 && bytes.len() % 2 == 1 && bytes[0] == b'x' && are_hexadecimal(&bytes[1..])
}

/// What a token of another kind, or another word, than is wanted breaks: a token of no kind has a
/// rule of its own.
#[tactic(auto, unfolding(crate::specs::Kinds::misplaced))]
pub(crate) fn misplaced(bytes: &[u8]) -> Rule
    ensures { result ≡ misplaced bytes.now }
{
    if is_word(bytes) || is_number(bytes) || is_data(bytes) {
        Rule::Shape
    } else if is(bytes, b"{") || is(bytes, b"}") || is(bytes, b"-") {
        Rule::Shape
    } else {
        Rule::Token
    }
}

/// One word, or a brace.
#[tactic(auto, unfolding(crate::specs::Kinds::exactly))]
pub(crate) fn exactly(word: &[u8], bytes: &[u8]) -> Result<(), Rule>
    ensures { result ≡ exactly word.now bytes.now }
{
    if is(bytes, word) {
        Ok(())
    } else {
        Err(misplaced(bytes))
    }
}

/// One word, or a brace, that begins one more of something, unless there are enough of them.
#[tactic(auto, unfolding(crate::specs::Kinds::another_word))]
pub(crate) fn another_word(word: &[u8], full: bool, bytes: &[u8]) -> Result<(), Rule>
    ensures value { result ≡ another_word word.now full bytes.now }
    ensures room { OnOk result (full ≡ false) }
{
    exactly(word, bytes)?;
    if full { Err(Rule::Limit) } else { Ok(()) }
}

/// The value of decimal digits, if it is below 2^64.
fn decimal(digits: &[u8]) -> Option<u64>
    ensures { MatchOption result (2 ^ 64 ≤ decimal_from 0 digits.now)
        (λ value. decimal_from 0 digits.now ≡ value) }
{
    let mut value: u64 = 0;
    for digit in digits {
        let shifted = match value.checked_mul(10) {
            Some(shifted) => shifted,
            None => return None,
        };
        value = match shifted.checked_add(digit.saturating_sub(b'0') as u64) {
            Some(next) => next,
            None => return None,
        };
    }
    Some(value)
}

/// A number below 2^64 without a leading zero.
#[tactic(auto, unfolding(crate::specs::Kinds::number))]
pub(crate) fn number(bytes: &[u8]) -> Result<u64, Rule>
    ensures { result ≡ number bytes.now }
{
    if !is_number(bytes) {
        return Err(misplaced(bytes));
    }
    if bytes.len() > 1 && bytes[0] == b'0' {
        return Err(Rule::Number);
    }
    match decimal(bytes) {
        Some(value) => Ok(value),
        None => Err(Rule::Number),
    }
}

/// A number within limits.
#[tactic(auto, unfolding(crate::specs::Kinds::within))]
pub(crate) fn within(least: u64, most: u64, bytes: &[u8]) -> Result<u64, Rule>
    ensures value { result ≡ within least most bytes.now }
    ensures in_range { IfOk result (λ value. value ≤ most) }
{
    let value = number(bytes)?;
    if least <= value && value <= most {
        Ok(value)
    } else {
        Err(Rule::Limit)
    }
}

/// The number of something declared.
#[tactic(auto, unfolding(crate::specs::Kinds::known))]
pub(crate) fn known(count: u8, bytes: &[u8]) -> Result<u8, Rule>
    ensures { result ≡ known count bytes.now }
{
    let value = number(bytes)?;
    if value < count as u64 {
        Ok(value as u8)
    } else {
        Err(Rule::Unknown)
    }
}

/// `-` for none, or the number of something declared.
#[tactic(auto, unfolding(crate::specs::Kinds::chosen))]
pub(crate) fn chosen(count: u8, bytes: &[u8]) -> Result<Option<u8>, Rule>
    ensures { result ≡ chosen count bytes.now }
{
    if is(bytes, b"-") {
        Ok(None)
    } else {
        Ok(Some(known(count, bytes)?))
    }
}

/// The version of a script.
#[tactic(auto, unfolding(crate::specs::Kinds::version))]
pub(crate) fn version(bytes: &[u8]) -> Result<u8, Rule>
    ensures { result ≡ version bytes.now }
{
    let value = number(bytes)?;
    if value == 1 || value == 2 {
        Ok(value as u8)
    } else {
        Err(Rule::Version)
    }
}

/// The hexadecimal digits of so many bytes at most.
#[tactic(auto, unfolding(crate::specs::Kinds::data_digits, crate::specs::Kinds::is_data))]
pub(crate) fn data(most: u32, bytes: &[u8]) -> Result<&[u8], Rule>
    ensures value { MatchResult result (λ digits. data_digits most bytes.now ≡ Ok digits.now)
        (λ rule. data_digits most bytes.now ≡ Err rule) }
    ensures digits { IfOk result (λ digits. list_all is_hexadecimal digits.now ≡ true) }
{
    if !is_data(bytes) {
        return Err(misplaced(bytes));
    }
    if bytes.len() / 2 <= most as usize {
        Ok(&bytes[1..])
    } else {
        Err(Rule::Limit)
    }
}

/// The byte that two hexadecimal digits stand for.
pub(crate) fn byte_of(high: u8, low: u8) -> u8
    requires high { is_hexadecimal high ≡ true }
    requires low { is_hexadecimal low ≡ true }
    ensures { result ≡ 16 * hexadecimal high + hexadecimal low }
{
    16 * hexadecimal(high) + hexadecimal(low)
}

/// The value of a hexadecimal digit.
fn hexadecimal(digit: u8) -> u8
    requires { is_hexadecimal digit ≡ true }
    ensures value { result ≡ hexadecimal digit }
    ensures below { result < 16 }
{
    if digit <= b'9' {
        digit - b'0'
    } else {
        digit - b'a' + 10
    }
}
