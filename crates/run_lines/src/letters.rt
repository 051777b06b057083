ghost use Rattle.std.specs.Prelude.{◌≡◌, ◌≤◌, ◌↔◌, length, take, IsSome, IfSome};
ghost use Rattle.std.specs.List.{list_all};
ghost use Rattle.std.specs.Str.{bytes_eq};
ghost use Rattle.run_lines.specs.Letters.{IsLetters, are_letters, is_digit, is_small_letter, may_follow};

use std::marker::Model;

/// A small letter and up to 31 small letters, digits and `_`. Contracts see the list of its bytes.
#[derive(Clone, Copy, Debug, PartialEq, Eq)]
pub struct Letters {
    len: u8,
    bytes: [u8; 32],
}

impl Model for Letters {
    ghost use Rattle.std.specs.Prelude.{ℕ, List, length, take};
    ghost use Rattle.std.proofs.Common.{arith, sym, length-take-le};
    ghost use Rattle.run_lines.specs.Letters.{padded};

    ghost Value = { List ℕ };

    ghost use Rattle.run_lines.specs.Letters.Held.{HoldsLetters};

    ghost view = { λ l. take l.len l.bytes };

    ghost invariant = { HoldsLetters };

    ghost inverse = { λ v. record { len = length v; bytes = padded v } };

    ghost inverse_ok = { λ l h i. record {
      len = length-take-le l.len l.bytes (Prim.omega (arith, h.within, h.full)) i;
      bytes = sym h.unused i;
    } };
}

impl Letters {
    /// These bytes as letters; `None` exactly where they are none.
    pub fn of(bytes: &[u8]) -> Option<Letters>
        ensures valid { IsSome result ↔ IsLetters bytes.now }
        ensures value { IfSome result (λ letters. letters ≡ bytes.now) }
    {
        if !are_letters(bytes) {
            return None;
        }
        let mut held = [0; 32];
        held[..bytes.len()].copy_from_slice(bytes);
        Some(Letters {
            len: bytes.len() as u8,
            bytes: held,
        })
    }

    /// The bytes.
    pub fn as_slice(&self) -> &[u8]
        ensures value { result.now ≡ self.now }
        ensures letters { IsLetters self.now }
        ensures short { length result.now ≤ 32 }
    {
        &self.bytes[..self.len as usize]
    }
}

/// Whether a word is this one.
pub(crate) fn is(word: &[u8], wanted: &[u8]) -> bool
    ensures { result ≡ bytes_eq word.now wanted.now }
{
    word == wanted
}

fn is_small_letter(byte: u8) -> bool
    ensures { result ≡ is_small_letter byte }
{
    b'a' <= byte && byte <= b'z'
}

fn is_digit(byte: u8) -> bool
    ensures { result ≡ is_digit byte }
{
    b'0' <= byte && byte <= b'9'
}

fn may_follow(byte: u8) -> bool
    ensures { result ≡ may_follow byte }
{
    is_small_letter(byte) || is_digit(byte) || byte == b'_'
}

fn all_may_follow(bytes: &[u8]) -> bool
    ensures { result ≡ list_all may_follow bytes.now }
{
    bytes.iter().all(|byte| may_follow(*byte))
}

#[tactic(auto, unfolding(crate::specs::Letters::are_letters))]
fn are_letters(bytes: &[u8]) -> bool
    ensures { result ≡ are_letters bytes.now }
{
    match bytes {
        [] => false,
        [first, others @ ..] => {
            is_small_letter(*first) && all_may_follow(others) && others.len() <= 31
        }
    }
}
