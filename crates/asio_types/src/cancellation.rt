ghost use Rattle.std.specs.Prelude.{◌≡◌, ◌≢◌, ℕ, ◌≤◌, ◌↔◌, IsTrue, IsSome, IfSome, bit_and};

use std::marker::Model;

/// A set of cancellation types (Asio reference, `cancellation_type`): terminal 1, partial 2 and
/// total 4, combined as bits; 0 is none. Contracts see it as that number, from 0 to 7.
#[derive(Clone, Copy, Debug, PartialEq, Eq)]
pub struct Types {
    bits: u8,
}

impl Model for Types {
    ghost Value = { ℕ };

    ghost view = { λ t. t.bits };

    ghost invariant = { λ t. t.bits ≤ 7 };

    ghost inverse = { λ n. record { bits = n } };
}

impl Types {
    /// The set with these bits; `None` exactly where a bit above 4 is set.
    pub fn of(bits: u8) -> Option<Types>
        ensures valid { IsSome result ↔ (bits ≤ 7) }
        ensures value { IfSome result (λ types. types ≡ bits) }
    {
        if bits <= 7 {
            Some(Types { bits })
        } else {
            None
        }
    }

    /// Terminal, partial and total.
    pub fn all() -> Types
        ensures { result ≡ 7 }
    {
        Types { bits: 7 }
    }

    /// The set as a number from 0 to 7.
    pub fn bits(self) -> u8
        ensures value { result ≡ self }
        ensures in_range { result ≤ 7 }
    {
        self.bits
    }

    /// Whether the two sets share a type.
    pub fn meets(self, other: Types) -> bool
        ensures { IsTrue result ↔ (bit_and self other ≢ 0) }
    {
        self.bits & other.bits != 0
    }

    /// The types that both sets have.
    pub fn both(self, other: Types) -> Types
        ensures { result ≡ bit_and self other }
    {
        Types {
            bits: self.bits & other.bits,
        }
    }
}
