ghost use Rattle.std.specs.Prelude.{◌≡◌, ℕ, ◌+◌, ◌^◌, ◌<◌, ◌≤◌, ◌↔◌, IsSome, IfSome};
ghost use Rattle.bist_bits.specs.Vector.{Vector, IsVector, concat, select};

use crate::all_ones;
use std::marker::Model;

/// A bit vector: a width from 1 to 64 and a value below two to the width.
#[derive(Clone, Copy, PartialEq, Eq)]
pub struct Bits {
    width: u8,
    value: u64,
}

impl Model for Bits {
    ghost Value = { Vector };

    ghost view = { λ b. record { width = b.width; value = b.value } };

    ghost invariant = { λ b. IsVector b.width b.value };

    ghost inverse = { λ v. record { width = v.width; value = v.value } };
}

impl Bits {
    /// The vector of this width and value.
    pub fn new(width: u8, value: u64) -> Bits
        requires { IsVector width value }
        ensures { result ≡ record { width = width; value = value } }
    {
        Bits { width, value }
    }

    /// The vector of this width and value, or `None` exactly where there is none.
    pub fn try_new(width: u8, value: u64) -> Option<Bits>
        ensures fits { IsSome result ↔ IsVector width value }
        ensures value { IfSome result (λ b. b ≡ record { width = width; value = value }) }
    {
        if width >= 1 && width <= 64 && value <= all_ones(width) {
            Some(Bits { width, value })
        } else {
            None
        }
    }

    /// How many bits the vector has.
    pub fn width(&self) -> u8
        ensures width { result ≡ self.now.width }
        ensures is_vector { IsVector self.now.width self.now.value }
    {
        self.width
    }

    /// The vector as an unsigned number.
    pub fn value(&self) -> u64
        ensures value { result ≡ self.now.value }
        ensures is_vector { IsVector self.now.width self.now.value }
    {
        self.value
    }
}

/// The bits of `high` above those of `low`.
#[tactic(auto, using(crate::proofs::BitLemmas::joined_value, crate::proofs::BitLemmas::joined_fits))]
pub fn concat(high: &Bits, low: &Bits) -> Bits
    requires { high.now.width + low.now.width ≤ 64 }
    ensures { result ≡ concat high.now low.now }
{
    Bits {
        width: high.width + low.width,
        value: (high.value << low.width) | low.value,
    }
}

/// The bits of `x` from place `low` to place `high`, both included.
#[tactic(auto, using(crate::proofs::BitLemmas::masked_value, crate::proofs::BitLemmas::masked_fits))]
pub fn select(x: &Bits, high: u8, low: u8) -> Bits
    requires ordered { low ≤ high }
    requires in_width { high < x.now.width }
    ensures { result ≡ select x.now high low }
{
    let shifted = x.value >> low;
    let width = high - low + 1;
    Bits {
        width,
        value: shifted & all_ones(width),
    }
}
