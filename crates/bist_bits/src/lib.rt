//! Bit vectors of 1 to 64 bits, and the answer of a call that found no memory.
//!
//! A vector is a width and an unsigned value below two to that width. Bit 0 is the lowest.
//!
//! ```
//! use bist_bits::{Bits, concat, select, width_of};
//!
//! let joined = concat(&Bits::new(2, 0b10), &Bits::new(1, 0b1));
//! assert!(rt; joined == Bits::new(3, 0b101));
//! assert!(rt; select(&joined, 2, 1).value() == 0b10);
//! assert!(rt; width_of(8) == 4);
//! ```
//!
//! It never takes memory.
#![tactic(auto)]

ghost use Rattle.std.specs.Prelude.{◌≡◌, ℕ, ◌+◌, ◌-◌, ◌%◌, ◌^◌, ◌<◌, ◌≤◌, ◌↔◌, IsTrue, IsSome, IfSome, count_ones};
ghost use Rattle.bist_bits.specs.Width.{IsWidthOf};

mod bits;

pub use bits::{Bits, concat, select};

/// There was no memory.
#[derive(Clone, Copy, Debug, PartialEq, Eq)]
pub struct NoMemory;

/// Whether an odd number of the bits of `value` are 1.
pub fn parity(value: u64) -> bool
    ensures { IsTrue result ↔ (count_ones value % 2 ≡ 1) }
{
    value.count_ones() % 2 == 1
}

/// The least width, of at least 1, that holds `n`.
#[tactic(auto, using(crate::proofs::BitLemmas::width_by_leading_zeros))]
pub fn width_of(n: u64) -> u8
    ensures width { IsWidthOf n result }
    ensures at_most_64 { result ≤ 64 }
{
    if n == 0 {
        1
    } else {
        (64 - n.leading_zeros()) as u8
    }
}

/// The greatest value of a width: `width` bits, all 1.
#[tactic(auto, using(crate::proofs::BitLemmas::ones_shifted_down))]
pub fn all_ones(width: u8) -> u64
    requires positive { 1 ≤ width }
    requires narrow { width ≤ 64 }
    ensures { result ≡ 2 ^ width - 1 }
{
    u64::MAX >> (64 - width)
}
