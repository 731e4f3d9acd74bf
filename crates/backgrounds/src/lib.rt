//! Data backgrounds.
//!
//! In a background `b` the data value 0 stands for the word `b`, and 1 for its complement. A set of
//! backgrounds separates two bit positions where they differ in some word of it; the logarithmic set
//! separates every two. No call of this crate takes memory.
//!
//! ```
//! use backgrounds::{log_set, separates, word_of};
//!
//! let set = log_set(5);
//! assert!(rt; set.as_slice() == [0x00, 0x0a, 0x0c, 0x10].as_slice());
//! assert!(rt; separates(&set, 0, 4));
//! assert!(rt; word_of(0x0a, true, 5) == 0x15);
//! ```
//!
//! It never sees a memory.
#![tactic(auto)]

ghost use Rattle.std.specs.Prelude.{◌≡◌, ◌≢◌, ℕ, ◌^◌, ◌<◌, ◌≤◌, ◌↔◌, IsTrue, Any};
ghost use Rattle.backgrounds.specs.Backgrounds.{Differ, IsLogSet, IsLogarithm, IsStripe, word_of};

use arrayvec::ArrayVec;
use bist_bits::{all_ones, width_of};

/// The logarithmic set for words of `bits` bits: the word 0, and behind it as many words as the logarithm
/// of `bits` to the base 2, rounded up. Bit `j` of word `k`, from 1, is bit `k - 1` of `j`.
pub fn log_set(bits: u8) -> ArrayVec<u64, 8>
    requires { (1 ≤ bits) × (bits ≤ 64) }
    ensures log_set { IsLogSet bits result.items }
    ensures separates { (i : ℕ) (j : ℕ) → i < bits → j < bits → i ≢ j → Any (Differ i j) result.items }
{
    let mut set = ArrayVec::new();
    set.push(0);
    for k in 0..logarithm(bits) {
        set.push(stripe(k, bits));
    }
    set
}

/// The logarithm of `bits` to the base 2, rounded up.
#[tactic(auto, using(crate::proofs::StripeLemmas::logarithm_of_one, crate::proofs::StripeLemmas::logarithm_by_width))]
fn logarithm(bits: u8) -> u8
    requires { (1 ≤ bits) × (bits ≤ 64) }
    ensures logarithm { IsLogarithm bits result }
    ensures at_most_6 { result ≤ 6 }
{
    if bits == 1 {
        0
    } else {
        width_of(u64::from(bits - 1))
    }
}

/// The word of `bits` bits whose bit `j` is bit `k` of `j`.
#[tactic(auto, using(crate::proofs::StripeLemmas::stripe_begun, crate::proofs::StripeLemmas::stripe_more))]
fn stripe(k: u8, bits: u8) -> u64
    requires { (k < 8) × (bits ≤ 64) }
    ensures { IsStripe bits k result }
{
    let mut word = 0;
    for j in 0..bits {
        word |= (((j >> k) & 1) as u64) << j;
    }
    word
}

/// The word of a data value in a background.
#[tactic(auto, using(crate::proofs::StripeLemmas::complement))]
pub fn word_of(background: u64, bit: bool, bits: u8) -> u64
    requires width { (1 ≤ bits) × (bits ≤ 64) }
    requires fits { background < 2 ^ bits }
    ensures word { result ≡ word_of background bit bits }
    ensures word_fits { result < 2 ^ bits }
{
    if bit {
        all_ones(bits) ^ background
    } else {
        background
    }
}

/// Whether bits `i` and `j` differ in some word of the set.
pub fn separates(set: &[u64], i: u8, j: u8) -> bool
    requires { (i < 64) × (j < 64) }
    ensures { IsTrue result ↔ Any (Differ i j) set.now }
{
    set.iter().any(|word| differ(*word, i, j))
}

/// Whether bits `i` and `j` of a word differ.
fn differ(word: u64, i: u8, j: u8) -> bool
    requires { (i < 64) × (j < 64) }
    ensures { IsTrue result ↔ Differ i j word }
{
    (word >> i) & 1 != (word >> j) & 1
}
