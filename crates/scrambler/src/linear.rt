ghost use Rattle.std.specs.Prelude.{◌≡◌, ℕ, ◌^◌, ◌<◌, ◌≤◌, slice_index};
ghost use Rattle.scrambler.specs.Linear.{dot, number, combination};

use bist_bits::parity;

/// The vectors of one bit.
pub const UNITS: [u16; 16] = [
    0x1, 0x2, 0x4, 0x8, 0x10, 0x20, 0x40, 0x80, 0x100, 0x200, 0x400, 0x800, 0x1000, 0x2000, 0x4000,
    0x8000,
];

/// The exclusive or of the bits of `x` that `row` names, as 0 or 1.
#[tactic(auto, unfolding(crate::specs::Linear::dot))]
pub fn dot(row: u16, x: u16) -> u16
    ensures { result ≡ dot row x }
{
    u16::from(parity(u64::from(row & x)))
}

/// The first `count` rows times `x`.
#[tactic(auto, using(crate::proofs::Steps::product_begun))]
pub fn product(rows: &[u16; 16], count: u8, x: u16) -> u16
    requires { count ≤ 16 }
    ensures { result ≡ number (λ i. dot (slice_index rows.now i) x) count }
{
    let mut y = 0;
    for i in 0..count {
        y |= dot(rows[i as usize], x) << i;
    }
    y
}

/// The exclusive or of those of the first `count` vectors that the bits of `set` name.
#[tactic(auto, using(crate::proofs::Steps::combination_begun))]
pub fn combination(vectors: &[u16; 16], count: u8, set: u16) -> u16
    requires { count ≤ 16 }
    ensures { result ≡ combination (slice_index vectors.now) count set }
{
    let mut x = 0;
    for i in 0..count {
        if (set >> i) & 1 == 1 {
            x ^= vectors[i as usize];
        }
    }
    x
}
