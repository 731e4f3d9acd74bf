//! The code of a net, and what it reads.
ghost use Rattle.std.specs.Prelude.{◌≡◌, ℕ, ◌%◌, ◌^◌};

use crate::code::Code;

/// The code of a net.
#[derive(Drop)]
pub struct Step {
    /// A bit for each place that the code reads. Places that differ by 64 share one.
    pub reads: u64,
    pub code: Box<Code>,
}

/// The bit of a place.
#[inline]
pub fn bit(place: usize) -> u64
    ensures { result ≡ 2 ^ (place % 64) }
{
    1 << (place % 64)
}
