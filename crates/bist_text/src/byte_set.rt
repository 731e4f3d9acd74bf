/// A set of bytes: byte `b` below 128 is in it where bit `b` of `low` is 1, and any other byte where bit
/// `b - 128` of `high` is 1.
#[derive(Clone, Copy)]
pub struct ByteSet {
    pub low: u128,
    pub high: u128,
}

impl ByteSet {
    ghost use Rattle.std.specs.Prelude.{◌≡◌};
    ghost use Rattle.bist_text.specs.ByteSets.{in_set};

    /// Whether a byte is in the set.
    pub fn contains(self, byte: u8) -> bool
        ensures { result ≡ in_set self byte }
    {
        if byte < 128 {
            (self.low >> byte) & 1 == 1
        } else {
            (self.high >> (byte - 128)) & 1 == 1
        }
    }
}
