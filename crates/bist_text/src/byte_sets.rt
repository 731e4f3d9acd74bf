//! Sets of bytes that lines of texts are made of.

use crate::byte_set::ByteSet;

/// Space, tab and carriage return.
pub const BLANKS: ByteSet = ByteSet {
    low: 0x1_0000_2200,
    high: 0,
};

/// The small letters.
pub const SMALL_LETTERS: ByteSet = ByteSet {
    low: 0x07ff_fffe_0000_0000_0000_0000_0000_0000,
    high: 0,
};

/// The decimal digits.
pub const DIGITS: ByteSet = ByteSet {
    low: 0x03ff_0000_0000_0000,
    high: 0,
};

/// The hexadecimal digits, with small and large letters.
pub const HEX_DIGITS: ByteSet = ByteSet {
    low: 0x7e_0000_007e_03ff_0000_0000_0000,
    high: 0,
};

/// What an identifier begins with: letters and `_`.
pub const NAME_STARTS: ByteSet = ByteSet {
    low: 0x07ff_fffe_87ff_fffe_0000_0000_0000_0000,
    high: 0,
};

/// What it goes on with: digits and `$` besides.
pub const NAME_BYTES: ByteSet = ByteSet {
    low: 0x07ff_fffe_87ff_fffe_03ff_0010_0000_0000,
    high: 0,
};
