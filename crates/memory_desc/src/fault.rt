/// A part of a description that must be there.
#[derive(Clone, Copy, Debug, PartialEq, Eq)]
pub enum Field {
    Name,
    Words,
    Bits,
    /// The row of this bit of the address.
    Row(u8),
}

/// Why a text is no memory description. Lines are counted from 1 and bytes from 0 within their line.
#[derive(Clone, Copy, Debug, PartialEq, Eq)]
pub enum MemoryFault {
    /// D1: the line up to and with this byte can't be continued to a line of a description.
    Unexpected { line: usize, byte: usize },
    /// D2: there is no content line, or the last line ends too early.
    Truncated,
    /// D3: the line says again what an earlier one says.
    Repeated { line: usize },
    /// D4: a field is missing.
    Missing { field: Field },
    /// D5: the line's value is out of its range.
    OutOfRange { line: usize },
    /// D6: these rows of the scrambling depend on one another.
    Singular { rows: u16 },
    /// D7: a scrambling needs a number of words that is a power of two.
    ScrambleNeedsPowerOfTwo,
    /// D8: no background is 0.
    NoSolidBackground,
    /// D9: there are more than 8 backgrounds.
    TooManyBackgrounds,
    /// D11: the description is of another version.
    OtherVersion,
}
