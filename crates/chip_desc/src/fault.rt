/// A part of a chip file that must be there.
#[derive(Clone, Copy, Debug, PartialEq, Eq)]
pub enum ChipField {
    Name,
    Budget,
    Unit,
}

/// Why a text is no chip file. Lines are counted from 1 and bytes from 0 within their line.
#[derive(Clone, Copy, Debug, PartialEq, Eq)]
pub enum ChipFault {
    /// C1: the line up to and with this byte can't be continued to a line of a chip file.
    Unexpected { line: usize, byte: usize },
    /// C2: there is no content line, or the last line ends too early.
    Truncated,
    /// C3: the line says again what an earlier one says.
    Repeated { line: usize },
    /// C4: a field is missing.
    Missing { field: ChipField },
    /// C5: the line's value is out of its range.
    OutOfRange { line: usize },
    /// C6: there are more than 16 units.
    TooManyUnits,
    /// C7: the file is of another version.
    OtherVersion,
    /// C9: the line's unit weighs more than the budget.
    TooHeavy { line: usize },
}
