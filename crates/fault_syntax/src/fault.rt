/// Why a text is refused. Lines are counted from 1, and bytes within a line from 0.
#[derive(Clone, Copy, Debug, PartialEq, Eq)]
pub enum FaultFault {
    /// F1: the line up to and with this byte can't be continued.
    Unexpected { line: usize, byte: usize },
    /// F2: the last line, which no line end ends, can be continued and isn't whole.
    Truncated { line: usize },
    /// F3: a primitive that is no fault: none of the 50 static ones.
    NotAFault { line: usize },
    /// F4: a primitive with too many operations: more than one in all, where none is dynamic.
    TooManyOperations { line: usize },
    /// F5: the line brings more than 1,024 primitives in all.
    TooManyPrimitives { line: usize },
    /// There was no memory.
    NoMemory,
}
