/// Why a march is refused. Elements, operations and bytes are counted from 0.
#[derive(Clone, Copy, Debug, PartialEq, Eq)]
pub enum MarchFault {
    /// M1: the text up to and with this byte can't be continued to a march text. Only a reader answers it.
    Unexpected { byte: usize },
    /// M2: the text is no march text, but can be continued to one. Only a reader answers it.
    Truncated,
    /// M3: there is no element, or all are pauses, or some element other than a pause has no operation.
    Empty,
    /// M4: there are 64 elements already.
    TooManyElements,
    /// M5: the element has 16 operations already.
    TooManyOps { element: usize },
    /// M6: there are 256 operations already.
    TooManyInAll,
    /// M7: a read before which nothing was written; it is the first read that isn't right.
    ReadBeforeWrite { element: usize, op: usize },
    /// M8: a read that expects another bit than was written last; it is the first read that isn't right.
    WrongExpect { element: usize, op: usize },
}
