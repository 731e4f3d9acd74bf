//! Why a byte is refused.

/// Why a byte of a text is refused, without the place that is told.
#[derive(Clone, Copy)]
pub enum ByteFault {
    Unexpected,
    TooDeep,
    LongName,
    OutOfRange,
    NoMemory,
}
