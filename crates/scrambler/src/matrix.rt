/// A matrix over the two elements 0 and 1, by rows, and a constant.
///
/// Bit `j` of row `i` is 1 where the row names index bit `j`; bit `i` of the constant belongs to row `i`.
/// The rows from `width` on play no part.
#[derive(Clone, Copy)]
pub struct Matrix {
    pub width: u8,
    pub rows: [u16; 16],
    pub constant: u16,
}

/// Rows whose exclusive or is 0: bit `i` is 1 where row `i` is one of them.
#[derive(Clone, Copy, Debug, PartialEq, Eq)]
pub struct Dependence {
    pub rows: u16,
}
