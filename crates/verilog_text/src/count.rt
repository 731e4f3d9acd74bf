//! How the operators of an expression are counted.

/// All together that an expression has which stands in no other, so many by now; or in each parenthesis apart, where
/// one may be, and whether it may still come.
#[derive(Clone, Copy)]
pub enum Count {
    Together(u16),
    Apart(bool),
}
