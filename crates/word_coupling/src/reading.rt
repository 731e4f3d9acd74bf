/// In which content of a word an operation on it finds the state of a bit that the act of a primitive doesn't fall on. Only a write tells
/// the two apart, since it writes all bits of the word at once.
#[derive(Clone, Copy, PartialEq, Eq)]
pub enum Reading {
    /// In that from before the operation.
    Before,
    /// In that which its plain part leaves.
    Behind,
}

/// In which readings a primitive escapes: in one of them alone, or in both.
#[derive(Clone, Copy, PartialEq, Eq)]
pub enum Readings {
    BeforeAlone,
    BehindAlone,
    Both,
}
