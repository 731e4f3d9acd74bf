/// An operation on a whole word.
#[derive(Clone, Copy, PartialEq, Eq)]
pub struct WordOp {
    /// Whether it writes; else it reads.
    pub write: bool,
    /// The physical index of the word.
    pub index: u32,
    /// The word that is written, or that the read expects.
    pub word: u64,
}

/// A command at the memory's port.
#[derive(Clone, Copy, PartialEq, Eq)]
pub struct PortOp {
    /// Whether it writes; else it reads.
    pub write: bool,
    /// The logical address.
    pub addr: u32,
    /// The word that is written, or that the read expects.
    pub word: u64,
}
