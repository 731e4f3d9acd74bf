/// What a read answers that reaches two cells.
#[derive(Clone, Copy, PartialEq, Eq)]
pub enum WiredRead {
    /// 1 where both cells hold 1.
    And,
    /// 1 where either cell holds 1.
    Or,
    /// What the address's own cell holds.
    Own,
}

/// A fault of the address decoder, of two different addresses x and y. All other addresses reach their own cells.
#[derive(Clone, Copy, PartialEq, Eq)]
pub enum DecoderFault {
    /// Address x reaches no cell, and a read of it answers this bit. No address reaches cell x.
    NoCell(bool),
    /// Address x reaches cell y in place of its own. No address reaches cell x.
    OtherCell,
    /// Address x reaches its own cell and cell y.
    BothCells(WiredRead),
    /// Address x reaches no cell, and a read of it answers this bit; address y reaches its own cell and cell x.
    TakenCell(bool, WiredRead),
}
