use dynamic_core::DynPrim;

/// An array of two to five cells with one instance of a dynamic primitive, its content (cell 0 first), and a
/// direction word.
#[derive(Clone, Copy)]
pub struct DynEscape {
    pub prim: DynPrim,
    /// How many cells it has.
    pub size: u8,
    /// The aggressor's cell, where the primitive has an aggressor.
    pub agg: Option<u8>,
    /// The victim's cell.
    pub vic: u8,
    /// The cells from `size` on are false.
    pub content: [bool; 5],
    /// Element `i` stands at bit `63-i`, with 1 for downward.
    pub directions: u64,
}

/// What is said of a dynamic primitive under a march.
#[derive(Clone, Copy)]
pub enum DynVerdict {
    /// Every placement of one instance, in every array of two or more cells, from every content and in every
    /// choice of directions, is caught.
    Covered,
    /// This array passes, and it is the least of any size that does.
    Escape(DynEscape),
}
