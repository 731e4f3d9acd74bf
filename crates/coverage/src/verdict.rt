use escape_array::EscapeArray;

/// What is said of a primitive under a march.
#[derive(Clone, Copy)]
pub enum Verdict {
    /// Every placement of one instance, in every array of two or more cells, from every content and in every
    /// choice of directions, is caught.
    Covered,
    /// This array of two cells passes, and it is the least that does.
    Escape(EscapeArray),
}
