use cell_machine::Pair;

/// Where an instance stands in an array of two cells.
#[derive(Clone, Copy, PartialEq, Eq)]
pub enum Placement {
    /// The victim of a primitive of one cell at 0.
    Alone,
    /// The aggressor at 0 and the victim at 1.
    Below,
    /// The aggressor at 1 and the victim at 0.
    Above,
}

/// A final pair that the march lets through, with the least direction word that does so. Element `i` stands at
/// bit `63-i` of the word, with 1 for downward.
#[derive(Clone, Copy, PartialEq, Eq)]
pub struct Survivor {
    pub pair: Pair,
    pub directions: u64,
}

/// A blank of a fixed list.
impl Default for Survivor {
    fn default() -> Self {
        Survivor {
            pair: Pair { a: false, v: false },
            directions: 0,
        }
    }
}
