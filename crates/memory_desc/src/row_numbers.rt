//! The numbers of the rows that a search has met.

ghost use Rattle.std.specs.Prelude.{◌≤◌, IsTrue, length, take};
ghost use Rattle.std.specs.List.Sorted.{IsNonDecreasing};
ghost use Rattle.std.proofs.Props.{props};
ghost use Rattle.memory_desc.specs.inner.Met.{MayBeMet};

use crate::content::Subject;
use arrayvec::ArrayVec;

/// Different numbers of rows, as many as there is room for. A text of a mebibyte has fewer different rows.
#[derive(Drop)]
pub struct RowNumbers {
    numbers: ArrayVec<u32, 65536>,
    /// How many of them, from the first on, ascend. Those behind came since they were sorted.
    sorted: usize,
    ghost within: { sorted ≤ length numbers.items },
    ghost ascending: { IsNonDecreasing (take sorted numbers.items) } by { Prim.hlevel props },
}

impl RowNumbers {
    pub fn new() -> RowNumbers {
        RowNumbers {
            numbers: ArrayVec::new(),
            sorted: 0,
        }
    }

    /// Whether a subject is surely a new one; the number of a row is kept. Where there is no room none is said to be new. Where
    /// many numbers came since they were sorted they are sorted again.
    pub fn is_new(&mut self, subject: Subject) -> bool
        ensures new { IsTrue result → MayBeMet self.old.numbers.items subject → ⊥ }
        ensures kept { MayBeMet self.new.numbers.items subject }
        ensures stay { (q : Subject) → MayBeMet self.old.numbers.items q → MayBeMet self.new.numbers.items q }
    {
        let Subject::Row(number) = subject else {
            return false;
        };
        if self.numbers.is_full() {
            return false;
        }
        let (ascending, recent) = self.numbers.as_slice().split_at(self.sorted);
        if recent.contains(&number) || ascending.binary_search(&number).is_ok() {
            return false;
        }
        self.numbers.push(number);
        if self.numbers.len() - self.sorted >= 1024 {
            self.numbers.as_mut_slice().sort_unstable();
            self.sorted = self.numbers.len();
        }
        true
    }
}
