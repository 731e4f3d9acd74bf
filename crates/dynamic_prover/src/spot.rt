ghost use Rattle.std.specs.Prelude.{◌≡◌};
ghost use Rattle.dynamic_prover.specs.inner.Shapes.{shape_of};
ghost use Rattle.dynamic_prover.specs.inner.Spots.{is_last_of, spots_of, shape_at, starts_of, bit_at, content_from};
ghost use Rattle.dynamic_core.specs.Primitive.{has_aggressor};

use crate::shape::Shape;
use cell_machine::{Pair, Side};
use dynamic_core::DynPrim;

/// The places of an instance in an array, which is the least with its shape.
#[derive(Clone, Copy)]
pub(crate) struct Spot {
    pub(crate) size: u8,
    pub(crate) agg: Option<u8>,
    pub(crate) vic: u8,
}

/// One array for each shape of an instance without an aggressor, in their order.
const ONE_CELL: [Spot; 3] = [
    Spot {
        size: 2,
        agg: None,
        vic: 0,
    },
    Spot {
        size: 2,
        agg: None,
        vic: 1,
    },
    Spot {
        size: 3,
        agg: None,
        vic: 1,
    },
];

/// One array for each shape of an instance with an aggressor, in their order. Cells between the two make no
/// difference.
const TWO_CELL: [Spot; 8] = [
    Spot {
        size: 2,
        agg: Some(0),
        vic: 1,
    },
    Spot {
        size: 2,
        agg: Some(1),
        vic: 0,
    },
    Spot {
        size: 3,
        agg: Some(0),
        vic: 1,
    },
    Spot {
        size: 3,
        agg: Some(1),
        vic: 0,
    },
    Spot {
        size: 3,
        agg: Some(1),
        vic: 2,
    },
    Spot {
        size: 3,
        agg: Some(2),
        vic: 1,
    },
    Spot {
        size: 4,
        agg: Some(1),
        vic: 2,
    },
    Spot {
        size: 4,
        agg: Some(2),
        vic: 1,
    },
];

const ALONE: [Pair; 2] = [Pair { a: false, v: false }, Pair { a: false, v: true }];

/// The contents of the two cells in their order, where the aggressor has the lower address.
const AGGRESSOR_FIRST: [Pair; 4] = [
    Pair { a: false, v: false },
    Pair { a: false, v: true },
    Pair { a: true, v: false },
    Pair { a: true, v: true },
];

/// The contents of the two cells in their order, where the victim has the lower address.
const VICTIM_FIRST: [Pair; 4] = [
    Pair { a: false, v: false },
    Pair { a: true, v: false },
    Pair { a: false, v: true },
    Pair { a: true, v: true },
];

/// The arrays that show every case of a primitive, in their order.
pub(crate) fn spots_of(prim: &DynPrim) -> &'static [Spot]
    ensures { result.now ≡ spots_of (has_aggressor prim.now) }
{
    if prim.is_two_cell() {
        &TWO_CELL
    } else {
        &ONE_CELL
    }
}

fn is_last(cell: u8, size: u8) -> bool
    ensures { result ≡ is_last_of cell size }
{
    usize::from(cell) + 1 >= usize::from(size)
}

impl Spot {
    pub(crate) fn shape(self) -> Shape
        ensures { result ≡ shape_at self }
    {
        match self.agg {
            None => Shape {
                below: self.vic > 0,
                first: Side::V,
                second: None,
                above: !is_last(self.vic, self.size),
            },
            Some(agg) if agg < self.vic => Shape {
                below: agg > 0,
                first: Side::A,
                second: Some(Side::V),
                above: !is_last(self.vic, self.size),
            },
            Some(agg) => Shape {
                below: self.vic > 0,
                first: Side::V,
                second: Some(Side::A),
                above: !is_last(agg, self.size),
            },
        }
    }

    /// The contents of the two cells in the order of the arrays' contents.
    pub(crate) fn starts(self) -> &'static [Pair]
        ensures { result.now ≡ starts_of self }
    {
        match self.agg {
            None => &ALONE,
            Some(agg) if agg < self.vic => &AGGRESSOR_FIRST,
            Some(_) => &VICTIM_FIRST,
        }
    }

    /// The content of a cell of the array, where all other cells hold 0.
    fn bit_at(self, pair: Pair, cell: u8) -> bool
        ensures { result ≡ bit_at self.agg self.vic pair cell }
    {
        if cell == self.vic {
            pair.v
        } else {
            self.agg == Some(cell) && pair.a
        }
    }

    /// Five cells, of which the first are those of the array.
    pub(crate) fn content(self, pair: Pair) -> [bool; 5]
        ensures { result ≡ content_from self.agg self.vic pair 0 5 }
    {
        [
            self.bit_at(pair, 0),
            self.bit_at(pair, 1),
            self.bit_at(pair, 2),
            self.bit_at(pair, 3),
            self.bit_at(pair, 4),
        ]
    }
}
