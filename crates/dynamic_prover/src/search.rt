//! A search through the tables of a march in a shape, for any end.

ghost use Rattle.std.specs.Prelude.{drop, length};
ghost use Rattle.dynamic_prover.specs.inner.Ways.{any_end};
ghost use Rattle.dynamic_prover.specs.inner.Legs.{leg_end, own_number};
ghost use Rattle.dynamic_prover.specs.inner.Numbers.{same_own, own_below};
ghost use Rattle.dynamic_prover.specs.declared.leg.Leg.{Leg};

use crate::leg::Leg;
use crate::own_cells::OwnCells;
use crate::shape::Shape;
use pair_tracker::Ways;

/// What is looked for: a way through a march by its tables, in a shape.
#[derive(Clone, Copy)]
pub(crate) struct Search<'a> {
    pub(crate) legs: &'a [Leg],
    pub(crate) shape: Shape,
}

impl Ways for Search<'_> {
    type State = OwnCells;

    ghost Holds = { λ s. Unit {0} };

    ghost Element = { Leg };

    ghost count = { λ s. length s.legs.now };

    ghost from = { λ s i. drop i s.legs.now };

    ghost lead = { λ s. leg_end s.shape };

    ghost wanted = { λ s. any_end };

    ghost number = { own_number };

    fn count(&self) -> usize {
        self.legs.len()
    }

    fn lead(&self, i: usize, start: OwnCells, is_down: bool) -> Option<OwnCells> {
        self.legs[i].end(self.shape, start, is_down)
    }

    fn is_wanted(&self, _end: OwnCells) -> bool {
        true
    }

    fn number(&self, own: OwnCells) -> usize {
        own.number()
    }

    ghost tells = { same_own };

    ghost few = { own_below };
}
