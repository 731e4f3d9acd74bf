ghost use Rattle.std.specs.Prelude.{◌≡◌};
ghost use Rattle.march_core.specs.Addresses.{direction_of};
ghost use Rattle.dynamic_prover.specs.inner.Shapes.{turned, in_direction};

use cell_machine::Side;

/// What alone decides of an array with one instance: the order of the instance's cells, and whether any other
/// cell lies below or above both.
#[derive(Clone, Copy)]
pub(crate) struct Shape {
    pub(crate) below: bool,
    pub(crate) first: Side,
    pub(crate) second: Option<Side>,
    pub(crate) above: bool,
}

impl Shape {
    /// The same from above.
    fn turned(self) -> Shape
        ensures { result ≡ turned self }
    {
        let (first, second) = match self.second {
            None => (self.first, None),
            Some(last) => (last, Some(self.first)),
        };
        Shape {
            below: self.above,
            first,
            second,
            above: self.below,
        }
    }

    pub(crate) fn in_direction(self, is_down: bool) -> Shape
        ensures { result ≡ in_direction (direction_of is_down) self }
    {
        if is_down { self.turned() } else { self }
    }
}
