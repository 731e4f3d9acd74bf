//! The two cells of an instance of a primitive.
ghost use Rattle.std.specs.Prelude.{◌≡◌, ◌<◌, Some, map};
ghost use Rattle.march_core.specs.Addresses.{direction_of};
ghost use Rattle.pair_tracker.specs.Pairs.{machine_of, sides_in};
ghost use Rattle.pair_tracker.specs.Reached.{is_wanted};
ghost use Rattle.pair_tracker.specs.Survivors.{pair_number};
ghost use Rattle.pair_tracker.specs.inner.Numbers.{same_number, number_below};

use crate::element_step::FewCells;
use cell_machine::{Pair, Side, act, pause};
use fault_core::{Act, Prim};

/// The number of a pair: the aggressor's bit first.
pub fn number_of(pair: Pair) -> usize
    ensures number { result ≡ pair_number pair }
    ensures below { result < 4 }
{
    2 * usize::from(pair.a) + usize::from(pair.v)
}

/// The two cells of an instance, and the pair that is wanted at the end, or any.
#[derive(Drop)]
pub(crate) struct Cells<'a> {
    pub(crate) prim: &'a Prim,
    pub(crate) is_below: bool,
    pub(crate) wanted: Option<Pair>,
}

/// The aggressor or the bystander, and then the victim.
const VICTIM_LAST: [Side; 2] = [Side::A, Side::V];

const VICTIM_FIRST: [Side; 2] = [Side::V, Side::A];

/// The two cells in the order of a direction, by whether the first of them has the lower address.
pub fn sides_in(is_below: bool, is_down: bool) -> &'static [Side]
    ensures { map Some result.now ≡ sides_in is_below (direction_of is_down) }
{
    match (is_below, is_down) {
        (true, false) | (false, true) => &VICTIM_LAST,
        (true, true) | (false, false) => &VICTIM_FIRST,
    }
}

impl FewCells for Cells<'_> {
    type State = Pair;

    type Cell = Side;

    ghost Fits = { λ s. Unit {0} };

    ghost machine = { λ s. machine_of s.prim.now };

    ghost order = { λ s. sides_in s.is_below };

    ghost wanted = { λ s. is_wanted s.wanted };

    ghost number = { pair_number };

    fn act(&self, start: Pair, on: Side, done: Act) -> (Pair, Option<bool>) {
        act(self.prim, start, on, done)
    }

    fn pause(&self, start: Pair) -> Pair {
        pause(self.prim, start)
    }

    fn cells(&self, is_down: bool) -> &[Side] {
        sides_in(self.is_below, is_down)
    }

    fn is_wanted(&self, end: Pair) -> bool {
        match self.wanted {
            None => true,
            Some(wanted) => end.a == wanted.a && end.v == wanted.v,
        }
    }

    fn number(&self, pair: Pair) -> usize {
        number_of(pair)
    }

    ghost tells = { same_number };

    ghost few = { number_below };
}
