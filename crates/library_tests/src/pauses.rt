//! Pauses as values: in marches, what they do to cells, and to a pair of cells.

ghost use Rattle.std.specs.Prelude.{◌≡◌, None};

use crate::given::{all_hold, one_cell_prim};
use cell_machine::{Pair, pause};
use fault_core::{Act, Places, Prim, pause_cells};
use march_core::{March, MarchBuilder, MarchFault, Op, Order};

/// `{any(w0);del}`.
fn a_pause_behind_a_write() -> Result<March, MarchFault> {
    let mut builder = MarchBuilder::new();
    let is_built = builder.element(Order::Any).is_ok()
        & builder.op(Op::W0).is_ok()
        & builder.pause().is_ok();
    if !is_built {
        return Err(MarchFault::Empty);
    }
    builder.finish()
}

/// Whether the march has a pause as its second of two elements.
fn ends_with_pause(march: &March) -> bool {
    march.len() == 2
        && !march.is_pause(0)
        && march.is_pause(1)
        && march.order(1) == Order::Up
        && march.ops(1).is_empty()
}

/// Whether only the direction of the first element can be chosen.
fn has_one_direction(march: &March) -> bool {
    march.fits_directions(0) && march.fits_directions(1 << 63) && !march.fits_directions(1 << 62)
}

/// Whether the second cell loses a zero in the pause, and no other does.
fn a_pause_is_on_no_cell(loses_zero: &Prim, before: [bool; 3]) -> bool
    requires { loses_zero.now.agg ≡ None }
{
    let mut cells = before;
    pause_cells(loses_zero, Places { agg: None, vic: 1 }, &mut cells);
    cells == [false, true, false]
}

const ZEROS: Pair = Pair { a: false, v: false };

const ONES: Pair = Pair { a: true, v: true };

fn pauses_change_pairs(loses_zero: &Prim) -> bool {
    pause(loses_zero, ZEROS) == Pair { a: false, v: true } && pause(loses_zero, ONES) == ONES
}

#[test]
fn pauses_as_values(rt: HostRuntime) {
    let march = a_pause_behind_a_write().expect(&rt, "a march");
    let loses_zero = one_cell_prim(&rt, false, Some(Act::Pause), true);
    let zeros = [false, false, false];
    let one = [false, true, false];
    all_hold(
        &rt,
        &[
            ends_with_pause(&march),
            has_one_direction(&march),
            a_pause_is_on_no_cell(&loses_zero, zeros),
            a_pause_is_on_no_cell(&loses_zero, one),
            pauses_change_pairs(&loses_zero),
        ],
    );
}
