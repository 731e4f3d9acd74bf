ghost use Rattle.std.specs.Prelude.{◌≡◌, ◌<◌, length};
ghost use Rattle.fault_core.specs.Cells.{FitsPlace};
ghost use Rattle.march_core.specs.March.{element_at};
ghost use Rattle.march_core.specs.Visits.{cell_visits, address_visits, addresses, direction_at, element_visits};
ghost use Rattle.march_core.specs.Addresses.{direction_of};
ghost use Rattle.march_core.specs.inner.Addresses.{steps_of};
ghost use Rattle.array_sim.specs.inner.Run.{run_of};

use crate::act::act_of;
use fault_core::{Places, Prim, pause_cells, step};
use march_core::{March, Miss, Op, address_of, is_down, is_wrong};

/// Does the operations of an element on one cell, up to the first miss.
fn run_cell(
    prim: &Prim,
    places: Places,
    cells: &mut [bool],
    element: usize,
    address: usize,
    ops: &[Op],
) -> Option<Miss>
    requires places { FitsPlace prim.now places (length cells.old) }
    requires within { address < length cells.old }
    ensures cells { cells.new ≡ (run_of prim.now places cells.old (steps_of (cell_visits element address 0 ops.now))).cells }
    ensures miss { result ≡ (run_of prim.now places cells.old (steps_of (cell_visits element address 0 ops.now))).miss }
{
    for (number, op) in ops.iter().enumerate() {
        let answer = step(prim, places, cells, address, act_of(*op));
        if is_wrong(*op, answer) {
            return Some(Miss {
                element,
                address,
                op: number,
            });
        }
    }
    None
}

/// Does the operations of an element on each cell in turn, up to the first miss.
fn run_sweep(
    prim: &Prim,
    places: Places,
    cells: &mut [bool],
    element: usize,
    ops: &[Op],
    is_down: bool,
) -> Option<Miss>
    requires places { FitsPlace prim.now places (length cells.old) }
    ensures cells { cells.new ≡ (run_of prim.now places cells.old
        (steps_of (address_visits element ops.now (addresses (direction_of is_down) (length cells.old))))).cells }
    ensures miss { result ≡ (run_of prim.now places cells.old
        (steps_of (address_visits element ops.now (addresses (direction_of is_down) (length cells.old))))).miss }
{
    let size = cells.len();
    for place in 0..size {
        let address = address_of(is_down, place, size);
        if let Some(miss) = run_cell(prim, places, cells, element, address, ops) {
            return Some(miss);
        }
    }
    None
}

/// Does an element of a march in a direction, up to the first miss.
pub(crate) fn run_element(
    prim: &Prim,
    places: Places,
    cells: &mut [bool],
    march: &March,
    element: usize,
    directions: u64,
) -> Option<Miss>
    requires places { FitsPlace prim.now places (length cells.old) }
    requires there { element < length march.now }
    requires within { element < 64 }
    ensures cells { cells.new ≡ (run_of prim.now places cells.old
        (element_visits element (element_at march.now element) (direction_at directions element)
        (length cells.old))).cells }
    ensures miss { result ≡ (run_of prim.now places cells.old
        (element_visits element (element_at march.now element) (direction_at directions element)
        (length cells.old))).miss }
{
    if march.is_pause(element) {
        pause_cells(prim, places, cells);
        return None;
    }
    let down = is_down(directions, element);
    run_sweep(prim, places, cells, element, march.ops(element), down)
}
