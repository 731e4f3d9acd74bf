ghost use Rattle.std.specs.Prelude.{◌≡◌, ◌<◌, ◌↔◌, false, None, IsSome, IfSome, length};
ghost use Rattle.march_core.specs.March.{element_at};
ghost use Rattle.march_core.specs.Visits.{cell_visits, address_visits, addresses, element_visits, direction_at, FitsWord, visits, directions_of};
ghost use Rattle.march_core.specs.Addresses.{direction_of};
ghost use Rattle.march_core.specs.inner.Addresses.{steps_of};
ghost use Rattle.dynamic_core.specs.Dynamic.{held_as};
ghost use Rattle.dynamic_core.specs.inner.Dynamic.{dyn_run, ending_as};
ghost use Rattle.dynamic_core.specs.Differing.{IsFirstDynMiss, StopsAtDyn};
ghost use Rattle.dynamic_core.specs.Detecting.{FitsDyn, IsCaughtDyn, cells_after_dyn};
ghost use Rattle.dynamic_core.specs.inner.Detecting.{ending_of};
ghost use Rattle.dynamic_core.specs.Instances.{dyn_places};

use crate::primitive::DynPrim;
use crate::stepping::step_dynamic;
use array_sim::act_of;
use fault_core::Places;
use march_core::{March, Miss, Op, address_of, is_down, is_wrong};

/// One instance of a primitive: its aggressor's cell, if it has one, and its victim's.
#[derive(Clone, Copy)]
pub struct DynInstance {
    pub prim: DynPrim,
    pub agg: Option<usize>,
    pub vic: usize,
}

/// Does the operations of an element on one cell, up to the first miss.
fn run_cell(
    prim: &DynPrim,
    places: Places,
    cells: &mut [bool],
    armed: &mut bool,
    element: usize,
    address: usize,
    ops: &[Op],
) -> Option<Miss>
    requires places { FitsDyn prim.now places (length cells.old) }
    requires within { address < length cells.old }
    ensures { ending_as result (held_as cells.new armed.new)
        ≡ dyn_run prim.now places (held_as cells.old armed.old) (steps_of (cell_visits element address 0 ops.now)) }
{
    for (number, op) in ops.iter().enumerate() {
        let answer = step_dynamic(prim, places, cells, armed, address, act_of(*op));
        if is_wrong(*op, answer) {
            return Some(Miss {
                element,
                address,
                op: number,
            });
        }
    }
    None
}

/// Does the operations of an element on each cell in turn, up to the first miss.
fn run_sweep(
    prim: &DynPrim,
    places: Places,
    cells: &mut [bool],
    armed: &mut bool,
    element: usize,
    ops: &[Op],
    is_down: bool,
) -> Option<Miss>
    requires places { FitsDyn prim.now places (length cells.old) }
    ensures { ending_as result (held_as cells.new armed.new)
        ≡ dyn_run prim.now places (held_as cells.old armed.old)
        (steps_of (address_visits element ops.now (addresses (direction_of is_down) (length cells.old)))) }
{
    let size = cells.len();
    for place in 0..size {
        let address = address_of(is_down, place, size);
        if let Some(miss) = run_cell(prim, places, cells, armed, element, address, ops) {
            return Some(miss);
        }
    }
    None
}

/// Does an element of a march in a direction, up to the first miss. A pause leaves nothing armed.
fn run_element(
    prim: &DynPrim,
    places: Places,
    cells: &mut [bool],
    armed: &mut bool,
    march: &March,
    element: usize,
    directions: u64,
) -> Option<Miss>
    requires places { FitsDyn prim.now places (length cells.old) }
    requires there { element < length march.now }
    requires within { element < 64 }
    ensures { ending_as result (held_as cells.new armed.new)
        ≡ dyn_run prim.now places (held_as cells.old armed.old)
        (element_visits element (element_at march.now element) (direction_at directions element) (length cells.old)) }
{
    if march.is_pause(element) {
        *armed = false;
        return None;
    }
    let down = is_down(directions, element);
    run_sweep(
        prim,
        places,
        cells,
        armed,
        element,
        march.ops(element),
        down,
    )
}

/// Runs the elements of the march in these directions, up to the first miss.
fn run_elements(
    march: &March,
    prim: &DynPrim,
    places: Places,
    cells: &mut [bool],
    armed: &mut bool,
    directions: u64,
) -> Option<Miss>
    requires places { FitsDyn prim.now places (length cells.old) }
    requires begins { armed.old ≡ false }
    ensures { ending_as result (held_as cells.new armed.new)
        ≡ ending_of march.now (directions_of directions (length march.now)) prim.now places cells.old }
{
    for element in 0..march.len() {
        if let Some(miss) = run_element(prim, places, cells, armed, march, element, directions) {
            return Some(miss);
        }
    }
    None
}

/// Runs the march in these directions on the content. The answer is the first read that answers another bit
/// than the march expects, and None exactly where none does. The cells are left as they are after that read,
/// or at the end.
pub fn simulate_dyn(
    march: &March,
    instance: &DynInstance,
    cells: &mut [bool],
    directions: u64,
) -> Option<Miss>
    requires places { FitsDyn instance.now.prim (dyn_places instance.now) (length cells.old) }
    requires fits { FitsWord march.now directions }
    ensures caught { IsSome result ↔ IsCaughtDyn march.now
        (directions_of directions (length march.now)) instance.now.prim (dyn_places instance.now) cells.old }
    ensures first { IfSome result (λ miss. IsFirstDynMiss instance.now.prim (dyn_places instance.now)
        (held_as cells.old false) (visits march.now (directions_of directions (length march.now))
        (length cells.old)) miss) }
    ensures passed { result ≡ None → cells.new
        ≡ cells_after_dyn march.now (directions_of directions (length march.now)) instance.now.prim
        (dyn_places instance.now) cells.old }
    ensures stopped { IfSome result (λ miss. StopsAtDyn instance.now.prim (dyn_places instance.now)
        (held_as cells.old false) (visits march.now (directions_of directions (length march.now))
        (length cells.old)) miss cells.new) }
{
    let places = Places {
        agg: instance.agg,
        vic: instance.vic,
    };
    let prim = instance.prim;
    let mut armed = false;
    run_elements(march, &prim, places, cells, &mut armed, directions)
}
