ghost use Rattle.std.specs.Prelude.{◌≡◌, ◌<◌, ◌↔◌, None, IsSome, IfSome, length};
ghost use Rattle.fault_core.specs.Cells.{FitsPlace, close_of};
ghost use Rattle.march_core.specs.Visits.{FitsWord, visits, directions_of};
ghost use Rattle.array_sim.specs.Run.{places_of};
ghost use Rattle.array_sim.specs.inner.Run.{run_of};
ghost use Rattle.array_sim.specs.Differing.{IsFirstMiss, StopsAt};
ghost use Rattle.array_sim.specs.Detection.{IsCaught, cells_after};

use crate::element_run::run_element;
use fault_core::{Places, Prim, close_cells};
use march_core::{March, Miss};

/// One instance of a primitive: its aggressor's cell, if it has one, and its victim's.
#[derive(Clone, Copy)]
pub struct Instance {
    pub prim: Prim,
    pub agg: Option<usize>,
    pub vic: usize,
}

/// Runs the elements of the march in these directions on closed cells, up to the first miss.
fn run_elements(
    march: &March,
    prim: &Prim,
    places: Places,
    cells: &mut [bool],
    directions: u64,
) -> Option<Miss>
    requires places { FitsPlace prim.now places (length cells.old) }
    ensures cells { cells.new ≡ (run_of prim.now places cells.old
        (visits march.now (directions_of directions (length march.now)) (length cells.old))).cells }
    ensures miss { result ≡ (run_of prim.now places cells.old
        (visits march.now (directions_of directions (length march.now)) (length cells.old))).miss }
{
    for element in 0..march.len() {
        if let Some(miss) = run_element(prim, places, cells, march, element, directions) {
            return Some(miss);
        }
    }
    None
}

/// Closes the content and runs the march in these directions. The answer is the first read that answers
/// another bit than the march expects, and None exactly where none does. The cells are left as they are
/// after that read, or at the end.
pub fn simulate(
    march: &March,
    instance: &Instance,
    cells: &mut [bool],
    directions: u64,
) -> Option<Miss>
    requires places { FitsPlace instance.now.prim (places_of instance.now) (length cells.old) }
    requires fits { FitsWord march.now directions }
    ensures caught { IsSome result ↔ IsCaught march.now (directions_of directions (length march.now)) instance.now.prim
        (places_of instance.now) cells.old }
    ensures first { IfSome result (λ miss. IsFirstMiss instance.now.prim (places_of instance.now)
        (close_of instance.now.prim (places_of instance.now) cells.old)
        (visits march.now (directions_of directions (length march.now)) (length cells.old)) miss) }
    ensures passed { result ≡ None → cells.new
        ≡ cells_after march.now (directions_of directions (length march.now)) instance.now.prim
        (places_of instance.now) cells.old }
    ensures stopped { IfSome result (λ miss. StopsAt instance.now.prim (places_of instance.now)
        (close_of instance.now.prim (places_of instance.now) cells.old)
        (visits march.now (directions_of directions (length march.now)) (length cells.old)) miss cells.new) }
{
    let places = Places {
        agg: instance.agg,
        vic: instance.vic,
    };
    let prim = instance.prim;
    close_cells(&prim, places, cells);
    run_elements(march, &prim, places, cells, directions)
}
