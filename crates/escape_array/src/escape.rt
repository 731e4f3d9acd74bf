ghost use Rattle.std.specs.Prelude.{◌≡◌, ◌↔◌, IsTrue, length};
ghost use Rattle.fault_core.specs.Cells.{FitsPlace};
ghost use Rattle.march_core.specs.Visits.{FitsWord, directions_of};
ghost use Rattle.array_sim.specs.Run.{places_of};
ghost use Rattle.array_sim.specs.Detection.{IsCaught};
ghost use Rattle.escape_array.specs.Escapes.{places_of_escape};

use array_sim::{Instance, simulate};
use fault_core::Prim;
use march_core::March;

/// An array of two cells with one instance of a primitive, its content before closing (cell 0 first), and a
/// direction word.
#[derive(Clone, Copy)]
pub struct EscapeArray {
    pub prim: Prim,
    /// The aggressor's cell, 0 or 1, where the primitive has an aggressor.
    pub agg: Option<u8>,
    /// The victim's cell, 0 or 1.
    pub vic: u8,
    pub content: [bool; 2],
    /// Element `i` stands at bit `63-i`, with 1 for downward.
    pub directions: u64,
}

/// The instance in the array.
fn instance_in(escape: &EscapeArray) -> Instance
    ensures prim { result.prim ≡ escape.now.prim }
    ensures places { places_of result ≡ places_of_escape escape.now }
{
    Instance {
        prim: escape.prim,
        agg: escape.agg.map(usize::from),
        vic: usize::from(escape.vic),
    }
}

/// Runs the march on the array, and answers whether no read differs.
pub fn replays(march: &March, escape: &EscapeArray) -> bool
    requires places { FitsPlace escape.now.prim (places_of_escape escape.now) 2 }
    requires directions { FitsWord march.now escape.now.directions }
    ensures { IsTrue result ↔ (IsCaught march.now
        (directions_of escape.now.directions (length march.now)) escape.now.prim
        (places_of_escape escape.now) escape.now.content → ⊥) }
{
    let mut cells = escape.content;
    let instance = instance_in(escape);
    simulate(march, &instance, &mut cells, escape.directions).is_none()
}
