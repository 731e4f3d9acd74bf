ghost use Rattle.cell_machine.specs.Pairs.{pair_close};
ghost use Rattle.pair_tracker.specs.Placements.{FitsPlacement, pair_in};
ghost use Rattle.pair_tracker.specs.Tables.{tables_at, AreComposed};
ghost use Rattle.pair_tracker.specs.Survivors.{AreSurvivors};

use crate::placement::{Placement, Survivor};
use crate::summary::Summary;
use arrayvec::ArrayVec;
use fault_core::Prim;
use march_core::March;

/// Each final pair of an array of two cells that some fitting direction word reaches with no read that
/// differs: once, with the least such word, in the order of the pairs (`a` first, 0 before 1). The content is
/// that of cell 0 and then of cell 1, before closing. These are the pairs that the tables of the march lead to. The choices of
/// direction are not walked one by one.
pub fn survivors(
    march: &March,
    prim: &Prim,
    placement: Placement,
    content: [bool; 2],
) -> ArrayVec<Survivor, 4>
    requires { FitsPlacement prim.now placement }
    ensures value { AreSurvivors march.now prim.now placement content result.items }
    ensures tables { AreComposed (tables_at prim.now placement march.now) (pair_close prim.now (pair_in placement content)) result.items }
{
    Summary::whole(march, prim, placement).survivors(content)
}
