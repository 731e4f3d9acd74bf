ghost use Rattle.std.specs.Prelude.{◌≡◌, ◌<◌, ◌≤◌, length};
ghost use Rattle.march_core.specs.March.{element_at};
ghost use Rattle.march_core.specs.Addresses.{direction_of};
ghost use Rattle.dynamic_prover.specs.declared.own_cells.OwnCells.{OwnCells};
ghost use Rattle.cell_machine.specs.declared.pair.Side.TheVariants.{A, V};
ghost use Rattle.dynamic_core.specs.Primitive.{DynamicPrimitive};
ghost use Rattle.dynamic_prover.specs.inner.OpTables.{IsOpTable};
ghost use Rattle.dynamic_prover.specs.inner.Legs.{end_from, ends_on, second_end, sweep_end, leg_end, IsLeg, AreLegs};

use crate::op_table::OpTable;
use crate::own_cells::OwnCells;
use crate::shape::Shape;
use arrayvec::ArrayVec;
use cell_machine::Side;
use dynamic_core::DynPrim;
use march_core::{March, Order};
use pair_tracker::does_allow;

/// Where the operations of an element lead on each of the two cells, by the number of their contents. None
/// where a read differs.
#[derive(Clone, Copy)]
pub(crate) struct SweepLeg {
    order: Order,
    on_aggressor: [Option<OwnCells>; 8],
    on_victim: [Option<OwnCells>; 8],
}

/// An element of a march, as a table of where it leads.
#[derive(Clone, Copy)]
pub(crate) enum Leg {
    Pause,
    Sweep(SweepLeg),
}

/// A blank of a fixed list.
impl Default for Leg {
    fn default() -> Self {
        Leg::Pause
    }
}

impl SweepLeg {
    /// Where the operations on one of the two cells lead.
    fn end_on(&self, on: Side, start: OwnCells) -> Option<OwnCells>
        ensures { result ≡ end_from (ends_on self.now on) start }
    {
        match on {
            Side::A => self.on_aggressor[start.number()],
            Side::V => self.on_victim[start.number()],
        }
    }

    fn end_on_second(&self, on: Option<Side>, start: OwnCells) -> Option<OwnCells>
        ensures { result ≡ second_end self.now on start }
    {
        match on {
            None => Some(start),
            Some(on) => self.end_on(on, start),
        }
    }

    /// Where the operations on each cell of a shape lead.
    fn end(&self, shape: Shape, start: OwnCells) -> Option<OwnCells>
        ensures { result ≡ sweep_end self.now shape start }
    {
        let middle = self.end_on(shape.first, start.passed_where(shape.below))?;
        let last = self.end_on_second(shape.second, middle)?;
        Some(last.passed_where(shape.above))
    }
}

impl Leg {
    /// Where the element leads in a direction. None where its order doesn't leave the direction open, or where a
    /// read differs. A pause counts as upward.
    pub(crate) fn end(&self, shape: Shape, start: OwnCells, is_down: bool) -> Option<OwnCells>
        ensures { result ≡ leg_end shape self.now start (direction_of is_down) }
    {
        match self {
            Leg::Pause => {
                if is_down {
                    None
                } else {
                    Some(start.disarmed())
                }
            }
            Leg::Sweep(leg) => {
                if does_allow(leg.order, is_down) {
                    leg.end(shape.in_direction(is_down), start)
                } else {
                    None
                }
            }
        }
    }
}

/// The table of an element, by those of single operations on each of the two cells.
fn leg_of(march: &March, on_aggressor: &OpTable, on_victim: &OpTable, element: usize) -> Leg
    requires { element < length march.now }
    ensures { (p : DynamicPrimitive) → IsOpTable p A on_aggressor.now → IsOpTable p V on_victim.now
        → IsLeg p (element_at march.now element) result }
{
    if march.is_pause(element) {
        return Leg::Pause;
    }
    let ops = march.ops(element);
    Leg::Sweep(SweepLeg {
        order: march.order(element),
        on_aggressor: on_aggressor.ends(ops),
        on_victim: on_victim.ends(ops),
    })
}

/// The tables of the elements of a march.
pub(crate) fn legs_of(march: &March, prim: &DynPrim) -> ArrayVec<Leg, 64>
    ensures legs { AreLegs prim.now march.now result.items }
    ensures few { length result.items ≤ 64 }
{
    let on_aggressor = OpTable::new(prim, Side::A);
    let on_victim = OpTable::new(prim, Side::V);
    let mut legs = ArrayVec::new();
    for element in 0..march.len() {
        legs.push(leg_of(march, &on_aggressor, &on_victim, element));
    }
    legs
}
