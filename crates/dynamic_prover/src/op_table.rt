//! Where each single operation leads, from which those of an element are looked up.

ghost use Rattle.std.specs.Prelude.{◌≡◌, length};
ghost use Rattle.march_core.specs.declared.operation.Op.{Op};
ghost use Rattle.cell_machine.specs.declared.pair.Side.{Side};
ghost use Rattle.dynamic_core.specs.Primitive.{DynamicPrimitive};
ghost use Rattle.dynamic_prover.specs.declared.own_cells.OwnCells.{OwnCells};
ghost use Rattle.pair_tracker.specs.Few.{ops_run};
ghost use Rattle.dynamic_prover.specs.inner.Own.{machine_of};
ghost use Rattle.dynamic_prover.specs.inner.Legs.{end_from};
ghost use Rattle.dynamic_prover.specs.inner.OpTables.{ends_by, IsOpTable};

use crate::own_cells::{OwnCells, own_cells, run_ops};
use cell_machine::Side;
use dynamic_core::DynPrim;
use march_core::Op;

/// Where each operation on one of the two cells leads from each of their contents, by the number of these. None
/// where a read differs.
#[derive(Clone, Copy)]
pub(crate) struct OpTable {
    write_0: [Option<OwnCells>; 8],
    write_1: [Option<OwnCells>; 8],
    read_0: [Option<OwnCells>; 8],
    read_1: [Option<OwnCells>; 8],
}

/// Where operations on one of the two cells lead from each of their contents.
fn ends_of(prim: &DynPrim, on: Side, ops: &[Op]) -> [Option<OwnCells>; 8]
    ensures ends { (q : OwnCells) → end_from result q ≡ ops_run (machine_of prim.now) q on ops.now }
    ensures each { length result ≡ 8 }
{
    [
        run_ops(prim, own_cells(false, false, false), on, ops),
        run_ops(prim, own_cells(false, false, true), on, ops),
        run_ops(prim, own_cells(false, true, false), on, ops),
        run_ops(prim, own_cells(false, true, true), on, ops),
        run_ops(prim, own_cells(true, false, false), on, ops),
        run_ops(prim, own_cells(true, false, true), on, ops),
        run_ops(prim, own_cells(true, true, false), on, ops),
        run_ops(prim, own_cells(true, true, true), on, ops),
    ]
}

impl OpTable {
    pub(crate) fn new(prim: &DynPrim, on: Side) -> OpTable
        ensures { IsOpTable prim.now on result }
    {
        OpTable {
            write_0: ends_of(prim, on, &[Op::W0]),
            write_1: ends_of(prim, on, &[Op::W1]),
            read_0: ends_of(prim, on, &[Op::R0]),
            read_1: ends_of(prim, on, &[Op::R1]),
        }
    }

    /// Where an operation leads.
    fn end(&self, op: Op, start: OwnCells) -> Option<OwnCells>
        ensures { result ≡ end_from (ends_by self.now op) start }
    {
        match op {
            Op::W0 => self.write_0[start.number()],
            Op::W1 => self.write_1[start.number()],
            Op::R0 => self.read_0[start.number()],
            Op::R1 => self.read_1[start.number()],
        }
    }

    /// Where these operations lead, one behind another.
    fn run(&self, start: OwnCells, ops: &[Op]) -> Option<OwnCells>
        ensures { (p : DynamicPrimitive) (s : Side) → IsOpTable p s self.now → result ≡ ops_run (machine_of p) start s ops.now }
    {
        let mut own = start;
        for op in ops {
            let Some(end) = self.end(*op, own) else {
                return None;
            };
            own = end;
        }
        Some(own)
    }

    /// Where these operations lead from each of the contents.
    pub(crate) fn ends(&self, ops: &[Op]) -> [Option<OwnCells>; 8]
        ensures ends { (p : DynamicPrimitive) (s : Side) → IsOpTable p s self.now → (q : OwnCells)
            → end_from result q ≡ ops_run (machine_of p) q s ops.now }
        ensures each { length result ≡ 8 }
    {
        [
            self.run(own_cells(false, false, false), ops),
            self.run(own_cells(false, false, true), ops),
            self.run(own_cells(false, true, false), ops),
            self.run(own_cells(false, true, true), ops),
            self.run(own_cells(true, false, false), ops),
            self.run(own_cells(true, false, true), ops),
            self.run(own_cells(true, true, false), ops),
            self.run(own_cells(true, true, true), ops),
        ]
    }
}
