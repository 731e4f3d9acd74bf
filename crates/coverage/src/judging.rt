ghost use Rattle.std.specs.Prelude.{ℕ, ◌≤◌, IfOk};
ghost use Rattle.march_core.specs.March.{IsMarch};
ghost use Rattle.fault_core.specs.Primitive.{IsPrimitive};
ghost use Rattle.coverage.specs.Verdicts.{IsVerdict, IsVerdictAt, IsVerdictOfTables, AreVerdicts};

use crate::verdict::Verdict;
use bist_bits::NoMemory;
use escape_array::least;
use fault_core::Prim;
use march_core::March;
use std::alloc::Global;

/// Covered exactly where every placement of one instance, in every array of at least two cells, from every
/// content and for every choice of directions, is caught; for each single size from 2 the verdict is the same.
/// Else the least escape. The same is said by one table an element of the march: what two cells become in either
/// direction. Covered exactly where these, one after another, lead nowhere from any two cells.
pub fn judge(march: &March, prim: &Prim) -> Verdict
    ensures verdict { IsVerdict march.now prim.now result }
    ensures each_size { (size : ℕ) → 2 ≤ size → IsVerdictAt size march.now prim.now result }
    ensures tables { IsVerdictOfTables march.now prim.now result }
{
    march.known();
    prim.known();
    match least(march, prim) {
        Some(escape) => Verdict::Escape(escape),
        None => Verdict::Covered,
    }
}

/// The verdicts on these primitives, in their order.
pub fn judge_all(alloc: Global, march: &March, prims: &[Prim]) -> Result<Vec<Verdict>, NoMemory>
    ensures { IfOk result (λ verdicts. AreVerdicts march.now prims.now verdicts.items) }
{
    let mut verdicts = Vec::new(alloc);
    for prim in prims {
        if verdicts.push(judge(march, prim)).is_err() {
            return Err(NoMemory);
        }
    }
    Ok(verdicts)
}
