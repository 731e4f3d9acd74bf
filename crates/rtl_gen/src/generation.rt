ghost use Rattle.std.specs.Prelude.{◌≡◌, true, IfOk};
ghost use Rattle.verilog_tree.specs.Plain.{plain_module};
ghost use Rattle.verilog_tree.specs.Fits.{fits};
ghost use Rattle.self_test.specs.SelfTest.{SelfTest};
ghost use Rattle.self_test.specs.Expected.{ShowsExpected};
ghost use Rattle.self_test.specs.Numbers.{ShowsNumbers};
ghost use Rattle.rtl_layout.specs.Plan.{Plan};
ghost use Rattle.rtl_layout.specs.Layout as L;
ghost use Rattle.rtl_layout.specs.Shows.{IsPlan};

use crate::planning::plan;
use bist_bits::NoMemory;
use march_core::March;
use memory_desc::Memory;
use rtl_layout::module;
use std::alloc::Global;
use verilog_tree::Module;

/// The self-test module of a march and a memory.
///
/// Want of memory is its only refusal.
pub fn generate(alloc: Global, march: &March, memory: &Memory) -> Result<Module, NoMemory>
    ensures fits { IfOk result (λ m. fits (plain_module m) ≡ true) }
    ensures layout { IfOk result (λ m. (p : Plan) × IsPlan p × (plain_module m ≡ L.self_test p)) }
    ensures self_test { IfOk result (λ m. SelfTest (plain_module m) march.now memory.now) }
    ensures expected { IfOk result (λ m. ShowsExpected (plain_module m) march.now memory.now) }
    ensures numbers { IfOk result (λ m. ShowsNumbers (plain_module m) march.now memory.now) }
{
    let plan = plan(march, memory);
    match module(alloc, &plan) {
        Ok(module) => Ok(module),
        Err(_) => Err(NoMemory),
    }
}
