//! Checks that several commands make.

ghost use Rattle.std.specs.Prelude.{IfOk, IfErr};
ghost use Rattle.bist_inputs.specs.Inputs.{IsOwnRefusal};
ghost use Rattle.bist_app.specs.Shared.{FitsLength};
ghost use Rattle.self_test.specs.Refusals.{IsShort};

use bist_endings::Refusal;
use march_core::March;
use memory_desc::Memory;
use self_test::too_long;

/// Refuses a test that takes too many cycles.
pub fn fit_length(march: &March, memory: &Memory) -> Result<(), Refusal>
    ensures answer { FitsLength march.now memory.now result }
    ensures own { IfErr result IsOwnRefusal }
    ensures short { IfOk result (λ _. IsShort march.now memory.now) }
{
    match too_long(march, memory) {
        None => Ok(()),
        Some(cycles) => Err(Refusal::TooLong { cycles }),
    }
}
