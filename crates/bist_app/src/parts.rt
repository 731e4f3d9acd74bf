//! What several plans are made of.

ghost use Rattle.std.specs.Prelude.{◌≡◌, ◌∷◌, [], IfOk, map};
ghost use Rattle.bist_endings.specs.Ending.{written_of};

use bist_bits::NoMemory;
use bist_endings::Output;
use std::alloc::Global;

/// These files in their order.
pub fn listed<const N: usize>(alloc: Global, outputs: [Output; N]) -> Result<Vec<Output>, NoMemory>
    ensures { IfOk result (λ list. map written_of list.items ≡ map written_of outputs.entry) }
{
    match Vec::from_array(alloc, outputs) {
        Ok(list) => Ok(list),
        Err(_) => Err(NoMemory),
    }
}

/// The file that one word names.
pub fn one_output(alloc: Global, position: usize, bytes: Vec<u8>) -> Result<Vec<Output>, NoMemory>
    ensures { IfOk result (λ outputs. map written_of outputs.items ≡ (record { position = position; bytes = bytes.items }) ∷ []) }
{
    listed(alloc, [Output { position, bytes }])
}
