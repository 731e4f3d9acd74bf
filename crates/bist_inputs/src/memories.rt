ghost use Rattle.std.specs.Prelude.{◌≡◌, ◌<◌, ◌≤◌, IfErr, length};
ghost use Rattle.bist_host.specs.Files.{OnlyReads};
ghost use Rattle.bist_inputs.specs.Inputs.{HasCause, IsOwnRefusal};
ghost use Rattle.bist_inputs.specs.Memories.{FileMemory, GivesMemory, InputMemory};

use crate::inputs::read_named;
use bist_endings::Refusal;
use bist_host::Host;
use memory_desc::{Memory, read_memory};

/// The memory of a text.
#[tactic(auto, unfolding(crate::specs::Memories::GivesMemory))]
fn give_memory(bytes: &[u8]) -> Result<Memory, Refusal>
    ensures answer { GivesMemory bytes.now result }
    ensures own { IfErr result IsOwnRefusal }
{
    match read_memory(bytes) {
        Ok(memory) => {
            memory.known();
            Ok(memory)
        }
        Err(fault) => Err(Refusal::Memory(fault)),
    }
}

/// The memory of the file of this name.
#[tactic(auto, using(crate::proofs::Causes::own_cause), unfolding(crate::specs::Memories::FileMemory))]
pub fn read_memory_file<H: Host>(
    host: &mut H,
    name: &str,
    position: usize,
) -> Result<Memory, Refusal>
    ensures kept { OnlyReads (H.state host.old) (H.state host.new) }
    ensures answer { FileMemory (H.state host.old).files name.now position result }
    ensures cause { HasCause (H.state host.old) (H.state host.new) result }
{
    let bytes = read_named(host, name, position)?;
    give_memory(&bytes)
}

/// The memory of the file that a word names.
pub fn read_memory_input<H: Host>(
    host: &mut H,
    words: &[&str],
    position: usize,
) -> Result<Memory, Refusal>
    requires { position < length words.now }
    ensures kept { OnlyReads (H.state host.old) (H.state host.new) }
    ensures answer { InputMemory (H.state host.old).files words.now position result }
    ensures cause { HasCause (H.state host.old) (H.state host.new) result }
{
    read_memory_file(host, words[position], position)
}
