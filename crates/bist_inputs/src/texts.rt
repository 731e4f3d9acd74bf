ghost use Rattle.std.specs.Prelude.{◌≡◌, ◌<◌, ◌≤◌, ◌⊎◌, IfErr, Err, length};
ghost use Rattle.bist_host.specs.Files.{OnlyReads};
ghost use Rattle.dynamic_core.specs.Items.{ReadsItems};
ghost use Rattle.bist_endings.specs.Then.{items_of};
ghost use Rattle.bist_inputs.specs.Inputs.{GivesPrim, GivesList, HasCause, InputList, IsOwnRefusal};

use crate::inputs::read_input;
use bist_endings::Refusal;
use bist_host::Host;
use dynamic_core::{Item, read_items};
use fault_core::Prim;
use fault_syntax::{FaultFault, read_prim};
use std::alloc::Global;

/// The primitive of a word.
#[tactic(auto, unfolding(crate::specs::Inputs::GivesPrim))]
pub fn give_prim(text: &[u8]) -> Result<Prim, Refusal>
    ensures answer { GivesPrim text.now result }
    ensures own { IfErr result IsOwnRefusal }
{
    match read_prim(text) {
        Ok(prim) => Ok(prim),
        Err(fault) => Err(Refusal::Fault(fault)),
    }
}

/// Why a list is refused; want of memory is no refusal of a list.
#[tactic(auto, unfolding(crate::specs::Inputs::GivesList))]
fn list_refusal(bytes: &[u8], fault: FaultFault) -> Refusal
    requires { (fault ≡ FaultFault.NoMemory) ⊎ ReadsItems bytes.now (Err fault) }
    ensures answer { GivesList bytes.now (Err result) }
    ensures own { IsOwnRefusal result }
{
    match fault {
        FaultFault::NoMemory => Refusal::NoMemory,
        _ => Refusal::Fault(fault),
    }
}

/// The items of a list.
#[tactic(auto, unfolding(crate::specs::Inputs::GivesList))]
fn give_list(alloc: Global, bytes: &[u8]) -> Result<Vec<Item>, Refusal>
    ensures answer { GivesList bytes.now (items_of result) }
    ensures own { IfErr result IsOwnRefusal }
{
    match read_items(alloc, bytes) {
        Ok(items) => Ok(items),
        Err(fault) => Err(list_refusal(bytes, fault)),
    }
}

/// The items of the list that a word names.
#[tactic(auto, using(crate::proofs::Causes::own_cause), unfolding(crate::specs::Inputs::InputList))]
pub fn read_list_input<H: Host>(
    alloc: Global,
    host: &mut H,
    words: &[&str],
    position: usize,
) -> Result<Vec<Item>, Refusal>
    requires { position < length words.now }
    ensures kept { OnlyReads (H.state host.old) (H.state host.new) }
    ensures answer { InputList (H.state host.old).files words.now position (items_of result) }
    ensures cause { HasCause (H.state host.old) (H.state host.new) result }
{
    let bytes = read_input(host, words, position)?;
    give_list(alloc, &bytes)
}
