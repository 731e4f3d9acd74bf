ghost use Rattle.std.specs.Prelude.{◌≡◌, ◌<◌, ◌≤◌, IfErr, length};
ghost use Rattle.bist_host.specs.Files.{OnlyReads};
ghost use Rattle.bist_inputs.specs.Inputs.{HasCause, IsOwnRefusal};
ghost use Rattle.bist_inputs.specs.Chips.{GivesChip, InputChip, in_unit, of_unit, UnitMarch, UnitMemory};

use crate::inputs::{read_input, read_march_file};
use crate::memories::read_memory_file;
use bist_endings::{ChipRefusal, InputRefusal, Refusal};
use bist_host::Host;
use chip_desc::{ChipDesc, read_chip};
use march_core::March;
use memory_desc::Memory;

/// The chip of a text.
#[tactic(auto, unfolding(crate::specs::Chips::GivesChip))]
fn give_chip(bytes: &[u8]) -> Result<ChipDesc, Refusal>
    ensures answer { GivesChip bytes.now result }
    ensures own { IfErr result IsOwnRefusal }
{
    match read_chip(bytes) {
        Ok(chip) => {
            chip.known();
            Ok(chip)
        }
        Err(fault) => Err(Refusal::Chip(ChipRefusal::File(fault))),
    }
}

/// The chip of the file that a word names.
#[tactic(auto, using(crate::proofs::Causes::own_cause), unfolding(crate::specs::Chips::InputChip))]
pub fn read_chip_input<H: Host>(
    host: &mut H,
    words: &[&str],
    position: usize,
) -> Result<ChipDesc, Refusal>
    requires { position < length words.now }
    ensures kept { OnlyReads (H.state host.old) (H.state host.new) }
    ensures answer { InputChip (H.state host.old).files words.now position result }
    ensures cause { HasCause (H.state host.old) (H.state host.new) result }
{
    let bytes = read_input(host, words, position)?;
    give_chip(&bytes)
}

/// A refusal of an input, where the input is a unit's.
fn in_unit(unit: usize, refusal: Refusal) -> Refusal
    ensures { result ≡ in_unit unit refusal }
{
    let refusal = match refusal {
        Refusal::March(fault) => InputRefusal::March(fault),
        Refusal::Memory(fault) => InputRefusal::Memory(fault),
        Refusal::TooLarge { position } => InputRefusal::TooLarge { position },
        Refusal::ReadFailed { position } => InputRefusal::ReadFailed { position },
        Refusal::Absent { position } => InputRefusal::Absent { position },
        other => return other,
    };
    Refusal::Unit { unit, refusal }
}

/// The march of the file of this name, for a unit.
#[tactic(auto, using(crate::proofs::Causes::unit_cause), unfolding(crate::specs::Chips::UnitMarch))]
pub fn read_unit_march<H: Host>(host: &mut H, name: &str, unit: usize) -> Result<March, Refusal>
    ensures kept { OnlyReads (H.state host.old) (H.state host.new) }
    ensures answer { UnitMarch (H.state host.old).files unit name.now result }
    ensures cause { HasCause (H.state host.old) (H.state host.new) result }
{
    match read_march_file(host, name, 1) {
        Ok(march) => Ok(march),
        Err(refusal) => Err(in_unit(unit, refusal)),
    }
}

/// The memory of the file of this name, for a unit.
#[tactic(auto, using(crate::proofs::Causes::unit_cause), unfolding(crate::specs::Chips::UnitMemory))]
pub fn read_unit_memory<H: Host>(host: &mut H, name: &str, unit: usize) -> Result<Memory, Refusal>
    ensures kept { OnlyReads (H.state host.old) (H.state host.new) }
    ensures answer { UnitMemory (H.state host.old).files unit name.now result }
    ensures cause { HasCause (H.state host.old) (H.state host.new) result }
{
    match read_memory_file(host, name, 2) {
        Ok(memory) => Ok(memory),
        Err(refusal) => Err(in_unit(unit, refusal)),
    }
}
