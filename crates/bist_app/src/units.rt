//! The units of a chip, as their files give them.

ghost use Rattle.std.specs.Prelude.{◌≤◌, ◌+◌, ◌++◌, ◌∷◌, [], List, OnOk, length, map};
ghost use Rattle.bist_host.specs.Files.{OnlyReads};
ghost use Rattle.chip_desc.specs.Chips.{unit_of};
ghost use Rattle.chip_rtl.specs.ChipTest.{TestUnit};
ghost use Rattle.bist_inputs.specs.Inputs.{HasCause};
ghost use Rattle.bist_app.specs.inner.UnitTables.{IsTableOf, HasUnits, HasRoom, AppendsUnit, AppendsUnits};

use arrayvec::ArrayVec;
use bist_endings::Refusal;
use bist_host::Host;
use bist_inputs::{read_unit_march, read_unit_memory};
use chip_desc::ChipUnit;
use march_core::March;
use memory_desc::Memory;
use std::alloc::{AllocError, Global};
use word_march::span;

/// The units of a chip in their order: of each its march, its memory, what its test weighs, and how long it takes.
#[derive(Drop)]
pub struct UnitTable {
    pub marches: Vec<March>,
    pub memories: Vec<Memory>,
    pub weights: ArrayVec<u32, 16>,
    pub lengths: ArrayVec<u64, 16>,
}

/// The table of no units.
pub fn no_units(alloc: Global) -> UnitTable
    ensures { IsTableOf result [] }
{
    UnitTable {
        marches: Vec::new(alloc),
        memories: Vec::new(alloc),
        weights: ArrayVec::new(),
        lengths: ArrayVec::new(),
    }
}

/// Appends a unit. Its test is over one cycle and the memory's latency behind its last command.
fn push_unit(
    table: &mut UnitTable,
    march: March,
    memory: Memory,
    weight: u32,
) -> Result<(), AllocError>
    requires { HasRoom table.old }
    ensures { OnOk result ((us : List TestUnit) → IsTableOf table.old us
        → IsTableOf table.new (us ++ (record { march = march; memory = memory; weight = weight }) ∷ [])) }
{
    let length = span(&march, &memory) + 1 + u64::from(memory.latency());
    table.marches.push(march)?;
    table.memories.push(memory)?;
    table.weights.push(weight);
    table.lengths.push(length);
    Ok(())
}

/// Reads a unit of this number.
#[tactic(auto, using(crate::proofs::ReadUnits::unit_read, crate::proofs::ReadUnits::march_refused, crate::proofs::ReadUnits::memory_refused, crate::proofs::ReadUnits::unit_wanting))]
fn read_unit<H: Host>(
    host: &mut H,
    unit: &ChipUnit,
    number: usize,
    table: &mut UnitTable,
) -> Result<(), Refusal>
    requires { HasRoom table.old }
    ensures kept { OnlyReads (H.state host.old) (H.state host.new) }
    ensures answer { AppendsUnit (H.state host.old).files number (unit_of unit.now) table.old table.new result }
    ensures cause { HasCause (H.state host.old) (H.state host.new) result }
{
    let march = read_unit_march(host, unit.march.as_str(), number)?;
    let memory = read_unit_memory(host, unit.memory.as_str(), number)?;
    match push_unit(table, march, memory, unit.weight) {
        Ok(()) => Ok(()),
        Err(AllocError) => Err(Refusal::NoMemory),
    }
}

/// Reads units, the first of which has this number.
pub fn read_units<H: Host>(
    host: &mut H,
    units: &[ChipUnit],
    number: usize,
    table: &mut UnitTable,
) -> Result<(), Refusal>
    requires few { number + length units.now ≤ 16 }
    requires counted { HasUnits table.old number }
    ensures kept { OnlyReads (H.state host.old) (H.state host.new) }
    ensures answer { AppendsUnits (H.state host.old).files number (map unit_of units.now) table.old table.new result }
    ensures cause { HasCause (H.state host.old) (H.state host.new) result }
{
    match units {
        [] => Ok(()),
        [first, rest @ ..] => {
            read_unit(host, first, number, table)?;
            read_units(host, rest, number + 1, table)
        }
    }
}
