//! The command `chip`: several memories of one chip, each tested by a march, within a power budget.

ghost use Rattle.std.specs.Prelude.{◌≡◌, ◌≤◌, ◌↔◌, ◌++◌, ◌∷◌, ℕ, [], List, IfOk, IfErr, IsTrue, OnOk, length, map, suc};
ghost use Rattle.bist_host.specs.Files.{OnlyReads};
ghost use Rattle.chip_plan.specs.Groups.{FirstFit, last_group, end_of};
ghost use Rattle.chip_rtl.specs.ChipTest.{TestUnit, lengths};
ghost use Rattle.chip_rtl.specs.ChipLaws.{memories, weights};
ghost use Rattle.bist_endings.specs.Ending.{plain, done_of, written_of};
ghost use Rattle.bist_endings.specs.Conclude.{NamesWords};
ghost use Rattle.bist_inputs.specs.Inputs.{HasCause, IsOwnRefusal};
ghost use Rattle.bist_app.specs.Forms.{HasForm};
ghost use Rattle.bist_app.specs.Chip.{IsEarlier, HasOwnNames, chip_line, LeavesChip, TestsUnits, DecidesChip, chip_form};
ghost use Rattle.bist_app.specs.inner.UnitTables.{IsTableOf};
ghost use Rattle.bist_app.specs.inner.ChipParts.{IsReady, PutSelfTests, CanStart, MakesFile};

use crate::parts::one_output;
use crate::units::{UnitTable, no_units, read_units};
use bist_bits::NoMemory;
use bist_endings::{ChipRefusal, Effects, Output, Refusal, put_number};
use bist_host::Host;
use bist_inputs::read_chip_input;
use bist_text::{put, put_number_between};
use chip_desc::ChipDesc;
use chip_plan::{end_of, first_fit, last_group};
use chip_rtl::append_top;
use march_core::March;
use memory_desc::Memory;
use rtl_gen::generate;
use self_test::module_of;
use std::alloc::Global;
use verilog_emit::emit;

// The places of the words.
const CHIP: usize = 1;
/// The word that names the file of the chip's modules.
const VERILOG: usize = 2;

/// Whether one of these memories has this name.
fn is_earlier(memories: &[Memory], unit: usize, name: &str) -> bool
    requires { unit ≤ length memories.now }
    ensures { IsTrue result ↔ IsEarlier memories.now unit name.now }
{
    for before in 0..unit {
        if memories[before].name() == name {
            return true;
        }
    }
    false
}

/// Refuses the first memory that has the name of an earlier one, or whose module has that of the chip.
fn check_names(chip: &str, memories: &[Memory]) -> Result<(), Refusal>
    ensures answer { HasOwnNames chip.now memories.now result }
    ensures own { IfErr result IsOwnRefusal }
{
    for unit in 0..memories.len() {
        let memory = &memories[unit];
        if module_of(memory).as_str() == chip || is_earlier(memories, unit, memory.name()) {
            return Err(Refusal::Chip(ChipRefusal::SameName { unit }));
        }
    }
    Ok(())
}

/// The texts of the self-test modules of the units, one behind another.
fn self_tests(alloc: Global, table: &UnitTable) -> Result<Vec<u8>, NoMemory>
    requires { (us : List TestUnit) × IsTableOf table.now us }
    ensures { IfOk result (λ out. PutSelfTests table.now (length table.now.memories.items) out.items) }
{
    let marches = table.marches.as_slice();
    let memories = table.memories.as_slice();
    let mut out = Vec::new(alloc);
    for unit in 0..memories.len() {
        let module = generate(alloc, &marches[unit], &memories[unit])?;
        let text = emit(alloc, &module)?;
        put(&mut out, &text)?;
    }
    Ok(out)
}

/// The file of a chip: the modules of its units in their order, and the top that tests them in these groups.
fn chip_file(
    alloc: Global,
    chip: &ChipDesc,
    groups: &[u8],
    table: &UnitTable,
) -> Result<Vec<Output>, NoMemory>
    requires { (us : List TestUnit) × IsReady chip.now table.now us × FirstFit chip.now.budget [] (weights us) groups.now }
    ensures { IfOk result (λ outputs. (text : List ℕ) × MakesFile chip.now table.now groups.now text
        × (map written_of outputs.items ≡ (record { position = 2; bytes = text }) ∷ [])) }
{
    let mut text = self_tests(alloc, table)?;
    append_top(&mut text, alloc, chip.name(), groups, &table.memories)?;
    one_output(alloc, VERILOG, text)
}

/// Appends the line of a chip.
fn put_chip_line(line: &mut Vec<u8>, groups: &[u8], lengths: &[u64]) -> Result<(), NoMemory>
    requires { CanStart groups.now lengths.now }
    ensures { OnOk result (line.new.items ≡ line.old.items
        ++ chip_line (length groups.now) (suc (last_group groups.now)) (end_of groups.now lengths.now)) }
{
    put_number(line, b"chip units ", groups.len())?;
    put_number(line, b" groups ", last_group(groups) as usize + 1)?;
    put_number_between(line, b" done ", end_of(groups, lengths), b"\n")
}

/// The file and the line of a chip.
#[tactic(auto, unfolding(crate::specs::Chip::LeavesChip))]
fn plan_chip(alloc: Global, chip: &ChipDesc, table: &UnitTable) -> Result<Effects, Refusal>
    requires { (us : List TestUnit) × IsReady chip.now table.now us }
    ensures answer { (us : List TestUnit) → IsReady chip.now table.now us → LeavesChip chip.now.name us chip.now.budget (plain result) }
    ensures own { IfErr result IsOwnRefusal }
{
    let groups = first_fit(&table.weights, chip.budget());
    let mut line = Vec::new(alloc);
    put_chip_line(&mut line, &groups, &table.lengths)?;
    let outputs = chip_file(alloc, chip, &groups, table)?;
    Ok(Effects {
        found: false,
        outputs,
        line,
    })
}

/// Reads the units of a chip, and tests them, where each has a name of its own.
fn test_chip<H: Host>(alloc: Global, host: &mut H, chip: &ChipDesc) -> Result<Effects, Refusal>
    ensures kept { OnlyReads (H.state host.old) (H.state host.new) }
    ensures answer { TestsUnits (H.state host.old).files chip.now (plain result) }
    ensures cause { HasCause (H.state host.old) (H.state host.new) result }
{
    let mut table = no_units(alloc);
    read_units(host, chip.units(), 0, &mut table)?;
    check_names(chip.name(), &table.memories)?;
    plan_chip(alloc, chip, &table)
}

/// Tests the memories of a chip, each by its march, within the chip's budget.
pub fn decide_chip<H: Host>(alloc: Global, words: &[&str], host: &mut H) -> Result<Effects, Refusal>
    requires { HasForm chip_form words.now }
    ensures kept { OnlyReads (H.state host.old) (H.state host.new) }
    ensures outputs { IfOk result (λ plan. NamesWords words.now (done_of plan).outputs) }
    ensures answer { DecidesChip (H.state host.old).files words.now (plain result) }
    ensures cause { HasCause (H.state host.old) (H.state host.new) result }
{
    let chip = read_chip_input(host, words, CHIP)?;
    test_chip(alloc, host, &chip)
}
