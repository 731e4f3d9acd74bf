ghost use Rattle.std.specs.Prelude.{◌≡◌, ◌++◌, OnOk, codes};
ghost use Rattle.bist_endings.specs.Ending.{chip_fault_text, chip_text, input_line, unit_text};

use crate::ending::{ChipRefusal, InputRefusal};
use crate::lines::{put_march, put_numbered, put_two_numbers};
use crate::memory_lines::put_memory;
use bist_bits::NoMemory;
use bist_text::{put, put_number_between};
use chip_desc::{ChipFault, ChipField};

/// Appends the line of a text that describes no chip.
fn put_chip_fault(line: &mut Vec<u8>, fault: ChipFault) -> Result<(), NoMemory>
    ensures { OnOk result (line.new.items ≡ line.old.items ++ (codes "chip " ++ chip_fault_text fault ++ codes "\n")) }
{
    match fault {
        ChipFault::Unexpected { line: number, byte } => {
            put_two_numbers(line, b"chip C1 line ", number, b" byte ", byte)
        }
        ChipFault::Truncated => put(line, b"chip C2\n"),
        ChipFault::Repeated { line: number } => put_numbered(line, b"chip C3 line ", number),
        ChipFault::Missing {
            field: ChipField::Name,
        } => put(line, b"chip C4 name\n"),
        ChipFault::Missing {
            field: ChipField::Budget,
        } => put(line, b"chip C4 budget\n"),
        ChipFault::Missing {
            field: ChipField::Unit,
        } => put(line, b"chip C4 unit\n"),
        ChipFault::OutOfRange { line: number } => put_numbered(line, b"chip C5 line ", number),
        ChipFault::TooManyUnits => put(line, b"chip C6\n"),
        ChipFault::OtherVersion => put(line, b"chip C7\n"),
        ChipFault::TooHeavy { line: number } => put_numbered(line, b"chip C9 line ", number),
    }
}

/// Appends the line of a chip that isn't tested.
pub fn put_chip(line: &mut Vec<u8>, refusal: ChipRefusal) -> Result<(), NoMemory>
    ensures { OnOk result (line.new.items ≡ line.old.items ++ (codes "chip " ++ chip_text refusal ++ codes "\n")) }
{
    match refusal {
        ChipRefusal::File(fault) => put_chip_fault(line, fault),
        ChipRefusal::SameName { unit } => put_numbered(line, b"chip C8 unit ", unit),
    }
}

/// Appends the line of a refused input.
pub fn put_input(line: &mut Vec<u8>, refusal: InputRefusal) -> Result<(), NoMemory>
    ensures { OnOk result (line.new.items ≡ line.old.items ++ input_line refusal) }
{
    match refusal {
        InputRefusal::March(fault) => put_march(line, fault),
        InputRefusal::Memory(fault) => put_memory(line, fault),
        InputRefusal::TooLarge { position } => put_numbered(line, b"too large ", position),
        InputRefusal::ReadFailed { position } => put_numbered(line, b"read failed ", position),
        InputRefusal::Absent { position } => put_numbered(line, b"absent ", position),
    }
}

/// Appends the line of a refused input of a unit.
pub fn put_unit(line: &mut Vec<u8>, unit: usize, refusal: InputRefusal) -> Result<(), NoMemory>
    ensures { OnOk result (line.new.items ≡ line.old.items ++ (unit_text unit ++ input_line refusal)) }
{
    put_number_between(line, b"unit ", unit as u64, b" ")?;
    put_input(line, refusal)
}
