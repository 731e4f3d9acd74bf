ghost use Rattle.std.specs.Prelude.{◌≡◌, ◌++◌, ◌<◌, OnOk, codes};
ghost use Rattle.bist_endings.specs.Ending.{row_text, rows_text, memory_fault_text};

use crate::lines::{put_number, put_numbered, put_two_numbers};
use bist_bits::NoMemory;
use bist_text::put;
use memory_desc::{Field, MemoryFault};

/// Appends a row behind a blank, where it is one of these.
#[tactic(auto, using(crate::proofs::Rows::row_taken, crate::proofs::Rows::row_left))]
fn put_row(line: &mut Vec<u8>, rows: u16, row: u8) -> Result<(), NoMemory>
    requires { row < 16 }
    ensures { OnOk result (line.new.items ≡ line.old.items ++ row_text rows row) }
{
    if (rows >> row) & 1 == 1 {
        put_number(line, b" a", usize::from(row))
    } else {
        Ok(())
    }
}

/// Appends the line of rows that depend on one another, in ascending order.
fn put_singular(line: &mut Vec<u8>, rows: u16) -> Result<(), NoMemory>
    ensures { OnOk result (line.new.items ≡ line.old.items ++ (codes "memory D6 rows" ++ rows_text rows 16 ++ codes "\n")) }
{
    put(line, b"memory D6 rows")?;
    for row in 0..16 {
        put_row(line, rows, row)?;
    }
    put(line, b"\n")
}

/// Appends the line of a refused memory.
pub fn put_memory(line: &mut Vec<u8>, fault: MemoryFault) -> Result<(), NoMemory>
    ensures { OnOk result (line.new.items ≡ line.old.items ++ (codes "memory " ++ memory_fault_text fault ++ codes "\n")) }
{
    match fault {
        MemoryFault::Unexpected { line: number, byte } => {
            put_two_numbers(line, b"memory D1 line ", number, b" byte ", byte)
        }
        MemoryFault::Truncated => put(line, b"memory D2\n"),
        MemoryFault::Repeated { line: number } => put_numbered(line, b"memory D3 line ", number),
        MemoryFault::Missing { field: Field::Name } => put(line, b"memory D4 name\n"),
        MemoryFault::Missing {
            field: Field::Words,
        } => put(line, b"memory D4 words\n"),
        MemoryFault::Missing { field: Field::Bits } => put(line, b"memory D4 bits\n"),
        MemoryFault::Missing {
            field: Field::Row(row),
        } => { put_numbered(line, b"memory D4 a", usize::from(row)) }
        MemoryFault::OutOfRange { line: number } => put_numbered(line, b"memory D5 line ", number),
        MemoryFault::Singular { rows } => put_singular(line, rows),
        MemoryFault::ScrambleNeedsPowerOfTwo => put(line, b"memory D7\n"),
        MemoryFault::NoSolidBackground => put(line, b"memory D8\n"),
        MemoryFault::TooManyBackgrounds => put(line, b"memory D9\n"),
        MemoryFault::OtherVersion => put(line, b"memory D11\n"),
    }
}
