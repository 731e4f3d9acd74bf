ghost use Rattle.std.specs.Prelude.{◌≡◌, ◌++◌, IfOk, OnOk, codes, decimal};
ghost use Rattle.bist_endings.specs.Ending.{numbered_line, march_fault_text, fault_text, device_text};

use crate::ending::DeviceRefusal;
use bist_bits::NoMemory;
use bist_text::{put, put_decimal, put_number_between};
use fault_syntax::FaultFault;
use march_core::MarchFault;
use std::alloc::Global;

/// Appends a text and a number.
pub fn put_number(line: &mut Vec<u8>, text: &[u8], number: usize) -> Result<(), NoMemory>
    ensures { OnOk result (line.new.items ≡ line.old.items ++ text.now ++ decimal number) }
{
    put(line, text)?;
    put_decimal(line, number as u64)
}

/// Appends a text, a number and a line end.
pub fn put_numbered(line: &mut Vec<u8>, text: &[u8], number: usize) -> Result<(), NoMemory>
    ensures { OnOk result (line.new.items ≡ line.old.items ++ numbered_line text.now number) }
{
    put_number_between(line, text, number as u64, b"\n")
}

/// A text, a number and a line end.
pub fn numbered(alloc: Global, text: &[u8], number: usize) -> Result<Vec<u8>, NoMemory>
    ensures { IfOk result (λ line. line.items ≡ numbered_line text.now number) }
{
    let mut line = Vec::new(alloc);
    put_numbered(&mut line, text, number)?;
    Ok(line)
}

/// Appends two numbers, each behind a text, and a line end.
pub fn put_two_numbers(
    line: &mut Vec<u8>,
    before: &[u8],
    first: usize,
    between: &[u8],
    second: usize,
) -> Result<(), NoMemory>
    ensures { OnOk result (line.new.items ≡ line.old.items
        ++ (before.now ++ decimal first ++ between.now ++ decimal second ++ codes "\n")) }
{
    put_number(line, before, first)?;
    put_numbered(line, between, second)
}

/// Appends the line of a refused march.
pub fn put_march(line: &mut Vec<u8>, fault: MarchFault) -> Result<(), NoMemory>
    ensures { OnOk result (line.new.items ≡ line.old.items ++ (codes "march " ++ march_fault_text fault ++ codes "\n")) }
{
    match fault {
        MarchFault::Unexpected { byte } => put_numbered(line, b"march M1 byte ", byte),
        MarchFault::Truncated => put(line, b"march M2\n"),
        MarchFault::Empty => put(line, b"march M3\n"),
        MarchFault::TooManyElements => put(line, b"march M4\n"),
        MarchFault::TooManyOps { element } => put_numbered(line, b"march M5 element ", element),
        MarchFault::TooManyInAll => put(line, b"march M6\n"),
        MarchFault::ReadBeforeWrite { element, op } => {
            put_two_numbers(line, b"march M7 element ", element, b" operation ", op)
        }
        MarchFault::WrongExpect { element, op } => {
            put_two_numbers(line, b"march M8 element ", element, b" operation ", op)
        }
    }
}

/// Appends the line of a refused primitive or list.
pub fn put_fault(line: &mut Vec<u8>, fault: FaultFault) -> Result<(), NoMemory>
    ensures { OnOk result (line.new.items ≡ line.old.items ++ (codes "fault " ++ fault_text fault ++ codes "\n")) }
{
    match fault {
        FaultFault::Unexpected { line: number, byte } => {
            put_two_numbers(line, b"fault F1 line ", number, b" byte ", byte)
        }
        FaultFault::Truncated { line: number } => put_numbered(line, b"fault F2 line ", number),
        FaultFault::NotAFault { line: number } => put_numbered(line, b"fault F3 line ", number),
        FaultFault::TooManyOperations { line: number } => {
            put_numbered(line, b"fault F4 line ", number)
        }
        FaultFault::TooManyPrimitives { line: number } => {
            put_numbered(line, b"fault F5 line ", number)
        }
        FaultFault::NoMemory => put(line, b"fault no memory\n"),
    }
}

/// Appends the line of a box that isn't taken.
pub fn put_device(line: &mut Vec<u8>, refusal: DeviceRefusal) -> Result<(), NoMemory>
    ensures { OnOk result (line.new.items ≡ line.old.items ++ (codes "device " ++ device_text refusal ++ codes "\n")) }
{
    match refusal {
        DeviceRefusal::TooSmall { words, room } => {
            put_two_numbers(
                line,
                b"device V1 words ",
                words as usize,
                b" room ",
                room as usize,
            )
        }
        DeviceRefusal::BadPlace => put(line, b"device V2\n"),
        DeviceRefusal::NoBox => put(line, b"device V4\n"),
    }
}
