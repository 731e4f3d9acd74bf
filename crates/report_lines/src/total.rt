ghost use Rattle.std.specs.Prelude.{◌≡◌, ◌≤◌, ◌++◌, IfOk, OnOk};
ghost use Rattle.report_lines.specs.Lines.{total_line};

use bist_bits::NoMemory;
use bist_text::put_number_between;
use std::alloc::Global;

/// Appends the line of the total. After want of memory `out` ends in a part of the line, or in none of it.
pub fn write_total(out: &mut Vec<u8>, count: usize, covered: usize) -> Result<(), NoMemory>
    requires { covered ≤ count }
    ensures { OnOk result (out.new.items ≡ out.old.items ++ total_line count covered) }
{
    put_number_between(out, b"total ", count as u64, b" covered ")?;
    put_number_between(out, b"", covered as u64, b" escapes ")?;
    put_number_between(out, b"", (count - covered) as u64, b"\n")
}

/// The line of the total. The only refusal is want of memory.
pub fn total_text(alloc: Global, count: usize, covered: usize) -> Result<Vec<u8>, NoMemory>
    requires { covered ≤ count }
    ensures { IfOk result (λ text. text.items ≡ total_line count covered) }
{
    let mut out = Vec::new(alloc);
    write_total(&mut out, count, covered)?;
    Ok(out)
}
