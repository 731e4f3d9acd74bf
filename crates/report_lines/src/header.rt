//! The first lines of a report: the march, and the memory where there is one.

ghost use Rattle.std.specs.Prelude.{◌≡◌, ◌++◌, OnOk, codes};
ghost use Rattle.std.specs.Option.{option_copied};
ghost use Rattle.report_lines.specs.Lines.{march_line, size_text, work_text, memory_line};

use bist_bits::NoMemory;
use bist_text::{put_between, put_number_between};
use march_core::March;
use march_syntax::print_march;
use memory_desc::Memory;
use std::alloc::Global;
use word_march::length;

/// Appends the line of the march.
pub fn write_march(alloc: Global, out: &mut Vec<u8>, march: &March) -> Result<(), NoMemory>
    ensures { OnOk result (out.new.items ≡ out.old.items ++ march_line march.now) }
{
    put_between(out, b"march ", print_march(alloc, march)?.as_slice(), b"\n")
}

/// Appends the line of a memory: its name and size, how often the march runs on it, and with how many commands in all.
fn write_described(out: &mut Vec<u8>, march: &March, memory: &Memory) -> Result<(), NoMemory>
    ensures { OnOk result (out.new.items ≡ out.old.items ++ (size_text memory.now ++ work_text march.now memory.now ++ codes "\n")) }
{
    put_between(out, b"memory ", memory.name().as_bytes(), b" words ")?;
    put_number_between(out, b"", u64::from(memory.words()), b" bits ")?;
    put_number_between(out, b"", u64::from(memory.bits()), b" backgrounds ")?;
    put_number_between(out, b"", memory.backgrounds().len() as u64, b" commands ")?;
    put_number_between(out, b"", length(march, memory), b"\n")
}

/// Appends the line of a memory, where there is one.
pub fn write_memory(
    out: &mut Vec<u8>,
    march: &March,
    memory: Option<&Memory>,
) -> Result<(), NoMemory>
    ensures { OnOk result (out.new.items ≡ out.old.items ++ memory_line march.now (option_copied memory.entry)) }
{
    match memory {
        None => Ok(()),
        Some(memory) => write_described(out, march, memory),
    }
}
