//! The memory of a number.

ghost use Rattle.std.specs.Prelude.{◌≡◌, ◌≤◌, IfOk};
ghost use Rattle.made_inputs.specs.MadeMemory.{IsMadeMemory};
ghost use Rattle.made_inputs.specs.inner.MadeMemory.{written};

use bist_bits::NoMemory;
use bist_text::{put, put_decimal};
use memory_desc::{Memory, read_memory};
use std::alloc::Global;

/// What stands before the number of words.
const HEAD: &[u8] = b"memory 1\nname made\nwords ";

/// What stands behind it.
const TAIL: &[u8] =
    b"\nbits 64\nbackgrounds 0000000000000000 aaaaaaaaaaaaaaaa cccccccccccccccc f0f0f0f0f0f0f0f0 ff00ff00ff00ff00 ffff0000ffff0000 ffffffff00000000\n";

/// The text of the memory.
fn memory_text(alloc: Global, number: u16) -> Result<Vec<u8>, NoMemory>
    ensures { IfOk result (λ text. text.items ≡ written number) }
{
    let mut text = Vec::new(alloc);
    put(&mut text, HEAD)?;
    put_decimal(&mut text, u64::from(number) + 2)?;
    put(&mut text, TAIL)?;
    Ok(text)
}

/// The memory of a number.
pub fn memory_of(alloc: Global, number: u16) -> Result<Memory, NoMemory>
    requires { number ≤ 65534 }
    ensures { IfOk result (IsMadeMemory number) }
{
    let text = memory_text(alloc, number)?;
    match read_memory(&text) {
        Ok(memory) => Ok(memory),
        Err(_) => unreachable!(),
    }
}
