//! The file of a chip: the texts of its modules one behind another, and behind them the top.
ghost use Rattle.std.specs.Prelude.{◌≡◌, ◌≤◌, OnOk, OnErr, length, true};
ghost use Rattle.verilog_tree.specs.Words.{is_name};
ghost use Rattle.chip_rtl.specs.ChipFile.{IsPlanOf, EndsFile};

use crate::emit::emit_top;
use crate::generate::generate_top;
use bist_bits::NoMemory;
use bist_text::put;
use memory_desc::Memory;
use std::alloc::Global;

/// Appends to the texts of the self-test modules of some memories, in their groups, the top that makes them the file of a
/// chip.
///
/// Want of memory is its only refusal, after which the texts are as before.
pub fn append_top(
    out: &mut Vec<u8>,
    alloc: Global,
    name: &str,
    groups: &[u8],
    memories: &[Memory],
) -> Result<(), NoMemory>
    requires named { is_name name.now ≡ true }
    requires short { length name.now ≤ 48 }
    requires planned { IsPlanOf memories.now groups.now }
    ensures ok { OnOk result (EndsFile out.old.items out.new.items name.now groups.now memories.now) }
    ensures err { OnErr result (out.new.items ≡ out.old.items) }
{
    let top = generate_top(alloc, name, groups, memories)?;
    let text = emit_top(alloc, &top)?;
    put(out, &text)
}
