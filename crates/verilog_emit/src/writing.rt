//! Lines and their margins, names, literals and ranges.
ghost use Rattle.std.specs.Prelude.{◌≡◌, ℕ, ◌+◌, ◌<◌, ◌≤◌, ◌++◌, OnOk, true};
ghost use Rattle.verilog_emit.specs.Printed.{margin, line, literal_text, range_text, separator, labels_text};

use bist_bits::{Bits, NoMemory};
use bist_text::{put, put_between, put_number_between, put_word};
use verilog_tree::Name;

/// Appends the blanks before a line: two for each depth.
pub fn put_margin(out: &mut Vec<u8>, depth: u8) -> Result<(), NoMemory>
    ensures { OnOk result (out.new.items ≡ out.old.items ++ margin depth) }
{
    for _i in 0..depth {
        put(out, b"  ")?;
    }
    Ok(())
}

/// Appends a line of this text.
pub fn put_line(out: &mut Vec<u8>, depth: u8, text: &[u8]) -> Result<(), NoMemory>
    ensures { OnOk result (out.new.items ≡ out.old.items ++ line depth text.now) }
{
    put_margin(out, depth)?;
    put(out, text)?;
    put(out, b"\n")
}

/// Appends a name.
pub fn put_name(out: &mut Vec<u8>, name: &Name) -> Result<(), NoMemory>
    ensures { OnOk result (out.new.items ≡ out.old.items ++ name.now.bytes) }
{
    put(out, name.as_str().as_bytes())
}

/// Appends a line of a name between these texts.
pub fn put_name_line(
    out: &mut Vec<u8>,
    depth: u8,
    before: &[u8],
    name: &Name,
    behind: &[u8],
) -> Result<(), NoMemory>
    ensures { OnOk result (out.new.items ≡ out.old.items ++ line depth (before.now ++ name.now.bytes ++ behind.now)) }
{
    put_margin(out, depth)?;
    put_between(out, before, name.as_str().as_bytes(), behind)?;
    put(out, b"\n")
}

/// Appends a sized constant.
pub fn put_literal(out: &mut Vec<u8>, x: Bits) -> Result<(), NoMemory>
    ensures { OnOk result (out.new.items ≡ out.old.items ++ literal_text x) }
{
    put_number_between(out, b"", u64::from(x.width()), b"'h")?;
    put_word(out, x.width(), x.value())
}

/// Appends what stands before a part or a label: nothing before the first.
pub fn put_separator(out: &mut Vec<u8>, first: bool) -> Result<(), NoMemory>
    ensures { OnOk result (out.new.items ≡ out.old.items ++ separator first) }
{
    if first {
        return Ok(());
    }
    put(out, b", ")
}

/// Appends the labels of an arm.
pub fn put_labels(out: &mut Vec<u8>, labels: &[Bits]) -> Result<(), NoMemory>
    ensures { OnOk result (out.new.items ≡ out.old.items ++ labels_text true labels.now) }
{
    let mut first = true;
    for label in labels {
        put_separator(out, first)?;
        put_literal(out, *label)?;
        first = false;
    }
    Ok(())
}

/// Appends the range of a width above 1, and a blank behind it.
pub fn put_range(out: &mut Vec<u8>, width: u8) -> Result<(), NoMemory>
    ensures { OnOk result (out.new.items ≡ out.old.items ++ range_text width) }
{
    if width <= 1 {
        return Ok(());
    }
    put_number_between(out, b"[", u64::from(width - 1), b":0] ")
}
