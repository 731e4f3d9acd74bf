//! The texts that `show` says of lists and chips.

ghost use Rattle.std.specs.Prelude.{◌≡◌, ◌++◌, OnOk, IfOk, map};
ghost use Rattle.std.specs.List.{flat_map};
ghost use Rattle.chip_desc.specs.Chips.{unit_of};
ghost use Rattle.bist_app.specs.Show.{item_line, list_text, unit_line, chip_head, chip_text};

use bist_bits::NoMemory;
use bist_text::{put_between, put_number_between};
use chip_desc::{ChipDesc, ChipUnit};
use dynamic_core::{Item, print_dyn};
use fault_syntax::print_prim;
use std::alloc::Global;

/// Appends the line of a primitive.
fn put_item(out: &mut Vec<u8>, item: &Item) -> Result<(), NoMemory>
    ensures { OnOk result (out.new.items ≡ out.old.items ++ item_line item.now) }
{
    match item {
        Item::Plain(prim) => put_between(out, b"", print_prim(prim).as_str().as_bytes(), b"\n"),
        Item::Dyn(prim) => put_between(out, b"", print_dyn(prim).as_str().as_bytes(), b"\n"),
    }
}

/// Appends the lines of some primitives.
fn put_items(out: &mut Vec<u8>, items: &[Item]) -> Result<(), NoMemory>
    ensures { OnOk result (out.new.items ≡ out.old.items ++ flat_map item_line items.now) }
{
    for item in items {
        put_item(out, item)?;
    }
    Ok(())
}

/// The text of a list: how many primitives there are, and each on a line of its own.
pub fn list_text(alloc: Global, items: &[Item]) -> Result<Vec<u8>, NoMemory>
    ensures { IfOk result (λ text. text.items ≡ list_text items.now) }
{
    let mut text = Vec::new(alloc);
    put_number_between(&mut text, b"# primitives ", items.len() as u64, b"\n")?;
    put_items(&mut text, items)?;
    Ok(text)
}

/// Appends the line of a memory of a chip.
fn put_unit(out: &mut Vec<u8>, unit: &ChipUnit) -> Result<(), NoMemory>
    ensures { OnOk result (out.new.items ≡ out.old.items ++ unit_line (unit_of unit.now)) }
{
    put_number_between(out, b"unit ", u64::from(unit.weight), b" ")?;
    put_between(out, b"", unit.march.as_str().as_bytes(), b" ")?;
    put_between(out, b"", unit.memory.as_str().as_bytes(), b"\n")
}

/// Appends the lines of the memories of a chip.
fn put_units(out: &mut Vec<u8>, units: &[ChipUnit]) -> Result<(), NoMemory>
    ensures { OnOk result (out.new.items ≡ out.old.items ++ flat_map unit_line (map unit_of units.now)) }
{
    for unit in units {
        put_unit(out, unit)?;
    }
    Ok(())
}

/// Appends the lines before those of the memories.
fn put_head(out: &mut Vec<u8>, chip: &ChipDesc) -> Result<(), NoMemory>
    ensures { OnOk result (out.new.items ≡ out.old.items ++ chip_head chip.now) }
{
    put_between(out, b"chip 1\nname ", chip.name().as_bytes(), b"\nbudget ")?;
    put_number_between(out, b"", u64::from(chip.budget()), b"\n")
}

/// The text of a chip.
pub fn chip_text(alloc: Global, chip: &ChipDesc) -> Result<Vec<u8>, NoMemory>
    ensures { IfOk result (λ text. text.items ≡ chip_text chip.now) }
{
    let mut text = Vec::new(alloc);
    put_head(&mut text, chip)?;
    put_units(&mut text, chip.units())?;
    Ok(text)
}
