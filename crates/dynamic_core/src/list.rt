ghost use Rattle.std.specs.Prelude.{◌≡◌, ◌++◌, ◌≤◌, ◌⊎◌, Result, length, List, Ok, Err, OnOk, IfOk, IfErr, MatchResult, Option, map};
ghost use Rattle.fault_core.specs.Primitive.{Primitive};
ghost use Rattle.fault_syntax.specs.Brief.{read_parts_of, read_item_of};
ghost use Rattle.fault_syntax.specs.inner.LineByLine.{HasNoRoom};
ghost use Rattle.fault_syntax.specs.Lists.{ReadsList};
ghost use Rattle.fault_syntax.specs.ListText.{Item as ListedItem};
ghost use Rattle.fault_syntax.specs.PrimText.{PrimParts};
ghost use Rattle.dynamic_core.specs.declared.item.Item.{Item};
ghost use Rattle.dynamic_core.specs.ItemParts.{items_of};
ghost use Rattle.dynamic_core.specs.Items.{ReadsIn, ReadsItems};
ghost use Rattle.dynamic_core.specs.inner.Reading.{JudgesItemIn, JudgesItemOn, AddsItems, NotAdded, statics_of};

use crate::item::{Item, Listed};
use crate::judge::judge_item;
use crate::table::{dyn_one, dyn_two};
use bist_text::Lines;
use fault_core::{Prim, PrimFault, members, one_cell, two_cell};
use fault_syntax::{
    AllowedNames, FaultFault, GroupName, ReadItem, ReadParts, judge_parts, read_line,
};
use std::alloc::Global;

/// The most primitives that a list may have.
const MOST: usize = 1024;

/// The primitive of parts that were read in a list with these names.
fn judge_in(parts: ReadParts, set: AllowedNames) -> Result<Item, PrimFault>
    ensures { (text : PrimParts) → parts ≡ read_parts_of text → JudgesItemIn set text result }
{
    if let AllowedNames::Every = set {
        return judge_item(parts);
    }
    match judge_parts(parts) {
        Ok(prim) => Ok(Item::Plain(prim)),
        Err(fault) => Err(fault),
    }
}

/// The primitive of parts that were read on a line of a list with these names.
fn judge_at(parts: ReadParts, line: usize, set: AllowedNames) -> Result<Item, FaultFault>
    ensures { (text : PrimParts) → parts ≡ read_parts_of text → JudgesItemOn set line text result }
{
    match judge_in(parts, set) {
        Ok(item) => Ok(item),
        Err(PrimFault::NotAFault) => Err(FaultFault::NotAFault { line }),
        Err(PrimFault::TooManyOperations) => Err(FaultFault::TooManyOperations { line }),
    }
}

fn append<T: Listed>(items: &mut Vec<Item>, prims: &[T], line: usize) -> Result<(), FaultFault>
    ensures ok { OnOk result (items.new.items ≡ items.old.items ++ map T.listed prims.now) }
    ensures within { OnOk result (length items.new.items ≤ 1024) }
    ensures err { IfErr result (HasNoRoom items.old.items (map T.listed prims.now) line) }
{
    if items.len() > MOST || prims.len() > MOST - items.len() {
        return Err(FaultFault::TooManyPrimitives { line });
    }
    for prim in prims {
        if items.push(prim.item()).is_err() {
            return Err(FaultFault::NoMemory);
        }
    }
    Ok(())
}

fn append_named(items: &mut Vec<Item>, name: GroupName, line: usize) -> Result<(), FaultFault>
    ensures ok { OnOk result (items.new.items ≡ items.old.items ++ items_of name) }
    ensures within { OnOk result (length items.new.items ≤ 1024) }
    ensures err { IfErr result (HasNoRoom items.old.items (items_of name) line) }
{
    match name {
        GroupName::OfClass(class) => append(items, members(class).as_slice(), line),
        GroupName::One => append(items, &one_cell(), line),
        GroupName::Two => append(items, &two_cell(), line),
        GroupName::All => {
            append(items, &one_cell(), line)?;
            append(items, &two_cell(), line)
        }
        GroupName::DynOne => append(items, dyn_one().as_slice(), line),
        GroupName::DynTwo => append(items, dyn_two().as_slice(), line),
    }
}

/// Appends what a line of a list with these names brings.
fn add_item(
    items: &mut Vec<Item>,
    read: ReadItem,
    line: usize,
    set: AllowedNames,
) -> Result<(), FaultFault>
    requires { length items.old.items ≤ 1024 }
    ensures ok { (v : Option ListedItem) → read ≡ read_item_of v → OnOk result (AddsItems set v items.old.items items.new.items) }
    ensures err { (v : Option ListedItem) → read ≡ read_item_of v → IfErr result (NotAdded set v line items.old.items) }
{
    match read {
        ReadItem::Nothing => Ok(()),
        ReadItem::Named(name) => append_named(items, name, line),
        ReadItem::Primitive(parts) => {
            let item = judge_at(parts, line, set)?;
            append(items, &[item], line)
        }
    }
}

/// Reads the lines, one after another.
fn read_lines(alloc: Global, bytes: &[u8], set: AllowedNames) -> Result<Vec<Item>, FaultFault>
    ensures ok { IfOk result (λ items. ReadsIn set bytes.now (Ok items.items)) }
    ensures refused { IfErr result (λ fault. (fault ≡ FaultFault.NoMemory) ⊎ ReadsIn set bytes.now (Err fault)) }
{
    let mut items = Vec::new(alloc);
    for line in Lines::new(bytes) {
        let read = read_line(&line, set)?;
        add_item(&mut items, read, line.number, set)?;
    }
    Ok(items)
}

/// The static primitives of a list.
fn statics(alloc: Global, items: &[Item]) -> Result<Vec<Prim>, FaultFault>
    ensures ok { IfOk result (λ prims. prims.items ≡ statics_of items.now) }
    ensures err { IfErr result (λ fault. fault ≡ FaultFault.NoMemory) }
{
    let mut prims = Vec::new(alloc);
    for item in items {
        if let Item::Plain(prim) = item {
            if prims.push(*prim).is_err() {
                return Err(FaultFault::NoMemory);
            }
        }
    }
    Ok(prims)
}

/// Reads a list of static primitives.
fn read_statics(alloc: Global, bytes: &[u8]) -> Result<Vec<Prim>, FaultFault>
    ensures ok { IfOk result (λ prims. ReadsList bytes.now (Ok prims.items)) }
    ensures refused { IfErr result (λ fault. (fault ≡ FaultFault.NoMemory) ⊎ ReadsList bytes.now (Err fault)) }
{
    let items = read_lines(alloc, bytes, AllowedNames::Static)?;
    statics(alloc, items.as_slice())
}

/// Reads a list of static primitives, line by line. The first refusal decides. Repeats are kept.
pub fn read_list(alloc: Global, bytes: &[u8]) -> Result<Vec<Prim>, FaultFault>
    // What is read is what the lines bring, in their order, and at most 1,024; and that is read, unless memory runs out.
    ensures ok { IfOk result (λ prims. ReadsList bytes.now (Ok prims.items)) }
    ensures accepted { (ps : List Primitive) → ReadsList bytes.now (Ok ps)
        → MatchResult result (λ prims. prims.items ≡ ps) (λ fault. fault ≡ FaultFault.NoMemory) }

    // F1 to F5, at the first line that is refused and nowhere else; and they come, unless memory runs out before.
    ensures refused { IfErr result (λ fault. (fault ≡ FaultFault.NoMemory) ⊎ ReadsList bytes.now (Err fault)) }
    ensures refuses { (fault : FaultFault) → ReadsList bytes.now (Err fault)
        → MatchResult result (λ prims. ⊥) (λ other. (other ≡ fault) ⊎ (other ≡ FaultFault.NoMemory)) }

    // The bytes are read as one thing.
    ensures one_reading { (q : Result (List Primitive) FaultFault) (r : Result (List Primitive) FaultFault)
        → ReadsList bytes.now q → ReadsList bytes.now r → q ≡ r }
{
    read_statics(alloc, bytes)
}

/// Reads a list of primitives of at most one operation and of dynamic ones, line by line: as `read_list` reads it,
/// with the words `dyn1` and `dyn2`. A primitive has at most one operation, or two in one sense. The first refusal
/// decides. Repeats are kept.
pub fn read_items(alloc: Global, bytes: &[u8]) -> Result<Vec<Item>, FaultFault>
    // What is read is what the lines bring, in their order, and at most 1,024; and that is read, unless memory runs out.
    ensures ok { IfOk result (λ items. ReadsItems bytes.now (Ok items.items)) }
    ensures accepted { (list : List Item) → ReadsItems bytes.now (Ok list)
        → MatchResult result (λ items. items.items ≡ list) (λ fault. fault ≡ FaultFault.NoMemory) }

    // F1 to F5, at the first line that is refused and nowhere else; and they come, unless memory runs out before.
    ensures refused { IfErr result (λ fault. (fault ≡ FaultFault.NoMemory) ⊎ ReadsItems bytes.now (Err fault)) }
    ensures refuses { (fault : FaultFault) → ReadsItems bytes.now (Err fault)
        → MatchResult result (λ items. ⊥) (λ other. (other ≡ fault) ⊎ (other ≡ FaultFault.NoMemory)) }

    // The bytes are read as one thing.
    ensures one_reading { (q : Result (List Item) FaultFault) (r : Result (List Item) FaultFault)
        → ReadsItems bytes.now q → ReadsItems bytes.now r → q ≡ r }
{
    read_lines(alloc, bytes, AllowedNames::Every)
}
