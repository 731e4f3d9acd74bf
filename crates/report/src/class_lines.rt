ghost use Rattle.std.specs.Prelude.{◌≡◌, ◌++◌, OnOk, map};
ghost use Rattle.dynamic_core.specs.declared.item.Item.TheVariants.{Dyn};
ghost use Rattle.report.specs.Items.{item_of};
ghost use Rattle.report.specs.Report.{class_text, item_class, is_in_class, is_covered_in, class_size, class_covered, class_line, class_lines, class_order};

use crate::judged::JudgedItem;
use crate::total::is_item_covered;
use bist_bits::NoMemory;
use bist_text::{put_between, put_number_between};
use dynamic_core::DynPrim;
use fault_core::{Class, class_of};

/// The class of an item: that of a static primitive, or of a dynamic one by the number of its cells.
#[derive(Clone, Copy)]
pub(crate) enum ItemClass {
    Static(Class),
    DynOne,
    DynTwo,
}

/// The classes in the order of the report: those of the table, that of the retention faults, and those of the
/// dynamic primitives.
const CLASSES: [ItemClass; 16] = [
    ItemClass::Static(Class::SF),
    ItemClass::Static(Class::TF),
    ItemClass::Static(Class::WDF),
    ItemClass::Static(Class::RDF),
    ItemClass::Static(Class::DRDF),
    ItemClass::Static(Class::IRF),
    ItemClass::Static(Class::CFst),
    ItemClass::Static(Class::CFds),
    ItemClass::Static(Class::CFtr),
    ItemClass::Static(Class::CFwd),
    ItemClass::Static(Class::CFrd),
    ItemClass::Static(Class::CFdr),
    ItemClass::Static(Class::CFir),
    ItemClass::Static(Class::DRF),
    ItemClass::DynOne,
    ItemClass::DynTwo,
];

/// The printed name of a class.
pub(crate) fn class_name(class: ItemClass) -> &'static [u8]
    ensures { result.now ≡ class_text class }
{
    match class {
        ItemClass::Static(class) => fault_syntax::class_name(class).as_bytes(),
        ItemClass::DynOne => b"DYN1",
        ItemClass::DynTwo => b"DYN2",
    }
}

/// The class of a dynamic primitive.
pub(crate) fn dyn_class(prim: &DynPrim) -> ItemClass
    ensures { result ≡ item_class (Dyn prim.now) }
{
    if prim.is_two_cell() {
        ItemClass::DynTwo
    } else {
        ItemClass::DynOne
    }
}

/// The class of a judged item.
fn judged_class(judged: &JudgedItem) -> ItemClass
    ensures { result ≡ item_class (item_of judged.now) }
{
    match judged {
        JudgedItem::Plain(prim, _) => ItemClass::Static(class_of(prim)),
        JudgedItem::Dyn(prim, _) => dyn_class(prim),
    }
}

/// Whether a judged item is of a class: its own has the same name.
fn is_of_class(judged: &JudgedItem, class: ItemClass) -> bool
    ensures { result ≡ is_in_class class (item_of judged.now) }
{
    class_name(judged_class(judged)) == class_name(class)
}

/// Whether a judged item is of a class and covered.
fn is_covered_there(class: ItemClass, judged: &JudgedItem) -> bool
    ensures { result ≡ is_covered_in class judged.now }
{
    is_of_class(judged, class) && is_item_covered(judged)
}

/// How many judged items are of a class, and how many of these are covered.
#[derive(Clone, Copy)]
struct ClassCounts {
    count: usize,
    covered: usize,
}

fn count_class(class: ItemClass, judged: &[JudgedItem]) -> ClassCounts
    ensures count { result.count ≡ class_size class (map item_of judged.now) }
    ensures covered { result.covered ≡ class_covered class judged.now }
{
    let mut count = 0;
    let mut covered = 0;
    for item in judged {
        count += usize::from(is_of_class(item, class));
        covered += usize::from(is_covered_there(class, item));
    }
    ClassCounts { count, covered }
}

/// Appends the line of a class that occurs.
fn write_class(out: &mut Vec<u8>, class: ItemClass, judged: &[JudgedItem]) -> Result<(), NoMemory>
    ensures { OnOk result (out.new.items ≡ out.old.items
        ++ class_line class (class_size class (map item_of judged.now)) (class_covered class judged.now)) }
{
    let counts = count_class(class, judged);
    if counts.count == 0 {
        return Ok(());
    }
    put_between(out, b"class ", class_name(class), b" ")?;
    put_number_between(out, b"", counts.count as u64, b" covered ")?;
    put_number_between(out, b"", counts.covered as u64, b"\n")
}

/// Appends a line for each class that occurs.
pub(crate) fn write_classes(out: &mut Vec<u8>, judged: &[JudgedItem]) -> Result<(), NoMemory>
    ensures { OnOk result (out.new.items ≡ out.old.items ++ class_lines class_order judged.now) }
{
    for class in CLASSES {
        write_class(out, class, judged)?;
    }
    Ok(())
}
