//! Laws of the report, the contract of a function that does nothing.
ghost use Rattle.std.specs.Prelude.{◌≡◌, ◌↔◌, ℕ, Some, slice_get};
ghost use Rattle.fault_core.specs.declared.table.Class.{Class};
ghost use Rattle.fault_syntax.specs.declared.words.GroupName.TheVariants.{OfClass};
ghost use Rattle.fault_syntax.specs.Names.{name_text};
ghost use Rattle.report.specs.declared.class_lines.ItemClass.{ItemClass};
ghost use Rattle.report.specs.Report.{class_order, class_number, class_text};

/// The number of a class is its place in the order of the report, and it stands at no other: each class has one line at
/// most, and no two classes have one number.
pub fn classes_in_order()
    ensures order { (c : ItemClass) (i : ℕ) → (slice_get class_order i ≡ Some c) ↔ (i ≡ class_number c) }

    // And a static class has in the report the name that it has in a list.
    ensures names { (c : Class) → class_text (ItemClass.Static c) ≡ name_text (OfClass c) }
{}
