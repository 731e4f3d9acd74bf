//! Items and statements of the module, added under their names.
ghost use Rattle.std.specs.Prelude.{◌≡◌, IsTrue, List, OnOk, map, ◌++◌, []};
ghost use Rattle.verilog_tree.specs.Plain.{plain_item, plain_stmt, ModuleItem, Statement, AssignItem, RegItem, SetTo, WireItem};
ghost use Rattle.rtl_layout.specs.inner.Layout.{are_names};
ghost use Rattle.rtl_layout.specs.inner.Rows.{AreRows};

use std::alloc::{AllocError, Global};
use verilog_tree::build::{assign, name, register, wire};
use verilog_tree::{BodyItem, Expr, Name, Stmt};

/// Wires, each of a name and a width.
pub fn wires(items: &mut Vec<BodyItem>, rows: &[(&str, u8)]) -> Result<(), AllocError>
    requires { IsTrue (are_names rows.now) }
    ensures { OnOk result (map plain_item items.new.items ≡ map plain_item items.old.items ++ map (λ r. WireItem r.0.now r.1) rows.now) }
{
    match rows {
        [] => Ok(()),
        [(text, width), rest @ ..] => {
            wire(items, name(text), *width)?;
            wires(items, rest)
        }
    }
}

/// Registers, each of a name and a width.
pub fn registers(items: &mut Vec<BodyItem>, rows: &[(&str, u8)]) -> Result<(), AllocError>
    requires { IsTrue (are_names rows.now) }
    ensures { OnOk result (map plain_item items.new.items ≡ map plain_item items.old.items ++ map (λ r. RegItem r.0.now r.1) rows.now) }
{
    match rows {
        [] => Ok(()),
        [(text, width), rest @ ..] => {
            register(items, name(text), *width)?;
            registers(items, rest)
        }
    }
}

/// One assignment more of each row, of what was built for it.
pub fn assign_all<const N: usize>(
    items: &mut Vec<BodyItem>,
    alloc: Global,
    rows: [(Name, Result<Expr, AllocError>); N],
) -> Result<(), AllocError>
    ensures { (wanted : List ModuleItem) → AreRows AssignItem rows.entry wanted
        → OnOk result (map plain_item items.new.items ≡ map plain_item items.old.items ++ wanted) }
{
    for (target, built) in Vec::from_array(alloc, rows)? {
        assign(items, target, built?)?;
    }
    Ok(())
}

/// One register's next value more of each row, of what was built for it.
pub fn set_all<const N: usize>(
    block: &mut Vec<Stmt>,
    alloc: Global,
    rows: [(Name, Result<Expr, AllocError>); N],
) -> Result<(), AllocError>
    ensures { (wanted : List Statement) → AreRows SetTo rows.entry wanted
        → OnOk result (map plain_stmt block.new.items ≡ map plain_stmt block.old.items ++ wanted) }
{
    for (register, built) in Vec::from_array(alloc, rows)? {
        block.push(Stmt::Set(register, built?))?;
    }
    Ok(())
}
