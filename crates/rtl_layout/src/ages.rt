//! The registers of what was commanded some cycles ago.
ghost use Rattle.std.specs.Prelude.{◌≡◌, ◌+◌, ◌<◌, ◌≤◌, IfOk, OnOk, length, map, ◌++◌, ◌∷◌, []};
ghost use Rattle.verilog_tree.specs.Plain.{plain, plain_item, plain_stmt};
ghost use Rattle.rtl_layout.specs.Layout as L;
ghost use Rattle.rtl_layout.specs.inner.Layout as LInner;

use crate::parts::set_all;
use crate::trees::{after_reset, gate};
use arrayvec::ArrayString;
use std::alloc::{AllocError, Global};
use verilog_tree::build::{choose, flag, literal, name, net, register, unary};
use verilog_tree::{BodyItem, Expr, Name, Stmt, UnOp};

// The digit of an age.
fn digit(age: u8) -> &'static str
    requires some { 1 ≤ age }
    requires few { age ≤ 4 }
    ensures { result.now ≡ (48 + age) ∷ [] }
{
    match age {
        1 => "1",
        2 => "2",
        3 => "3",
        _ => "4",
    }
}

/// A register's name with an age behind it.
pub fn aged(text: &str, age: u8) -> Name
    requires some { 1 ≤ age }
    requires few { age ≤ 4 }
    requires short { length text.now ≤ 8 }
    ensures { result.bytes ≡ L.aged text.now age }
{
    let mut name = ArrayString::new();
    name.push_str(text);
    name.push_str(digit(age));
    name
}

// The registers of an age that has a value.
fn declare_age(items: &mut Vec<BodyItem>, many: bool, width: u8, age: u8) -> Result<(), AllocError>
    requires some { 1 ≤ age }
    requires few { age ≤ 4 }
    ensures { OnOk result (map plain_item items.new.items ≡ map plain_item items.old.items ++ LInner.age_regs many width age) }
{
    register(items, aged("reads", age), 1)?;
    register(items, aged("over", age), 1)?;
    register(items, aged("value", age), 1)?;
    if many {
        register(items, aged("back", age), width)?;
    }
    Ok(())
}

/// The registers of all ages, of which `delay` have a value.
pub fn declare_ages(
    items: &mut Vec<BodyItem>,
    many: bool,
    width: u8,
    delay: u8,
) -> Result<(), AllocError>
    requires { delay ≤ 3 }
    ensures { OnOk result (map plain_item items.new.items ≡ map plain_item items.old.items ++ L.stage_regs many width 0 delay) }
{
    for i in 0..delay {
        declare_age(items, many, width, i + 1)?;
    }
    register(items, aged("reads", delay + 1), 1)?;
    register(items, aged("over", delay + 1), 1)?;
    Ok(())
}

/// The name of the value of what was commanded `age` cycles ago.
pub fn value_at(age: u8) -> Name
    requires { age ≤ 4 }
    ensures { result.bytes ≡ L.value_at age }
{
    if age == 0 {
        name("value")
    } else {
        aged("value", age)
    }
}

/// The name of its background's number, which needs no register of its own where there is one background.
pub fn back_at(many: bool, age: u8) -> Name
    requires { age ≤ 4 }
    ensures { result.bytes ≡ L.back_at many age }
{
    if age == 0 || !many {
        name("back")
    } else {
        aged("back", age)
    }
}

// Whether a read was commanded `age` cycles ago, and 0 in a cycle with reset.
fn gated_reads(alloc: Global, age: u8) -> Result<Expr, AllocError>
    requires { age ≤ 4 }
    ensures { IfOk result (λ x. plain x ≡ L.gated (L.feed_reads age)) }
{
    if age > 0 {
        return gate(alloc, net(aged("reads", age)));
    }
    let reads = choose(alloc, net(name("write")), flag(false), net(name("live")))?;
    gate(alloc, reads)
}

// Whether the run was over `age` cycles ago, and 0 in a cycle with reset.
fn gated_over(alloc: Global, age: u8) -> Result<Expr, AllocError>
    requires { age ≤ 4 }
    ensures { IfOk result (λ x. plain x ≡ L.gated (L.feed_over age)) }
{
    if age > 0 {
        return gate(alloc, net(aged("over", age)));
    }
    let over = unary(alloc, UnOp::Not, net(name("run")))?;
    gate(alloc, over)
}

// What an age takes from the one before it: whether it read, whether the run was over, its value, and the number of its
// background where there are several.
fn set_age(
    block: &mut Vec<Stmt>,
    alloc: Global,
    many: bool,
    width: u8,
    age: u8,
) -> Result<(), AllocError>
    requires few { age ≤ 3 }
    requires positive { 1 ≤ width }
    requires narrow { width ≤ 64 }
    ensures { OnOk result (map plain_stmt block.new.items ≡ map plain_stmt block.old.items ++ LInner.age_sets many width age) }
{
    let rows = [
        (aged("reads", age + 1), gated_reads(alloc, age)),
        (aged("over", age + 1), gated_over(alloc, age)),
        (aged("value", age + 1), gate(alloc, net(value_at(age)))),
    ];
    set_all(block, alloc, rows)?;
    if many {
        let back = after_reset(alloc, literal(width, 0), net(back_at(true, age)));
        return set_all(block, alloc, [(aged("back", age + 1), back)]);
    }
    Ok(())
}

/// What all ages take, of which `delay` have a value.
pub fn set_ages(
    block: &mut Vec<Stmt>,
    alloc: Global,
    many: bool,
    width: u8,
    delay: u8,
) -> Result<(), AllocError>
    requires few { delay ≤ 3 }
    requires positive { 1 ≤ width }
    requires narrow { width ≤ 64 }
    ensures { OnOk result (map plain_stmt block.new.items ≡ map plain_stmt block.old.items ++ L.stage_sets many width 0 delay) }
{
    for i in 0..delay {
        set_age(block, alloc, many, width, i)?;
    }
    let rows = [
        (aged("reads", delay + 1), gated_reads(alloc, delay)),
        (aged("over", delay + 1), gated_over(alloc, delay)),
    ];
    set_all(block, alloc, rows)
}
