//! The module of a plan.
ghost use Rattle.std.specs.Prelude.{◌≡◌, ◌≤◌, IfOk, OnOk, map, ◌++◌, ◌∷◌, []};
ghost use Rattle.verilog_tree.specs.Plain.{plain, plain_item, plain_stmt, plain_module, statements, AlwaysItem};
ghost use Rattle.rtl_layout.specs.Layout as L;
ghost use Rattle.rtl_layout.specs.inner.Layout as LInner;
ghost use Rattle.rtl_layout.specs.Plan.{several, several_bits};
ghost use Rattle.rtl_layout.specs.Seen.{seen};

use crate::ages::{aged, back_at, declare_ages, set_ages, value_at};
use crate::assigns::assign_wires;
use crate::digits::set_digits;
use crate::parts::{registers, set_all, wires};
use crate::plan::Plan;
use crate::ports::{assign_ports, ports};
use crate::tables::{has_several_bits, pattern, row_width, word_of};
use crate::trees::gate;
use std::alloc::{AllocError, Global};
use verilog_tree::build::{binary, choose, flag, name, net, register};
use verilog_tree::{BinOp, BodyItem, Expr, Module, Stmt};

fn is_several(plan: &Plan) -> bool
    ensures { result ≡ several (seen plan.now) }
{
    plan.backgrounds.len() > 1
}

fn declare_one(items: &mut Vec<BodyItem>, plan: &Plan) -> Result<(), AllocError>
    ensures { OnOk result (map plain_item items.new.items ≡ map plain_item items.old.items ++ L.one_reg (several_bits (seen plan.now))) }
{
    if has_several_bits(plan) {
        register(items, name("one"), 1)?;
    }
    Ok(())
}

// All registers.
fn declare_registers(items: &mut Vec<BodyItem>, plan: &Plan) -> Result<(), AllocError>
    ensures { OnOk result (map plain_item items.new.items ≡ map plain_item items.old.items ++ LInner.registers (seen plan.now)) }
{
    let digits = [
        ("oper", plan.oper_width),
        ("visit", plan.visit_width),
        ("element", plan.element_width),
        ("back", plan.back_width),
        ("run", 1),
        ("last_oper", 1),
        ("last_visit", 1),
    ];
    registers(items, &digits)?;
    declare_one(items, plan)?;
    declare_ages(items, is_several(plan), plan.back_width, plan.delay)?;
    registers(items, &[("want", plan.bits), ("bad", 1)])
}

// All wires.
fn declare_wires(items: &mut Vec<BodyItem>, plan: &Plan) -> Result<(), AllocError>
    ensures { OnOk result (map plain_item items.new.items ≡ map plain_item items.old.items ++ L.wires (seen plan.now)) }
{
    let row = row_width(plan);
    let rows = [
        ("writes", row),
        ("ones", row),
        ("ends", row),
        ("write", 1),
        ("value", 1),
        ("down", 1),
        ("pause", 1),
        ("ends_more", 1),
        ("ends_again", 1),
        ("ends_next", 1),
        ("pause_next", 1),
        ("last_element", 1),
        ("last_back", 1),
        ("live", 1),
        ("index", plan.addr_width),
        ("pattern", plan.bits),
        ("word", plan.bits),
    ];
    wires(items, &rows)
}

// The word that the read of the last age expects.
fn want_next(alloc: Global, plan: &Plan) -> Result<Expr, AllocError>
    ensures { IfOk result (λ x. plain x ≡ L.want_next (seen plan.now)) }
{
    if plan.delay == 0 {
        return Ok(net(name("word")));
    }
    let back = back_at(is_several(plan), plan.delay);
    let word = pattern(alloc, plan, back)?;
    let double = pattern(alloc, plan, back)?;
    word_of(alloc, value_at(plan.delay), word, double)
}

// Whether some word was wrong.
fn bad_next(alloc: Global, delay: u8) -> Result<Expr, AllocError>
    requires { delay ≤ 3 }
    ensures { IfOk result (λ x. plain x ≡ L.bad_after delay) }
{
    let differs = binary(alloc, BinOp::Ne, net(name("rdata")), net(name("want")))?;
    let compared = choose(alloc, differs, flag(true), net(name("bad")))?;
    let reads = net(aged("reads", delay + 1));
    let bad = choose(alloc, reads, compared, net(name("bad")))?;
    gate(alloc, bad)
}

// What all registers take.
fn set_registers(block: &mut Vec<Stmt>, alloc: Global, plan: &Plan) -> Result<(), AllocError>
    ensures { OnOk result (map plain_stmt block.new.items ≡ map plain_stmt block.old.items ++ L.sets_all (seen plan.now)) }
{
    set_digits(block, alloc, plan)?;
    let many = is_several(plan);
    set_ages(block, alloc, many, plan.back_width, plan.delay)?;
    let rows = [
        (name("want"), want_next(alloc, plan)),
        (name("bad"), bad_next(alloc, plan.delay)),
    ];
    set_all(block, alloc, rows)
}

fn add_block(items: &mut Vec<BodyItem>, alloc: Global, plan: &Plan) -> Result<(), AllocError>
    ensures { OnOk result (map plain_item items.new.items ≡ map plain_item items.old.items
        ++ AlwaysItem L.clk (statements (L.sets_all (seen plan.now))) ∷ []) }
{
    let mut block = Vec::new(alloc);
    set_registers(&mut block, alloc, plan)?;
    items.push(BodyItem::Always(name("clk"), block))?;
    Ok(())
}

fn add_items(items: &mut Vec<BodyItem>, alloc: Global, plan: &Plan) -> Result<(), AllocError>
    ensures { OnOk result (map plain_item items.new.items ≡ map plain_item items.old.items ++ L.items (seen plan.now)) }
{
    declare_registers(items, plan)?;
    declare_wires(items, plan)?;
    assign_wires(items, alloc, plan)?;
    assign_ports(items, alloc, plan)?;
    add_block(items, alloc, plan)
}

/// The module of a plan.
pub fn module(alloc: Global, plan: &Plan) -> Result<Module, AllocError>
    ensures { IfOk result (λ m. plain_module m ≡ L.self_test (seen plan.now)) }
{
    let mut items = Vec::new(alloc);
    add_items(&mut items, alloc, plan)?;
    let ports = ports(alloc, plan)?;
    Ok(Module {
        name: plan.name,
        ports,
        items,
    })
}
