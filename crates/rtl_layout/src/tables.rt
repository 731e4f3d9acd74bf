//! Tables over the march, and the patterns of the backgrounds.
ghost use Rattle.std.specs.Prelude.{◌≡◌, ◌<◌, ◌≤◌, ◌^◌, ◌-◌, IfOk, length, map};
ghost use Rattle.verilog_tree.specs.Plain.{plain, Net, Prefixed};
ghost use Rattle.verilog_tree.specs.declared.tree.UnOp.TheVariants.{Invert};
ghost use Rattle.verilog_tree.specs.Meaning.{bit};
ghost use Rattle.rtl_layout.specs.Build.{choose, counted, number_of};
ghost use Rattle.rtl_layout.specs.inner.Flags.{row_flag, flags_ahead};
ghost use Rattle.rtl_layout.specs.Layout as L;
ghost use Rattle.rtl_layout.specs.Plan.{several_bits};
ghost use Rattle.rtl_layout.specs.Seen.{seen};

use crate::element::{Element, PlanOperation};
use crate::flags::MarchFlag;
use crate::plan::Plan;
use crate::trees::{bit, pick_leaf};
use std::alloc::{AllocError, Global};
use verilog_tree::build::{choose, literal, name, net, unary};
use verilog_tree::{Expr, Name, UnOp};

// The operation of a number, and behind the last the last.
fn operation_in(element: &Element, i: usize) -> PlanOperation
    requires { 0 < length element.now.operations }
    ensures { result ≡ L.operation_in element.now i }
{
    let operations = element.operations();
    if i < operations.len() {
        operations[i]
    } else {
        operations[operations.len() - 1]
    }
}

/// A flag of an element at a number of an operation.
pub fn at_number(element: &Element, i: usize, flag: MarchFlag) -> bool
    requires some { 0 < length element.now.operations }
    requires small { i < 64 }
    ensures { result ≡ row_flag flag element.now i }
{
    match flag {
        MarchFlag::Write => operation_in(element, i).write,
        MarchFlag::One => operation_in(element, i).bit,
        MarchFlag::OneBehind => operation_in(element, i + 1).bit,
        MarchFlag::EndsBehind => element.operations().len() <= i + 2,
        MarchFlag::Down => element.is_down(),
        MarchFlag::Pause => element.is_pause(),
        MarchFlag::Single => element.operations().len() == 1,
    }
}

fn one_if(flag: bool) -> u64
    ensures { result ≡ bit flag }
{
    u64::from(flag)
}

// What an element has at each of these numbers, at 0 in the lowest bit.
fn row_number(element: &Element, width: u8, which: MarchFlag) -> u64
    requires some { 0 < length element.now.operations }
    requires narrow { width ≤ 64 }
    ensures { result ≡ number_of (map (row_flag which element.now) (counted width)) }
{
    let mut row = 0;
    for i in 0..width {
        row += one_if(at_number(element, usize::from(i), which)) << i;
    }
    row
}

// What the element so many places on has at each of these numbers.
fn flags_ahead(
    alloc: Global,
    plan: &Plan,
    width: u8,
    which: MarchFlag,
    ahead: usize,
) -> Result<Expr, AllocError>
    requires positive { 1 ≤ width }
    requires narrow { width ≤ 64 }
    requires near { ahead ≤ 1 }
    ensures { IfOk result (λ x. plain x ≡ flags_ahead (seen plan.now) width which ahead) }
{
    let mut leaves = Vec::new(alloc);
    for element in plan.elements.as_slice() {
        leaves.push(literal(width, row_number(element, width, which)))?;
    }
    leaves.rotate_left(ahead);
    pick_leaf(alloc, name("element"), plan.element_width, &mut leaves)
}

/// Whether a word has several bits.
pub fn has_several_bits(plan: &Plan) -> bool
    ensures { result ≡ several_bits (seen plan.now) }
{
    plan.bits > 1
}

/// How many bits a row has.
pub fn row_width(plan: &Plan) -> u8
    ensures { result ≡ L.row_width (seen plan.now) }
{
    1 << plan.oper_width
}

/// What the element at this place of the march has at each number of an operation.
pub fn flag_row(alloc: Global, plan: &Plan, which: MarchFlag) -> Result<Expr, AllocError>
    ensures { IfOk result (λ x. plain x ≡ L.flag_row (seen plan.now) (row_flag which)) }
{
    flags_ahead(alloc, plan, row_width(plan), which, 0)
}

/// A flag of the element at this place of the march.
pub fn by_element(alloc: Global, plan: &Plan, which: MarchFlag) -> Result<Expr, AllocError>
    ensures { IfOk result (λ x. plain x ≡ L.by_element (seen plan.now) 1 (λ x. bit (row_flag which x 0))) }
{
    flags_ahead(alloc, plan, 1, which, 0)
}

/// A flag of the element behind it, which is the first behind the last.
pub fn by_next(alloc: Global, plan: &Plan, which: MarchFlag) -> Result<Expr, AllocError>
    ensures { IfOk result (λ x. plain x ≡ L.by_next (seen plan.now) (λ x. bit (row_flag which x 0))) }
{
    flags_ahead(alloc, plan, 1, which, 1)
}

/// The bit of the operation at this place in a row.
pub fn in_row(alloc: Global, plan: &Plan, row: Name) -> Result<Expr, AllocError>
    ensures { IfOk result (λ x. plain x ≡ L.in_row (seen plan.now) row.bytes) }
{
    let width = row_width(plan);
    let mut leaves = Vec::new(alloc);
    for i in 0..width {
        leaves.push(bit(row, width, i))?;
    }
    pick_leaf(alloc, name("oper"), plan.oper_width, &mut leaves)
}

/// The word of the value 0 of the background that a name holds, as it stands on a port.
pub fn pattern(alloc: Global, plan: &Plan, back: Name) -> Result<Expr, AllocError>
    ensures { IfOk result (λ x. plain x ≡ L.pattern_of (seen plan.now) back.bytes) }
{
    let mut leaves = Vec::new(alloc);
    for background in plan.backgrounds.as_slice() {
        leaves.push(literal(plan.bits, *background ^ plan.polarity))?;
    }
    pick_leaf(alloc, back, plan.back_width, &mut leaves)
}

/// A word, or the complement of its double where a value is 1.
pub fn word_of(alloc: Global, value: Name, word: Expr, double: Expr) -> Result<Expr, AllocError>
    ensures { IfOk result (λ x. plain x ≡ choose (Net value.bytes) (Prefixed Invert (plain double)) (plain word)) }
{
    let complement = unary(alloc, UnOp::Invert, double)?;
    choose(alloc, net(value), complement, word)
}
