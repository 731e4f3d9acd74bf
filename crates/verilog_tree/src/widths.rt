//! Widths that must be equal.
ghost use Rattle.std.specs.Prelude.{◌≡◌, ℕ, ◌^◌, ◌-◌, ◌+◌, min};
ghost use Rattle.verilog_tree.specs.Plain.{plain, plain_stmt, plain_stmts, plain_item};
ghost use Rattle.verilog_tree.specs.Names.{width_of};
ghost use Rattle.verilog_tree.specs.Meaning.{width, widths};
ghost use Rattle.verilog_tree.specs.Rules.{Refuses, unequal, too_wide, expression_widths, assignment_widths, label_widths, statement_widths, statements_widths, item_widths};
ghost use Rattle.verilog_tree.specs.inner.Rules.{RefusesOr};

use crate::fault::TreeFault;
use crate::operators::{binary_width, operands, unary_width};
use crate::tables::Declarations;
use crate::tree::{BodyItem, Expr, Name, Stmt};
use bist_bits::Bits;

pub(crate) fn equal(left: u64, right: u64) -> Result<(), TreeFault>
    ensures { Refuses (unequal left right) result }
{
    if left == right {
        Ok(())
    } else {
        Err(TreeFault::Width { left, right })
    }
}

fn at_most_64(total: u64) -> Result<u64, TreeFault>
    ensures { (k : ℕ) → total ≡ min k (2 ^ 64 - 1) → RefusesOr (too_wide k) k result }
{
    if total > 64 {
        Err(TreeFault::Width {
            left: 64,
            right: total,
        })
    } else {
        Ok(total)
    }
}

/// The width of an expression where names are declared so, or the first two widths in it that must be
/// equal and aren't.
#[cycle(expr_width)]
fn expr_width(names: &Declarations, x: &Expr) -> Result<u64, TreeFault>
    ensures { let w = width_of names.now in RefusesOr (expression_widths w (plain x.now)) (width w (plain x.now)) result }
{
    match x {
        Expr::Name(name) => Ok(names.width(name) as u64),
        Expr::Bit(_, _) => Ok(1),
        Expr::Part(_, high, low) => Ok((*high as u64 + 1).saturating_sub(*low as u64)),
        Expr::Lit(literal) => Ok(literal.width() as u64),
        Expr::Concat(parts) => {
            let mut total: u64 = 0;
            for part in parts {
                let width = expr_width(names, part)?;
                total = total.saturating_add(width);
            }
            at_most_64(total)
        }
        Expr::Unary(op, a) => {
            let operand = expr_width(names, a)?;
            Ok(unary_width(*op, operand))
        }
        Expr::Binary(op, a, b) => {
            let left = expr_width(names, a)?;
            let right = expr_width(names, b)?;
            operands(*op, left, right)?;
            Ok(binary_width(*op, left))
        }
        Expr::Choose(c, a, b) => {
            let _condition = expr_width(names, c)?;
            let left = expr_width(names, a)?;
            let right = expr_width(names, b)?;
            equal(left, right)?;
            Ok(left)
        }
    }
}

// The expression before its target.
#[tactic(auto, using(crate::proofs::Refusals::tells_now, crate::proofs::Refusals::tells_later, crate::proofs::Refusals::none_more))]
fn assignment_widths(names: &Declarations, name: &Name, x: &Expr) -> Result<(), TreeFault>
    ensures { Refuses (assignment_widths (width_of names.now) name.now.bytes (plain x.now)) result }
{
    let right = expr_width(names, x)?;
    equal(names.width(name) as u64, right)
}

#[tactic(auto, using(crate::proofs::Refusals::tells_now, crate::proofs::Refusals::tells_later, crate::proofs::Refusals::none_more))]
fn label_widths(subject: u64, labels: &[Bits]) -> Result<(), TreeFault>
    ensures { Refuses (label_widths subject labels.now) result }
{
    for label in labels {
        equal(subject, label.width() as u64)?;
    }
    Ok(())
}

#[cycle(stmt_widths)]
fn stmt_widths(names: &Declarations, s: &Stmt) -> Result<(), TreeFault>
    ensures { Refuses (statement_widths (width_of names.now) (plain_stmt s.now)) result }
{
    match s {
        Stmt::Set(name, x) => assignment_widths(names, name, x),
        Stmt::If(c, a, b) => {
            let _condition = expr_width(names, c)?;
            stmts_widths(names, a)?;
            stmts_widths(names, b)
        }
        Stmt::Case(x, choices, other) => {
            let subject = expr_width(names, x)?;
            for arm in choices {
                label_widths(subject, &arm.labels)?;
                stmts_widths(names, &arm.body)?;
            }
            stmts_widths(names, other)
        }
    }
}

#[cycle(stmt_widths)]
fn stmts_widths(names: &Declarations, body: &[Stmt]) -> Result<(), TreeFault>
    ensures { Refuses (statements_widths (width_of names.now) (plain_stmts body.now)) result }
{
    for s in body {
        stmt_widths(names, s)?;
    }
    Ok(())
}

/// The first two widths of an item that must be equal and aren't, where names are declared so.
pub(crate) fn item_widths(names: &Declarations, item: &BodyItem) -> Result<(), TreeFault>
    ensures { Refuses (item_widths (width_of names.now) (plain_item item.now)) result }
{
    match item {
        BodyItem::Wire(_) | BodyItem::Reg(_) => Ok(()),
        BodyItem::Assign(name, x) => assignment_widths(names, name, x),
        BodyItem::Always(_, body) => stmts_widths(names, body),
    }
}
