//! Whether a tree has the sizes that a text can have.
ghost use Rattle.std.specs.Prelude.{◌≡◌, ℕ, ◌&&◌, length, map};
ghost use Rattle.verilog_tree.specs.Plain.{plain, plain_stmt, plain_stmts, plain_item, plain_module, expressions, arms};
ghost use Rattle.verilog_tree.specs.inner.Plain.{plain_arm};
ghost use Rattle.verilog_tree.specs.Formed.{is_width, is_literal, has_expression, expression_formed, expressions_formed, has_label, labels_formed, has_arm, statement_formed, statements_formed, arms_formed, items_formed, formed};

use crate::tree::{Arm, BodyItem, Expr, Module, Stmt};
use bist_bits::Bits;

fn width_formed(width: u8) -> bool
    ensures { result ≡ is_width width }
{
    1 <= width && width <= 64
}

// A literal has one of these widths by its type.
fn literal_formed(literal: &Bits) -> bool
    ensures { result ≡ is_literal literal.now }
{
    let _width = literal.width();
    true
}

#[cycle(expr_formed)]
fn expr_formed(x: &Expr) -> bool
    ensures { result ≡ expression_formed (plain x.now) }
{
    match x {
        Expr::Name(_) => true,
        Expr::Bit(_, place) => *place <= 63,
        Expr::Part(_, high, low) => *high <= 63 && *low <= 63,
        Expr::Lit(literal) => literal_formed(literal),
        Expr::Concat(parts) => exprs_formed(parts),
        Expr::Unary(_, a) => expr_formed(a),
        Expr::Binary(_, a, b) => expr_formed(a) && expr_formed(b),
        Expr::Choose(c, a, b) => expr_formed(c) && expr_formed(a) && expr_formed(b),
    }
}

#[cycle(expr_formed)]
fn exprs_formed(parts: &[Expr]) -> bool
    ensures { result ≡ (has_expression (expressions (map plain parts.now)) && expressions_formed (expressions (map plain parts.now))) }
{
    for part in parts {
        if !expr_formed(part) {
            return false;
        }
    }
    !parts.is_empty()
}

fn labels_formed(labels: &[Bits]) -> bool
    ensures { result ≡ (has_label labels.now && labels_formed labels.now) }
{
    for label in labels {
        if !literal_formed(label) {
            return false;
        }
    }
    !labels.is_empty()
}

#[cycle(stmt_formed)]
fn stmt_formed(s: &Stmt) -> bool
    ensures { result ≡ statement_formed (plain_stmt s.now) }
{
    match s {
        Stmt::Set(_, x) => expr_formed(x),
        Stmt::If(c, a, b) => expr_formed(c) && stmts_formed(a) && stmts_formed(b),
        Stmt::Case(x, choices, other) => {
            expr_formed(x) && arms_formed(choices) && stmts_formed(other)
        }
    }
}

#[cycle(stmt_formed)]
fn stmts_formed(body: &[Stmt]) -> bool
    ensures { result ≡ statements_formed (plain_stmts body.now) }
{
    for s in body {
        if !stmt_formed(s) {
            return false;
        }
    }
    true
}

#[cycle(stmt_formed)]
fn arms_formed(choices: &[Arm]) -> bool
    ensures { result ≡ (has_arm (arms (map plain_arm choices.now)) && arms_formed (arms (map plain_arm choices.now))) }
{
    for arm in choices {
        if !(labels_formed(&arm.labels) && stmts_formed(&arm.body)) {
            return false;
        }
    }
    !choices.is_empty()
}

fn items_formed(items: &[BodyItem]) -> bool
    ensures { result ≡ items_formed (map plain_item items.now) }
{
    for item in items {
        let formed = match item {
            BodyItem::Wire(declared) | BodyItem::Reg(declared) => width_formed(declared.width),
            BodyItem::Assign(_, x) => expr_formed(x),
            BodyItem::Always(_, body) => stmts_formed(body),
        };
        if !formed {
            return false;
        }
    }
    true
}

/// Whether every width is from 1 to 64, every number of a select is at most 63, and the lists that
/// the grammar wants nonempty are so: a module's ports, the parts of a concatenation, the arms of a
/// `case` and the labels of an arm.
#[tactic(auto, using(crate::proofs::Lists::some_port))]
pub fn formed(module: &Module) -> bool
    ensures { result ≡ formed (plain_module «module».now) }
{
    for port in &module.ports {
        if !width_formed(port.width) {
            return false;
        }
    }
    !module.ports.is_empty() && items_formed(&module.items)
}
