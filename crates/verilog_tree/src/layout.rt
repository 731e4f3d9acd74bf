//! Whether a module can be written as text.
ghost use Rattle.std.specs.Prelude.{◌≡◌, ℕ, ◌≤◌, ◌-◌, map};
ghost use Rattle.verilog_tree.specs.Plain.{plain, plain_stmt, plain_stmts, plain_item, plain_module, arms};
ghost use Rattle.verilog_tree.specs.inner.Plain.{plain_arm};
ghost use Rattle.verilog_tree.specs.Fits.{expression_fits, statement_fits, statements_fit, arms_fit, items_fit, fits};

use crate::sizes::formed;
use crate::tree::{Arm, BodyItem, Expr, Module, Stmt};
use crate::words::is_name;

#[cycle(expr_fits)]
fn expr_fits(room: u8, x: &Expr) -> bool
    ensures { result ≡ expression_fits room (plain x.now) }
{
    let inner = room.saturating_sub(1);
    match x {
        Expr::Name(name) | Expr::Bit(name, _) | Expr::Part(name, _, _) => is_name(name),
        Expr::Lit(_) => true,
        Expr::Concat(parts) => {
            for part in parts {
                if !expr_fits(inner, part) {
                    return false;
                }
            }
            0 < room
        }
        Expr::Unary(_, a) => 0 < room && expr_fits(inner, a),
        Expr::Binary(_, a, b) => 0 < room && expr_fits(inner, a) && expr_fits(inner, b),
        Expr::Choose(c, a, b) => {
            0 < room && expr_fits(inner, c) && expr_fits(inner, a) && expr_fits(inner, b)
        }
    }
}

#[cycle(stmt_fits)]
fn stmt_fits(room: u8, s: &Stmt) -> bool
    ensures { result ≡ statement_fits room (plain_stmt s.now) }
{
    let inner = room.saturating_sub(2);
    match s {
        Stmt::Set(name, x) => is_name(name) && expr_fits(room, x),
        Stmt::If(c, a, b) => {
            1 < room && expr_fits(inner, c) && stmts_fit(inner, a) && stmts_fit(inner, b)
        }
        Stmt::Case(x, choices, other) => {
            1 < room && expr_fits(inner, x) && arms_fit(inner, choices) && stmts_fit(inner, other)
        }
    }
}

#[cycle(stmt_fits)]
fn stmts_fit(room: u8, body: &[Stmt]) -> bool
    ensures { result ≡ statements_fit room (plain_stmts body.now) }
{
    for s in body {
        if !stmt_fits(room, s) {
            return false;
        }
    }
    true
}

#[cycle(stmt_fits)]
fn arms_fit(room: u8, choices: &[Arm]) -> bool
    ensures { result ≡ arms_fit room (arms (map plain_arm choices.now)) }
{
    for arm in choices {
        if !stmts_fit(room, &arm.body) {
            return false;
        }
    }
    true
}

fn items_fit(items: &[BodyItem]) -> bool
    ensures { result ≡ items_fit 64 (map plain_item items.now) }
{
    for item in items {
        let fits = match item {
            BodyItem::Wire(declared) | BodyItem::Reg(declared) => is_name(&declared.name),
            BodyItem::Assign(name, x) => is_name(name) && expr_fits(64, x),
            BodyItem::Always(clock, body) => is_name(clock) && stmts_fit(63, body),
        };
        if !fits {
            return false;
        }
    }
    true
}

/// Whether the module is formed, its names are legal (simple identifiers that aren't reserved), and its
/// text nests at most 64 deep: `(`, `{`, `begin`, `case` and `if` count.
pub fn fits(module: &Module) -> bool
    ensures { result ≡ fits (plain_module «module».now) }
{
    if !formed(module) || !is_name(&module.name) {
        return false;
    }
    for port in &module.ports {
        if !is_name(&port.name) {
            return false;
        }
    }
    items_fit(&module.items)
}
