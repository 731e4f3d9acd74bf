//! Statements, with begin and end round each body.
ghost use Rattle.std.specs.Prelude.{◌≡◌, ℕ, ◌+◌, ◌<◌, ◌&&◌, ◌++◌, OnOk, codes, map, true, nat_lt};
ghost use Rattle.verilog_tree.specs.Plain.{plain, plain_stmt, plain_stmts, arms};
ghost use Rattle.verilog_tree.specs.inner.Plain.{plain_arm};
ghost use Rattle.verilog_emit.specs.Printed.{line, expression_text, statement_text, statements_text, arms_text, labels_text};
ghost use Rattle.verilog_emit.specs.inner.Printed.{else_text, default_text};
ghost use Rattle.verilog_emit.specs.inner.Shallow.{statement_shallow, statements_shallow, arms_shallow};

use crate::expressions::put_enclosed;
use crate::writing::{put_labels, put_line, put_margin};
use bist_bits::{Bits, NoMemory};
use bist_text::{put, put_between};
use verilog_tree::{Arm, Expr, Name, Stmt};

/// Appends a line of an expression between these texts.
fn put_expr_line(
    out: &mut Vec<u8>,
    depth: u8,
    before: &[u8],
    x: &Expr,
    behind: &[u8],
) -> Result<(), NoMemory>
    ensures { OnOk result (out.new.items ≡ out.old.items ++ line depth (before.now ++ expression_text (plain x.now) ++ behind.now)) }
{
    put_margin(out, depth)?;
    put_enclosed(out, before, x, behind)?;
    put(out, b"\n")
}

/// Appends the line that gives a net an expression, behind a word and with a mark between the two.
pub fn put_assigned(
    out: &mut Vec<u8>,
    depth: u8,
    word: &[u8],
    name: &Name,
    mark: &[u8],
    x: &Expr,
) -> Result<(), NoMemory>
    ensures { OnOk result (out.new.items ≡ out.old.items
        ++ line depth (word.now ++ name.now.bytes ++ mark.now ++ expression_text (plain x.now) ++ codes ";")) }
{
    put_margin(out, depth)?;
    put_between(out, word, name.as_str().as_bytes(), mark)?;
    put_enclosed(out, b"", x, b";\n")
}

/// Appends the line that begins an arm.
fn put_arm_line(out: &mut Vec<u8>, depth: u8, labels: &[Bits]) -> Result<(), NoMemory>
    ensures { OnOk result (out.new.items ≡ out.old.items ++ line depth (labels_text true labels.now ++ codes ": begin")) }
{
    put_margin(out, depth)?;
    put_labels(out, labels)?;
    put(out, b": begin\n")
}

/// Appends a statement.
#[cycle(put_stmt)]
fn put_stmt(out: &mut Vec<u8>, depth: u8, s: &Stmt) -> Result<(), NoMemory>
    requires { statement_shallow depth (plain_stmt s.now) ≡ true }
    ensures { OnOk result (out.new.items ≡ out.old.items ++ statement_text depth (plain_stmt s.now)) }
{
    match s {
        Stmt::Set(name, x) => put_assigned(out, depth, b"", name, b" <= ", x),
        Stmt::If(c, a, b) => {
            put_expr_line(out, depth, b"if (", c, b") begin")?;
            put_stmts(out, depth + 1, a)?;
            put_else(out, depth, b)?;
            put_line(out, depth, b"end")
        }
        Stmt::Case(x, choices, other) => {
            put_expr_line(out, depth, b"case (", x, b")")?;
            put_arms(out, depth + 1, choices)?;
            put_default(out, depth, other)?;
            put_line(out, depth, b"endcase")
        }
    }
}

/// Appends what stands behind the first body of an `if`: nothing where the second is empty.
#[cycle(put_stmt)]
fn put_else(out: &mut Vec<u8>, depth: u8, body: &[Stmt]) -> Result<(), NoMemory>
    requires { (nat_lt depth 100 && statements_shallow (depth + 1) (plain_stmts body.now)) ≡ true }
    ensures { OnOk result (out.new.items ≡ out.old.items ++ else_text depth (plain_stmts body.now)) }
{
    if body.is_empty() {
        return Ok(());
    }
    put_line(out, depth, b"end else begin")?;
    put_stmts(out, depth + 1, body)
}

/// Appends the arms of a `case`.
#[cycle(put_stmt)]
fn put_arms(out: &mut Vec<u8>, depth: u8, choices: &[Arm]) -> Result<(), NoMemory>
    requires { arms_shallow depth (arms (map plain_arm choices.now)) ≡ true }
    ensures { OnOk result (out.new.items ≡ out.old.items ++ arms_text depth (arms (map plain_arm choices.now))) }
{
    for arm in choices {
        put_arm_line(out, depth, &arm.labels)?;
        put_stmts(out, depth + 1, &arm.body)?;
        put_line(out, depth, b"end")?;
    }
    Ok(())
}

/// Appends the default of a `case`: nothing where it is empty.
#[cycle(put_stmt)]
fn put_default(out: &mut Vec<u8>, depth: u8, body: &[Stmt]) -> Result<(), NoMemory>
    requires { (nat_lt (depth + 1) 100 && statements_shallow (depth + 2) (plain_stmts body.now)) ≡ true }
    ensures { OnOk result (out.new.items ≡ out.old.items ++ default_text depth (plain_stmts body.now)) }
{
    if body.is_empty() {
        return Ok(());
    }
    put_line(out, depth + 1, b"default: begin")?;
    put_stmts(out, depth + 2, body)?;
    put_line(out, depth + 1, b"end")
}

/// Appends statements.
#[cycle(put_stmt)]
pub fn put_stmts(out: &mut Vec<u8>, depth: u8, body: &[Stmt]) -> Result<(), NoMemory>
    requires { statements_shallow depth (plain_stmts body.now) ≡ true }
    ensures { OnOk result (out.new.items ≡ out.old.items ++ statements_text depth (plain_stmts body.now)) }
{
    for s in body {
        put_stmt(out, depth, s)?;
    }
    Ok(())
}
