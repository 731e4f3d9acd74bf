//! Expressions, with parentheses round each operator.
ghost use Rattle.std.specs.Prelude.{◌≡◌, ℕ, ◌+◌, ◌++◌, OnOk, codes, map, true};
ghost use Rattle.verilog_tree.specs.Plain.{plain, expressions, BitSelect, PartSelect};
ghost use Rattle.verilog_emit.specs.Printed.{expression_text, parts_text};

use crate::writing::{put_literal, put_name, put_separator};
use bist_bits::NoMemory;
use bist_text::{put, put_number_between};
use verilog_tree::{Expr, Name, binary_text, unary_text};

fn put_bit(out: &mut Vec<u8>, name: &Name, place: u8) -> Result<(), NoMemory>
    ensures { OnOk result (out.new.items ≡ out.old.items ++ expression_text (BitSelect name.now.bytes place)) }
{
    put_name(out, name)?;
    put_number_between(out, b"[", u64::from(place), b"]")
}

fn put_part(out: &mut Vec<u8>, name: &Name, high: u8, low: u8) -> Result<(), NoMemory>
    ensures { OnOk result (out.new.items ≡ out.old.items ++ expression_text (PartSelect name.now.bytes high low)) }
{
    put_name(out, name)?;
    put_number_between(out, b"[", u64::from(high), b":")?;
    put_number_between(out, b"", u64::from(low), b"]")
}

/// Appends an expression.
#[cycle(put_expr)]
fn put_expr(out: &mut Vec<u8>, x: &Expr) -> Result<(), NoMemory>
    ensures { OnOk result (out.new.items ≡ out.old.items ++ expression_text (plain x.now)) }
{
    match x {
        Expr::Name(name) => put_name(out, name),
        Expr::Bit(name, place) => put_bit(out, name, *place),
        Expr::Part(name, high, low) => put_part(out, name, *high, *low),
        Expr::Lit(bits) => put_literal(out, *bits),
        Expr::Concat(parts) => put_parts(out, parts),
        Expr::Unary(op, a) => {
            put(out, b"(")?;
            put_enclosed(out, unary_text(*op), a, b")")
        }
        Expr::Binary(op, a, b) => {
            put_enclosed(out, b"(", a, b" ")?;
            put(out, binary_text(*op))?;
            put_enclosed(out, b" ", b, b")")
        }
        Expr::Choose(c, a, b) => {
            put_enclosed(out, b"(", c, b" ? ")?;
            put_enclosed(out, b"", a, b" : ")?;
            put_enclosed(out, b"", b, b")")
        }
    }
}

/// Appends an expression between two texts.
#[cycle(put_expr)]
pub fn put_enclosed(
    out: &mut Vec<u8>,
    before: &[u8],
    x: &Expr,
    behind: &[u8],
) -> Result<(), NoMemory>
    ensures { OnOk result (out.new.items ≡ out.old.items ++ (before.now ++ expression_text (plain x.now) ++ behind.now)) }
{
    put(out, before)?;
    put_expr(out, x)?;
    put(out, behind)
}

/// Appends a concatenation.
#[cycle(put_expr)]
fn put_parts(out: &mut Vec<u8>, parts: &[Expr]) -> Result<(), NoMemory>
    ensures { OnOk result (out.new.items ≡ out.old.items
        ++ (codes "{" ++ parts_text true (expressions (map plain parts.now)) ++ codes "}")) }
{
    put(out, b"{")?;
    let mut first = true;
    for part in parts {
        put_separator(out, first)?;
        put_expr(out, part)?;
        first = false;
    }
    put(out, b"}")
}
