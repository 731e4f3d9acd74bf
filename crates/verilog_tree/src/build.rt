//! Parts of a module, each built of its parts.
ghost use Rattle.std.specs.Prelude.{◌≡◌, ◌^◌, ◌<◌, ◌≤◌, ◌++◌, ◌∷◌, [], IfOk, OnOk, length, map};
ghost use Rattle.verilog_tree.specs.Plain.{plain, plain_item, plain_port, expressions, Net, Literal, Concatenation, Prefixed, Infixed, Conditional, WireItem, RegItem, AssignItem};
ghost use Rattle.verilog_tree.specs.Operators.{bit};

use crate::tree::{BinOp, BodyItem, Decl, Dir, Expr, Name, Port, UnOp};
use arrayvec::ArrayString;
use bist_bits::Bits;
use std::alloc::{AllocError, Global};

/// A name of at most 64 bytes.
pub fn name(text: &str) -> Name
    requires { length text.now ≤ 64 }
    ensures { result.bytes ≡ text.now }
{
    let mut name = ArrayString::new();
    name.push_str(text);
    name
}

/// A whole name.
pub fn net(name: Name) -> Expr
    ensures { plain result ≡ Net name.bytes }
{
    Expr::Name(name)
}

/// A literal of `width` bits.
pub fn literal(width: u8, value: u64) -> Expr
    requires positive { 1 ≤ width }
    requires narrow { width ≤ 64 }
    requires fits { value < 2 ^ width }
    ensures { plain result ≡ Literal (record { width = width; value = value }) }
{
    Expr::Lit(Bits::new(width, value))
}

/// A literal of one bit.
pub fn flag(value: bool) -> Expr
    ensures { plain result ≡ Literal (record { width = 1; value = bit value }) }
{
    literal(1, u64::from(value))
}

/// An operator before an expression.
pub fn unary(alloc: Global, op: UnOp, a: Expr) -> Result<Expr, AllocError>
    ensures { IfOk result (λ x. plain x ≡ Prefixed op (plain a)) }
{
    let a = Box::new(alloc, a)?;
    Ok(Expr::Unary(op, a))
}

/// An operator between two expressions.
pub fn binary(alloc: Global, op: BinOp, a: Expr, b: Expr) -> Result<Expr, AllocError>
    ensures { IfOk result (λ x. plain x ≡ Infixed op (plain a) (plain b)) }
{
    let a = Box::new(alloc, a)?;
    let b = Box::new(alloc, b)?;
    Ok(Expr::Binary(op, a, b))
}

/// `c ? a : b`.
pub fn choose(alloc: Global, c: Expr, a: Expr, b: Expr) -> Result<Expr, AllocError>
    ensures { IfOk result (λ x. plain x ≡ Conditional (plain c) (plain a) (plain b)) }
{
    let c = Box::new(alloc, c)?;
    let a = Box::new(alloc, a)?;
    let b = Box::new(alloc, b)?;
    Ok(Expr::Choose(c, a, b))
}

/// The parts of a vector, the highest first.
pub fn concat(parts: Vec<Expr>) -> Expr
    ensures { plain result ≡ Concatenation (expressions (map plain parts.items)) }
{
    Expr::Concat(parts)
}

/// A port of this name, of at most 64 bytes.
pub fn port(dir: Dir, text: &str, width: u8) -> Port
    requires { length text.now ≤ 64 }
    ensures { plain_port result ≡ record { dir = dir; name = text.now; width = width } }
{
    Port {
        dir,
        name: name(text),
        width,
    }
}

/// One wire more.
pub fn wire(items: &mut Vec<BodyItem>, name: Name, width: u8) -> Result<(), AllocError>
    ensures { OnOk result (map plain_item items.new.items ≡ map plain_item items.old.items ++ WireItem name.bytes width ∷ []) }
{
    items.push(BodyItem::Wire(Decl { name, width }))?;
    Ok(())
}

/// One register more.
pub fn register(items: &mut Vec<BodyItem>, name: Name, width: u8) -> Result<(), AllocError>
    ensures { OnOk result (map plain_item items.new.items ≡ map plain_item items.old.items ++ RegItem name.bytes width ∷ []) }
{
    items.push(BodyItem::Reg(Decl { name, width }))?;
    Ok(())
}

/// One assignment more.
pub fn assign(items: &mut Vec<BodyItem>, target: Name, value: Expr) -> Result<(), AllocError>
    ensures { OnOk result (map plain_item items.new.items ≡ map plain_item items.old.items ++ AssignItem target.bytes (plain value) ∷ []) }
{
    items.push(BodyItem::Assign(target, value))?;
    Ok(())
}
