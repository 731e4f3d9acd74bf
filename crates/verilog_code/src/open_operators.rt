//! What operators give where a number may be missing.
ghost use Rattle.std.specs.Prelude.{◌≡◌, ◌+◌, ◌%◌, ◌^◌, Some, cond, nat_eq, bit_and};
ghost use Rattle.std.specs.Option.{option_map};
ghost use Rattle.verilog_tree.specs.declared.tree.BinOp.TheVariants as B;
ghost use Rattle.verilog_tree.specs.Partial.{agreed, both};
ghost use Rattle.verilog_code.specs.Code.{lowered, raised, odd, prefixed_code};
ghost use Rattle.verilog_code.specs.OpenCode.{alone_code, open_infixed_code};

use crate::code::{infixed, lowered, odd, prefixed, raised};
use verilog_tree::{BinOp, UnOp};

/// What both are.
#[inline]
pub(crate) fn agreed(a: Option<u64>, b: Option<u64>) -> Option<u64>
    ensures { result ≡ agreed a b }
{
    match a {
        None => None,
        Some(x) => match b {
            None => None,
            Some(y) => { if x == y { Some(x) } else { None } }
        },
    }
}

// One number alone, where it is this value.
#[inline]
fn where_equal(a: u64, value: u64, gives: u64) -> Option<u64>
    ensures { result ≡ cond (nat_eq a value) (Some gives) None }
{
    if a == value { Some(gives) } else { None }
}

/// What one operand alone decides.
fn alone(op: BinOp, ones: u64, a: u64) -> Option<u64>
    ensures { result ≡ alone_code op ones a }
{
    match op {
        BinOp::And => where_equal(a, 0, 0),
        BinOp::Or => where_equal(a, ones, a),
        BinOp::LogAnd => where_equal(a, 0, 0),
        BinOp::LogOr => { if a == 0 { None } else { Some(1) } }
        _ => None,
    }
}

/// What an operator gives of two operands.
pub(crate) fn open_infixed(op: BinOp, ones: u64, a: Option<u64>, b: Option<u64>) -> Option<u64>
    ensures { result ≡ open_infixed_code op ones a b }
{
    match a {
        None => match b {
            None => None,
            Some(y) => alone(op, ones, y),
        },
        Some(x) => match b {
            None => alone(op, ones, x),
            Some(y) => Some(infixed(op, ones, x, y)),
        },
    }
}

/// What an operator gives of one operand.
pub(crate) fn open_prefixed(op: UnOp, ones: u64, a: Option<u64>) -> Option<u64>
    ensures { result ≡ option_map (prefixed_code op ones) a }
{
    let x = a?;
    Some(prefixed(op, ones, x))
}

/// The parity of some bits of a value.
#[inline]
pub(crate) fn kept_odd(a: Option<u64>, mask: u64) -> Option<u64>
    ensures { result ≡ option_map odd (open_infixed_code B.And 0 a (Some mask)) }
{
    match a {
        None => { if mask == 0 { Some(odd(0)) } else { None } }
        Some(x) => Some(odd(x & mask)),
    }
}

/// Some bits of a value, from a low one on.
#[inline]
pub(crate) fn part(a: Option<u64>, low: u8, ones: u64) -> Option<u64>
    ensures { result ≡ option_map (λ v. bit_and (lowered v low) ones) a }
{
    let x = a?;
    Some(lowered(x, low as u64) & ones)
}

/// The first above the low bits that the second has.
#[inline]
pub(crate) fn concat(low: u64, a: Option<u64>, b: Option<u64>) -> Option<u64>
    ensures { result ≡ both (λ x y. (raised x low + y) % 2 ^ 64) a b }
{
    let x = a?;
    let y = b?;
    Some(raised(x, low).wrapping_add(y))
}
