//! The operators: the text of each, the mark that it is, how tightly it binds, and the width of its result.
ghost use Rattle.std.specs.Prelude.{◌≡◌};
ghost use Rattle.verilog_tree.specs.Operators.{unary_mark, binary_mark, height, prefixed_width, infixed_width};
ghost use Rattle.verilog_tree.specs.Rules.{Refuses, infixed_widths};
ghost use Rattle.verilog_tree.specs.Marked.{unary_of, infix_of};
ghost use Rattle.verilog_tree.specs.Tokens.{mark_text};

use crate::fault::TreeFault;
use crate::tokens::Mark;
use crate::tree::{BinOp, UnOp};
use crate::widths::equal;

/// The text of an operator of one operand.
pub fn unary_text(op: UnOp) -> &'static [u8]
    ensures { result.now ≡ mark_text (unary_mark op) }
{
    match op {
        UnOp::Not => b"!",
        UnOp::Invert => b"~",
        UnOp::AllOnes => b"&",
        UnOp::AnyOne => b"|",
        UnOp::Parity => b"^",
    }
}

/// The text of an operator of two operands.
pub fn binary_text(op: BinOp) -> &'static [u8]
    ensures { result.now ≡ mark_text (binary_mark op) }
{
    match op {
        BinOp::Add => b"+",
        BinOp::Sub => b"-",
        BinOp::And => b"&",
        BinOp::Or => b"|",
        BinOp::Xor => b"^",
        BinOp::Eq => b"==",
        BinOp::Ne => b"!=",
        BinOp::Lt => b"<",
        BinOp::Le => b"<=",
        BinOp::Gt => b">",
        BinOp::Ge => b">=",
        BinOp::LogAnd => b"&&",
        BinOp::LogOr => b"||",
        BinOp::Shl => b"<<",
        BinOp::Shr => b">>",
    }
}

/// The operator of one operand that a mark is.
pub fn unary_of(mark: Mark) -> Option<UnOp>
    ensures { result ≡ unary_of mark }
{
    match mark {
        Mark::Bang => Some(UnOp::Not),
        Mark::Tilde => Some(UnOp::Invert),
        Mark::Ampersand => Some(UnOp::AllOnes),
        Mark::Bar => Some(UnOp::AnyOne),
        Mark::Caret => Some(UnOp::Parity),
        _ => None,
    }
}

/// The operator of two operands that a mark is.
pub fn infix_of(mark: Mark) -> Option<BinOp>
    ensures { result ≡ infix_of mark }
{
    match mark {
        Mark::Plus => Some(BinOp::Add),
        Mark::Minus => Some(BinOp::Sub),
        Mark::Ampersand => Some(BinOp::And),
        Mark::Bar => Some(BinOp::Or),
        Mark::Caret => Some(BinOp::Xor),
        Mark::TwoEquals => Some(BinOp::Eq),
        Mark::BangEquals => Some(BinOp::Ne),
        Mark::Less => Some(BinOp::Lt),
        Mark::LessEquals => Some(BinOp::Le),
        Mark::Greater => Some(BinOp::Gt),
        Mark::GreaterEquals => Some(BinOp::Ge),
        Mark::TwoAmpersands => Some(BinOp::LogAnd),
        Mark::TwoBars => Some(BinOp::LogOr),
        Mark::TwoLess => Some(BinOp::Shl),
        Mark::TwoGreater => Some(BinOp::Shr),
        _ => None,
    }
}

/// The height of an operator: those of height 1 bind most tightly.
pub fn height(op: BinOp) -> u8
    ensures { result ≡ height op }
{
    match op {
        BinOp::Add | BinOp::Sub => 1,
        BinOp::Shl | BinOp::Shr => 2,
        BinOp::Lt | BinOp::Le | BinOp::Gt | BinOp::Ge => 3,
        BinOp::Eq | BinOp::Ne => 4,
        BinOp::And => 5,
        BinOp::Xor => 6,
        BinOp::Or => 7,
        BinOp::LogAnd => 8,
        BinOp::LogOr => 9,
    }
}

/// The width of an operator before an operand of this width.
pub fn unary_width(op: UnOp, operand: u64) -> u64
    ensures { result ≡ prefixed_width op operand }
{
    match op {
        UnOp::Invert => operand,
        UnOp::Not | UnOp::AllOnes | UnOp::AnyOne | UnOp::Parity => 1,
    }
}

/// The width of an operator between operands, of which the left has this width.
pub fn binary_width(op: BinOp, left: u64) -> u64
    ensures { result ≡ infixed_width op left }
{
    match op {
        BinOp::Add | BinOp::Sub | BinOp::And | BinOp::Or | BinOp::Xor | BinOp::Shl | BinOp::Shr =>
            left,
        _ => 1,
    }
}

// Only `&&`, `||`, `<<` and `>>` take operands of different widths.
pub(crate) fn operands(op: BinOp, left: u64, right: u64) -> Result<(), TreeFault>
    ensures { Refuses (infixed_widths op left right) result }
{
    match op {
        BinOp::LogAnd | BinOp::LogOr | BinOp::Shl | BinOp::Shr => Ok(()),
        _ => equal(left, right),
    }
}
