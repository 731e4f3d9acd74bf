//! Expressions over numbered values, in the form that runs fast: a leaf is read without a call, and a choice by a
//! whole value or by one bit is one node, of which only the chosen side is worked out.
ghost use Rattle.std.specs.Prelude.{◌≡◌, cond, nat_eq};
ghost use Rattle.verilog_code.specs.Code.{at, lowered, raised, odd, prefixed_code, infixed_code, meaning};

use verilog_tree::{BinOp, UnOp};

/// An expression. A number stands for the place of a value, a `u64` beside an operator for the ones of its width.
#[derive(Drop)]
pub enum Code {
    Lit(u64),
    Net(usize),
    /// The bits of a value from a place on, and the ones that keep of them what is selected.
    Part(usize, u8, u64),
    /// A choice by whether a value is 0.
    PickNet(usize, Box<Code>, Box<Code>),
    /// A choice by one bit of a value.
    PickBit(usize, u8, Box<Code>, Box<Code>),
    Choose(Box<Code>, Box<Code>, Box<Code>),
    Prefixed(UnOp, u64, Box<Code>),
    /// Whether an odd number of these bits of a value are 1.
    Odd(usize, u64),
    Infixed(BinOp, u64, Box<Code>, Box<Code>),
    /// The first above the low bits that the second has.
    Concat(u64, Box<Code>, Box<Code>),
}

/// The value at a place, 0 where there is none.
#[inline]
pub fn at(values: &[u64], place: usize) -> u64
    ensures { result ≡ at values.now place }
{
    match values.get(place) {
        Some(value) => *value,
        None => 0,
    }
}

#[inline]
pub fn lowered(value: u64, low: u64) -> u64
    ensures { result ≡ lowered value low }
{
    if low < 64 { value >> low } else { 0 }
}

#[inline]
pub fn odd(value: u64) -> u64
    ensures { result ≡ odd value }
{
    (value.count_ones() % 2) as u64
}

#[inline]
pub fn raised(value: u64, by: u64) -> u64
    ensures { result ≡ raised value by }
{
    if by < 64 { value << by } else { 0 }
}

/// The value of an operator, where its operand's width has these ones.
#[inline]
pub(crate) fn prefixed(op: UnOp, ones: u64, a: u64) -> u64
    ensures { result ≡ prefixed_code op ones a }
{
    match op {
        UnOp::Not => (a == 0) as u64,
        UnOp::Invert => ones.saturating_sub(a),
        UnOp::AllOnes => (a == ones) as u64,
        UnOp::AnyOne => (a != 0) as u64,
        UnOp::Parity => odd(a),
    }
}

/// The value of an operator, where the width of its left operand has these ones.
#[inline]
pub(crate) fn infixed(op: BinOp, ones: u64, a: u64, b: u64) -> u64
    ensures { result ≡ infixed_code op ones a b }
{
    match op {
        BinOp::Add => a.wrapping_add(b) & ones,
        BinOp::Sub => a.wrapping_sub(b) & ones,
        BinOp::And => a & b,
        BinOp::Or => a | b,
        BinOp::Xor => a ^ b,
        BinOp::Eq => (a == b) as u64,
        BinOp::Ne => (a != b) as u64,
        BinOp::Lt => (a < b) as u64,
        BinOp::Le => (a <= b) as u64,
        BinOp::Gt => (a > b) as u64,
        BinOp::Ge => (a >= b) as u64,
        BinOp::LogAnd => (a != 0 && b != 0) as u64,
        BinOp::LogOr => (a != 0 || b != 0) as u64,
        BinOp::Shl => raised(a, b) & ones,
        BinOp::Shr => lowered(a, b),
    }
}

/// The value of an expression.
#[cycle(code_value)]
pub fn value(x: &Code, values: &[u64]) -> u64
    ensures { result ≡ meaning values.now x.now }
{
    match x {
        Code::PickNet(place, a, b) => {
            if at(values, *place) != 0 {
                value(a, values)
            } else {
                value(b, values)
            }
        }
        Code::PickBit(place, bit, a, b) => {
            if lowered(at(values, *place), *bit as u64) & 1 != 0 {
                value(a, values)
            } else {
                value(b, values)
            }
        }
        Code::Lit(v) => *v,
        Code::Net(place) => at(values, *place),
        Code::Part(place, low, ones) => lowered(at(values, *place), *low as u64) & *ones,
        _ => operated(x, values),
    }
}

// The same, where a leaf needs no call.
#[inline]
#[cycle(code_value)]
fn quick(x: &Code, values: &[u64]) -> u64
    ensures { result ≡ meaning values.now x.now }
{
    match x {
        Code::Lit(v) => *v,
        Code::Net(place) => at(values, *place),
        Code::Part(place, low, ones) => lowered(at(values, *place), *low as u64) & *ones,
        Code::Odd(place, mask) => odd(at(values, *place) & *mask),
        _ => value(x, values),
    }
}

// The first where the condition isn't 0, and else the second.
#[inline]
#[cycle(code_value)]
fn chosen(condition: u64, a: &Code, b: &Code, values: &[u64]) -> u64
    ensures { result ≡ cond (nat_eq condition 0) (meaning values.now b.now) (meaning values.now a.now) }
{
    if condition != 0 {
        value(a, values)
    } else {
        value(b, values)
    }
}

// The value, where the expression is an operator's. It stands apart so that `value` is a loop that saves no registers.
#[inline(never)]
#[cycle(code_value)]
fn operated(x: &Code, values: &[u64]) -> u64
    ensures { result ≡ meaning values.now x.now }
{
    match x {
        Code::Choose(c, a, b) => chosen(quick(c, values), a, b, values),
        Code::Prefixed(op, ones, a) => prefixed(*op, *ones, quick(a, values)),
        Code::Odd(place, mask) => odd(at(values, *place) & *mask),
        Code::Infixed(op, ones, a, b) => infixed(*op, *ones, quick(a, values), quick(b, values)),
        Code::Concat(low, a, b) => raised(quick(a, values), *low).wrapping_add(quick(b, values)),
        Code::Lit(v) => *v,
        Code::Net(place) => at(values, *place),
        Code::Part(place, low, ones) => lowered(at(values, *place), *low as u64) & *ones,
        Code::PickNet(place, a, b) => chosen(at(values, *place), a, b, values),
        Code::PickBit(place, bit, a, b) => {
            chosen(lowered(at(values, *place), *bit as u64) & 1, a, b, values)
        }
    }
}
