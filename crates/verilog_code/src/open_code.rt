//! Expressions over numbered values of which some are open.
//!
//! A choice whose condition has a number works out the chosen side alone, as where all values are numbers.
ghost use Rattle.std.specs.Prelude.{◌≡◌};
ghost use Rattle.verilog_code.specs.OpenCode.{open_at, picked, open_meaning};

use crate::code::Code;
use crate::open_operators::{agreed, concat, kept_odd, open_infixed, open_prefixed, part};

/// What stands at a place, 0 where there is none.
#[inline]
pub fn open_at(values: &[Option<u64>], place: usize) -> Option<u64>
    ensures { result ≡ open_at values.now place }
{
    match values.get(place) {
        Some(value) => *value,
        None => Some(0),
    }
}

// The first where the condition isn't 0, and the second where it is; where it is open, what both are.
#[inline]
#[cycle(open_code)]
fn chosen(condition: Option<u64>, a: &Code, b: &Code, values: &[Option<u64>]) -> Option<u64>
    ensures { result ≡ picked condition (open_meaning values.now a.now) (open_meaning values.now b.now) }
{
    match condition {
        None => agreed(open_value(a, values), open_value(b, values)),
        Some(c) => {
            if c != 0 {
                open_value(a, values)
            } else {
                open_value(b, values)
            }
        }
    }
}

/// What an expression is.
#[cycle(open_code)]
pub fn open_value(x: &Code, values: &[Option<u64>]) -> Option<u64>
    ensures { result ≡ open_meaning values.now x.now }
{
    match x {
        Code::PickNet(place, a, b) => chosen(open_at(values, *place), a, b, values),
        Code::PickBit(place, bit, a, b) => {
            chosen(part(open_at(values, *place), *bit, 1), a, b, values)
        }
        Code::Lit(v) => Some(*v),
        Code::Net(place) => open_at(values, *place),
        Code::Part(place, low, ones) => part(open_at(values, *place), *low, *ones),
        _ => open_operated(x, values),
    }
}

// The same, where a leaf needs no call.
#[inline]
#[cycle(open_code)]
fn open_quick(x: &Code, values: &[Option<u64>]) -> Option<u64>
    ensures { result ≡ open_meaning values.now x.now }
{
    match x {
        Code::Lit(v) => Some(*v),
        Code::Net(place) => open_at(values, *place),
        Code::Part(place, low, ones) => part(open_at(values, *place), *low, *ones),
        Code::Odd(place, mask) => kept_odd(open_at(values, *place), *mask),
        _ => open_value(x, values),
    }
}

// The same. It stands apart so that `open_value` is a loop that saves no registers.
#[inline(never)]
#[cycle(open_code)]
fn open_operated(x: &Code, values: &[Option<u64>]) -> Option<u64>
    ensures { result ≡ open_meaning values.now x.now }
{
    match x {
        Code::Choose(c, a, b) => chosen(open_quick(c, values), a, b, values),
        Code::Prefixed(op, ones, a) => open_prefixed(*op, *ones, open_quick(a, values)),
        Code::Odd(place, mask) => kept_odd(open_at(values, *place), *mask),
        Code::Infixed(op, ones, a, b) => {
            open_infixed(*op, *ones, open_quick(a, values), open_quick(b, values))
        }
        Code::Concat(low, a, b) => concat(*low, open_quick(a, values), open_quick(b, values)),
        Code::Lit(v) => Some(*v),
        Code::Net(place) => open_at(values, *place),
        Code::Part(place, low, ones) => part(open_at(values, *place), *low, *ones),
        Code::PickNet(place, a, b) => chosen(open_at(values, *place), a, b, values),
        Code::PickBit(place, bit, a, b) => {
            chosen(part(open_at(values, *place), *bit, 1), a, b, values)
        }
    }
}
