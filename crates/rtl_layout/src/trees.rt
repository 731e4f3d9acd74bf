//! Expressions of the module.
ghost use Rattle.std.specs.Prelude.{◌≡◌, ◌+◌, ◌^◌, ◌<◌, ◌≤◌, IfOk, OnOk, length, map, drop, take};
ghost use Rattle.verilog_tree.specs.Plain.{plain, Net};
ghost use Rattle.verilog_tree.specs.Meaning.{bit};
ghost use Rattle.rtl_layout.specs.Layout.{gated};
ghost use Rattle.rtl_layout.specs.Build.{bit_of, below, pick, counter, at_reset, step_while};

use std::alloc::{AllocError, Global};
use verilog_tree::build::{binary, choose, flag, literal, name, net};
use verilog_tree::{BinOp, Expr, Name};

/// Bit `i` of a name of `width` bits.
pub fn bit(name: Name, width: u8, i: u8) -> Expr
    ensures { plain result ≡ bit_of name.bytes width i }
{
    if width == 1 {
        Expr::Name(name)
    } else {
        Expr::Bit(name, i)
    }
}

// Two to the power of i.
#[tactic(auto, using(crate::proofs::Taken::power))]
fn power(i: u8) -> usize
    requires { i ≤ 16 }
    ensures { result ≡ 2 ^ i }
{
    1 << i
}

/// The leaf whose number the name holds, among those from `start` on, by the lowest `i` bits of the name.
/// The leaves are taken out.
fn choices(
    alloc: Global,
    name: Name,
    width: u8,
    i: u8,
    leaves: &mut Vec<Expr>,
    start: usize,
) -> Result<Expr, AllocError>
    requires some { start < length leaves.now.items }
    requires fits { length leaves.now.items ≤ start + 2 ^ i }
    requires narrow { i ≤ 16 }
    ensures tree { IfOk result (λ x. plain x ≡ below name.bytes width i (drop start (map plain leaves.old.items))) }
    ensures taken { OnOk result (leaves.new.items ≡ take start leaves.old.items) }
{
    if i == 0 {
        return match leaves.pop() {
            Some(leaf) => Ok(leaf),
            None => unreachable!(),
        };
    }
    let half = power(i - 1);
    if leaves.len() - start <= half {
        return choices(alloc, name, width, i - 1, leaves, start);
    }
    let high = choices(alloc, name, width, i - 1, leaves, start + half)?;
    let low = choices(alloc, name, width, i - 1, leaves, start)?;
    choose(alloc, bit(name, width, i - 1), high, low)
}

/// The leaf whose number the name of `width` bits holds.
pub fn pick_leaf(
    alloc: Global,
    name: Name,
    width: u8,
    leaves: &mut Vec<Expr>,
) -> Result<Expr, AllocError>
    requires some { 0 < length leaves.now.items }
    requires fits { length leaves.now.items ≤ 2 ^ width }
    requires narrow { width ≤ 16 }
    ensures { IfOk result (λ x. plain x ≡ pick name.bytes width (map plain leaves.old.items)) }
{
    choices(alloc, name, width, width, leaves, 0)
}

/// `stepped` where all the named conditions hold, else `kept`.
pub fn while_all(
    alloc: Global,
    conditions: &[Name],
    stepped: Expr,
    kept: Name,
) -> Result<Expr, AllocError>
    ensures { IfOk result (λ x. plain x ≡ step_while (map (λ c. Net c.bytes) conditions.now) (plain stepped) (Net kept.bytes)) }
{
    match conditions {
        [] => Ok(stepped),
        [first, rest @ ..] => {
            let inner = while_all(alloc, rest, stepped, kept)?;
            let condition = net(*first);
            choose(alloc, condition, inner, net(kept))
        }
    }
}

/// `first` in a cycle with reset, else `later`.
pub fn after_reset(alloc: Global, first: Expr, later: Expr) -> Result<Expr, AllocError>
    ensures { IfOk result (λ x. plain x ≡ at_reset (plain first) (plain later)) }
{
    choose(alloc, net(name("reset")), first, later)
}

/// 0 in a cycle with reset.
pub fn gate(alloc: Global, later: Expr) -> Result<Expr, AllocError>
    ensures { IfOk result (λ x. plain x ≡ gated (plain later)) }
{
    after_reset(alloc, flag(false), later)
}

/// The next value of a register that counts up where all conditions hold, and from its last value to 0.
#[tactic(auto, using(crate::proofs::Taken::one_below))]
pub fn counting(
    alloc: Global,
    register: Name,
    width: u8,
    conditions: &[Name],
    last: Name,
) -> Result<Expr, AllocError>
    requires positive { 1 ≤ width }
    requires narrow { width ≤ 64 }
    ensures { IfOk result (λ x. plain x ≡ counter register.bytes width (map (λ c. Net c.bytes) conditions.now) last.bytes) }
{
    let more = binary(alloc, BinOp::Add, net(register), literal(width, 1))?;
    let turned = choose(alloc, net(last), literal(width, 0), more)?;
    let stepped = while_all(alloc, conditions, turned, register)?;
    after_reset(alloc, literal(width, 0), stepped)
}
