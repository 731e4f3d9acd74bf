//! What the pins of the macro have.
ghost use Rattle.std.specs.Prelude.{◌≡◌, ◌++◌, ◌≤◌, ◌<◌, ◌^◌, ◌-◌, IfOk, OnOk, map, cond, All};
ghost use Rattle.verilog_tree.specs.Plain.{plain, plain_item, Net};
ghost use Rattle.macro_pins.specs.Pins.{plain_pin, has_enable, IsDrivable};
ghost use Rattle.macro_pins.specs.Asked as A;
ghost use Rattle.collar_rtl.specs.Interface as I;

use crate::names::{addr_at, at_pin, en_at, of_pin, wdata_at, we_at};
use bist_bits::all_ones;
use macro_pins::{Pin, PinKind};
use std::alloc::{AllocError, Global};
use verilog_tree::build::{assign, binary, choose, concat, literal, name, net, unary};
use verilog_tree::{BinOp, BodyItem, Expr, UnOp};

/// The value of a pin that is on, or off.
fn switched(pin: &Pin, on: bool) -> u64
    requires some { 1 ≤ pin.now.width }
    requires narrow { pin.now.width ≤ 64 }
    ensures value { result ≡ A.switched (plain_pin pin.now) on }
    ensures fits { result < 2 ^ pin.now.width }
{
    if pin.low == on {
        0
    } else {
        all_ones(pin.width)
    }
}

/// On where the condition holds, and else off.
fn where_on(alloc: Global, pin: &Pin, condition: Expr) -> Result<Expr, AllocError>
    requires some { 1 ≤ pin.now.width }
    requires narrow { pin.now.width ≤ 64 }
    ensures { IfOk result (λ x. plain x ≡ I.where_on (plain_pin pin.now) (plain condition)) }
{
    choose(
        alloc,
        condition,
        literal(pin.width, switched(pin, true)),
        literal(pin.width, switched(pin, false)),
    )
}

/// A number in the low bits.
fn widened(alloc: Global, from: u8, to: u8, x: Expr) -> Result<Expr, AllocError>
    requires wide { from ≤ to }
    requires narrow { to ≤ 64 }
    ensures { IfOk result (λ y. plain y ≡ I.widened from to (plain x)) }
{
    if from == to {
        return Ok(x);
    }
    let parts = Vec::from_array(alloc, [literal(to - from, 0), x])?;
    Ok(concat(parts))
}

/// Each bit inverted, where 0 is on.
fn inverted(alloc: Global, pin: &Pin, x: Expr) -> Result<Expr, AllocError>
    requires some { 1 ≤ pin.now.width }
    requires narrow { pin.now.width ≤ 64 }
    ensures { IfOk result (λ y. plain y ≡ I.inverted (plain_pin pin.now) (plain x)) }
{
    if pin.low {
        binary(
            alloc,
            BinOp::Xor,
            x,
            literal(pin.width, all_ones(pin.width)),
        )
    } else {
        Ok(x)
    }
}

fn writes(alloc: Global, stage: u8) -> Result<Expr, AllocError>
    requires { stage ≤ 3 }
    ensures { IfOk result (λ x. plain x ≡ I.writes stage) }
{
    binary(alloc, BinOp::LogAnd, net(en_at(stage)), net(we_at(stage)))
}

fn reads(alloc: Global, stage: u8) -> Result<Expr, AllocError>
    requires { stage ≤ 3 }
    ensures { IfOk result (λ x. plain x ≡ I.reads stage) }
{
    let other = unary(alloc, UnOp::Not, net(we_at(stage)))?;
    binary(alloc, BinOp::LogAnd, net(en_at(stage)), other)
}

fn write(alloc: Global, enabled: bool, stage: u8) -> Result<Expr, AllocError>
    requires { stage ≤ 3 }
    ensures { IfOk result (λ x. plain x ≡ cond enabled (Net (I.we_at stage)) (I.writes stage)) }
{
    if enabled {
        Ok(net(we_at(stage)))
    } else {
        writes(alloc, stage)
    }
}

/// What a pin has in test, behind so many registers.
fn in_test(
    alloc: Global,
    pin: &Pin,
    enabled: bool,
    stage: u8,
    address: u8,
) -> Result<Expr, AllocError>
    requires few { stage ≤ 3 }
    requires drivable { IsDrivable address (plain_pin pin.now) }
    ensures { IfOk result (λ x. plain x ≡ I.in_test enabled stage address pin.now.kind (plain_pin pin.now)) }
{
    match pin.kind {
        PinKind::Enable => where_on(alloc, pin, net(en_at(stage))),
        PinKind::Write => where_on(alloc, pin, write(alloc, enabled, stage)?),
        PinKind::ReadAlone => where_on(alloc, pin, reads(alloc, stage)?),
        PinKind::WriteAlone => where_on(alloc, pin, writes(alloc, stage)?),
        PinKind::Address => {
            let word = widened(alloc, address, pin.width, net(addr_at(stage)))?;
            inverted(alloc, pin, word)
        }
        PinKind::Data => inverted(alloc, pin, net(wdata_at(stage))),
        PinKind::Mask => Ok(literal(pin.width, switched(pin, true))),
        PinKind::Pass => Ok(net(of_pin(&pin.name))),
        PinKind::Fixed | PinKind::Tie => Ok(literal(pin.width, pin.value)),
    }
}

/// What a pin has.
fn at_macro(
    alloc: Global,
    pin: &Pin,
    enabled: bool,
    stage: u8,
    address: u8,
) -> Result<Expr, AllocError>
    requires few { stage ≤ 3 }
    requires drivable { IsDrivable address (plain_pin pin.now) }
    ensures { IfOk result (λ x. plain x ≡ I.at_macro enabled stage address pin.now.kind (plain_pin pin.now)) }
{
    let tested = in_test(alloc, pin, enabled, stage, address)?;
    match pin.kind {
        PinKind::Pass | PinKind::Tie => Ok(tested),
        _ => choose(alloc, net(name("test")), tested, net(of_pin(&pin.name))),
    }
}

/// Whether some pin enables commands of both ways.
pub fn has_enable(pins: &[Pin]) -> bool
    ensures { result ≡ has_enable (map plain_pin pins.now) }
{
    match pins {
        [] => false,
        [first, rest @ ..] => match first.kind {
            PinKind::Enable => true,
            _ => has_enable(rest),
        },
    }
}

/// An assignment of each pin.
pub fn assign_pins(
    items: &mut Vec<BodyItem>,
    alloc: Global,
    pins: &[Pin],
    enabled: bool,
    stage: u8,
    address: u8,
) -> Result<(), AllocError>
    requires few { stage ≤ 3 }
    requires drivable { All (λ p. IsDrivable address (plain_pin p)) pins.now }
    ensures { OnOk result (map plain_item items.new.items ≡ map plain_item items.old.items
        ++ I.pin_assigns enabled stage address (map plain_pin pins.now)) }
{
    match pins {
        [] => Ok(()),
        [first, rest @ ..] => {
            assign(
                items,
                at_pin(&first.name),
                at_macro(alloc, first, enabled, stage, address)?,
            )?;
            assign_pins(items, alloc, rest, enabled, stage, address)
        }
    }
}
