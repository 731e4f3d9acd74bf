//! The registers between the self-test and the macro.
ghost use Rattle.std.specs.Prelude.{◌≡◌, ◌++◌, ◌∷◌, [], ◌+◌, ◌≤◌, OnOk, map};
ghost use Rattle.verilog_tree.specs.Plain.{plain, plain_item, plain_stmt, SetTo, RegItem, Conditional, Net};
ghost use Rattle.collar_rtl.specs.Interface as I;

use crate::names::{addr_at, en_at, rdata_at, wdata_at, we_at};
use macro_pins::PinName;
use std::alloc::{AllocError, Global};
use verilog_tree::build::{choose, flag, name, net, register};
use verilog_tree::{BodyItem, Expr, Name, Stmt};

/// Registers of a command.
fn declare_command(
    items: &mut Vec<BodyItem>,
    bits: u8,
    address: u8,
    stage: u8,
) -> Result<(), AllocError>
    requires { stage ≤ 3 }
    ensures { OnOk result (map plain_item items.new.items ≡ map plain_item items.old.items
        ++ RegItem (I.en_at stage) 1 ∷ RegItem (I.we_at stage) 1 ∷ RegItem (I.addr_at stage) address ∷ RegItem (I.wdata_at stage) bits ∷ []) }
{
    register(items, en_at(stage), 1)?;
    register(items, we_at(stage), 1)?;
    register(items, addr_at(stage), address)?;
    register(items, wdata_at(stage), bits)
}

/// Registers of the commands, of so many stages behind one.
pub fn declare_commands(
    items: &mut Vec<BodyItem>,
    bits: u8,
    address: u8,
    stage: u8,
    left: u8,
) -> Result<(), AllocError>
    requires { stage + left ≤ 3 }
    ensures { OnOk result (map plain_item items.new.items ≡ map plain_item items.old.items ++ I.command_regs bits address stage left) }
{
    if left == 0 {
        return Ok(());
    }
    declare_command(items, bits, address, stage + 1)?;
    declare_commands(items, bits, address, stage + 1, left - 1)
}

/// Registers of the words of the macro.
pub fn declare_words(
    items: &mut Vec<BodyItem>,
    pin: &PinName,
    bits: u8,
    stage: u8,
    left: u8,
) -> Result<(), AllocError>
    requires { stage + left ≤ 3 }
    ensures { OnOk result (map plain_item items.new.items ≡ map plain_item items.old.items ++ I.word_regs pin.now.bytes bits stage left) }
{
    if left == 0 {
        return Ok(());
    }
    register(items, rdata_at(pin, stage + 1), bits)?;
    declare_words(items, pin, bits, stage + 1, left - 1)
}

/// What a register takes.
fn set(block: &mut Vec<Stmt>, target: Name, value: Expr) -> Result<(), AllocError>
    ensures { OnOk result (map plain_stmt block.new.items ≡ map plain_stmt block.old.items ++ SetTo target.bytes (plain value) ∷ []) }
{
    block.push(Stmt::Set(target, value))?;
    Ok(())
}

/// What the registers of a command take: in test alone it goes on.
fn set_command(block: &mut Vec<Stmt>, alloc: Global, from: u8, to: u8) -> Result<(), AllocError>
    requires from { from ≤ 3 }
    requires to { to ≤ 3 }
    ensures { OnOk result (map plain_stmt block.new.items ≡ map plain_stmt block.old.items
        ++ SetTo (I.en_at to) (Conditional (Net I.test) (Net (I.en_at from)) (I.lit 1 0)) ∷ SetTo (I.we_at to) (Net (I.we_at from))
        ∷ SetTo (I.addr_at to) (Net (I.addr_at from)) ∷ SetTo (I.wdata_at to) (Net (I.wdata_at from)) ∷ []) }
{
    let on = choose(alloc, net(name("test")), net(en_at(from)), flag(false))?;
    set(block, en_at(to), on)?;
    set(block, we_at(to), net(we_at(from)))?;
    set(block, addr_at(to), net(addr_at(from)))?;
    set(block, wdata_at(to), net(wdata_at(from)))
}

/// A command goes on in test alone.
pub fn set_commands(
    block: &mut Vec<Stmt>,
    alloc: Global,
    stage: u8,
    left: u8,
) -> Result<(), AllocError>
    requires { stage + left ≤ 3 }
    ensures { OnOk result (map plain_stmt block.new.items ≡ map plain_stmt block.old.items ++ I.command_sets stage left) }
{
    if left == 0 {
        return Ok(());
    }
    set_command(block, alloc, stage, stage + 1)?;
    set_commands(block, alloc, stage + 1, left - 1)
}

/// And a word always.
pub fn set_words(
    block: &mut Vec<Stmt>,
    pin: &PinName,
    stage: u8,
    left: u8,
) -> Result<(), AllocError>
    requires { stage + left ≤ 3 }
    ensures { OnOk result (map plain_stmt block.new.items ≡ map plain_stmt block.old.items ++ I.word_sets pin.now.bytes stage left) }
{
    if left == 0 {
        return Ok(());
    }
    set(block, rdata_at(pin, stage + 1), net(rdata_at(pin, stage)))?;
    set_words(block, pin, stage + 1, left - 1)
}
