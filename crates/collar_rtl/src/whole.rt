//! The whole module.
ghost use Rattle.std.specs.Prelude.{◌≡◌, ◌++◌, ◌∷◌, [], ◌≤◌, IfOk, IfErr, OnOk, map, All, codes, true, None};
ghost use Rattle.verilog_tree.specs.Plain.{plain_item, plain_module, AssignItem, Net, Prefixed};
ghost use Rattle.verilog_tree.specs.Fits.{fits};
ghost use Rattle.verilog_tree.specs.Rules.{first_break};
ghost use Rattle.verilog_tree.specs.declared.tree.UnOp.TheVariants.{Not};
ghost use Rattle.macro_pins.specs.Pins.{has_enable, pins_of, plain_pin, IsDrivable};
ghost use Rattle.collar_rtl.specs.Interface as I;
ghost use Rattle.collar_rtl.specs.Refused.{IsRefused};

use crate::driving::{assign_pins, has_enable};
use crate::names::{at_pin, of_pin, rdata_at};
use crate::ports::ports;
use crate::stages::{declare_commands, declare_words, set_commands, set_words};
use macro_pins::Macro;
use std::alloc::{AllocError, Global};
use verilog_tree::build::{assign, name, net, unary};
use verilog_tree::{BodyItem, Module, Name, TreeFault, UnOp, check, fits};

/// The block of the registers, if there are any.
fn push_block(items: &mut Vec<BodyItem>, alloc: Global, macro_: &Macro) -> Result<(), AllocError>
    requires before { macro_.now.before ≤ 3 }
    requires after { macro_.now.after ≤ 3 }
    ensures { OnOk result (map plain_item items.new.items ≡ map plain_item items.old.items ++ I.block_of (I.all_sets (pins_of macro_.now))) }
{
    let mut block = Vec::new(alloc);
    set_commands(&mut block, alloc, 0, macro_.before)?;
    set_words(&mut block, &macro_.rdata, 0, macro_.after)?;
    if !block.is_empty() {
        items.push(BodyItem::Always(name("clk"), block))?;
    }
    Ok(())
}

/// A name that has what another has.
fn join(items: &mut Vec<BodyItem>, target: Name, from: Name) -> Result<(), AllocError>
    ensures { OnOk result (map plain_item items.new.items ≡ map plain_item items.old.items ++ AssignItem target.bytes (Net from.bytes) ∷ []) }
{
    assign(items, target, net(from))
}

/// What the chip and the self-test are given.
fn push_words(items: &mut Vec<BodyItem>, macro_: &Macro) -> Result<(), AllocError>
    requires after { macro_.now.after ≤ 3 }
    ensures { OnOk result (map plain_item items.new.items ≡ map plain_item items.old.items
        ++ AssignItem macro_.now.rdata.bytes (Net (I.at_pin macro_.now.rdata.bytes))
        ∷ AssignItem (codes "bist_rdata") (Net (I.rdata_at macro_.now.rdata.bytes macro_.now.after)) ∷ []) }
{
    join(items, of_pin(&macro_.rdata), at_pin(&macro_.rdata))?;
    let word = rdata_at(&macro_.rdata, macro_.after);
    join(items, name("bist_rdata"), word)
}

/// These, and the block of the registers.
fn push_ends(items: &mut Vec<BodyItem>, alloc: Global, macro_: &Macro) -> Result<(), AllocError>
    requires before { macro_.now.before ≤ 3 }
    requires after { macro_.now.after ≤ 3 }
    ensures { OnOk result (map plain_item items.new.items ≡ map plain_item items.old.items ++ I.ends (pins_of macro_.now)) }
{
    push_words(items, macro_)?;
    push_block(items, alloc, macro_)
}

/// The reset of the self-test.
fn push_reset(items: &mut Vec<BodyItem>, alloc: Global) -> Result<(), AllocError>
    ensures { OnOk result (map plain_item items.new.items ≡ map plain_item items.old.items
        ++ AssignItem (codes "bist_reset") (Prefixed Not (Net I.test)) ∷ []) }
{
    let held = unary(alloc, UnOp::Not, net(name("test")))?;
    assign(items, name("bist_reset"), held)
}

/// An assignment of each pin of a macro.
fn push_pins(
    items: &mut Vec<BodyItem>,
    alloc: Global,
    macro_: &Macro,
    address: u8,
) -> Result<(), AllocError>
    requires before { macro_.now.before ≤ 3 }
    requires drivable { All (λ p. IsDrivable address (plain_pin p)) macro_.now.pins.items }
    ensures { OnOk result (map plain_item items.new.items ≡ map plain_item items.old.items
        ++ I.pin_assigns (has_enable (map plain_pin macro_.now.pins.items)) macro_.now.before address (map plain_pin macro_.now.pins.items)) }
{
    let pins = macro_.pins.as_slice();
    let enabled = has_enable(pins);
    assign_pins(items, alloc, pins, enabled, macro_.before, address)
}

/// The reset, and the pins.
fn push_drives(
    items: &mut Vec<BodyItem>,
    alloc: Global,
    macro_: &Macro,
    address: u8,
) -> Result<(), AllocError>
    requires before { macro_.now.before ≤ 3 }
    requires drivable { All (λ p. IsDrivable address (plain_pin p)) macro_.now.pins.items }
    ensures { OnOk result (map plain_item items.new.items ≡ map plain_item items.old.items ++ I.drives (pins_of macro_.now) address) }
{
    push_reset(items, alloc)?;
    push_pins(items, alloc, macro_, address)
}

fn items(alloc: Global, macro_: &Macro, bits: u8, address: u8) -> Result<Vec<BodyItem>, AllocError>
    requires before { macro_.now.before ≤ 3 }
    requires after { macro_.now.after ≤ 3 }
    requires drivable { All (λ p. IsDrivable address (plain_pin p)) macro_.now.pins.items }
    ensures { IfOk result (λ v. map plain_item v.items ≡ I.items (pins_of macro_.now) bits address) }
{
    let mut items = Vec::new(alloc);
    declare_commands(&mut items, bits, address, 0, macro_.before)?;
    declare_words(&mut items, &macro_.rdata, bits, 0, macro_.after)?;
    push_drives(&mut items, alloc, macro_, address)?;
    push_ends(&mut items, alloc, macro_)?;
    Ok(items)
}

/// The interface of a macro, for words and addresses of so many bits.
pub fn interface(
    alloc: Global,
    name: Name,
    macro_: &Macro,
    bits: u8,
    address: u8,
) -> Result<Module, AllocError>
    requires before { macro_.now.before ≤ 3 }
    requires after { macro_.now.after ≤ 3 }
    requires drivable { All (λ p. IsDrivable address (plain_pin p)) macro_.now.pins.items }
    ensures { IfOk result (λ m. plain_module m ≡ I.interface name.bytes (pins_of macro_.now) bits address) }
{
    let ports = ports(alloc, macro_, bits, address)?;
    let items = items(alloc, macro_, bits, address)?;
    Ok(Module { name, ports, items })
}

/// Why there is no interface.
#[derive(Drop)]
pub enum InterfaceFault {
    NoMemory,
    /// Its names or its nesting can't be written.
    Unwritable,
    /// It breaks a rule: a pin has the name of a net that the interface needs, or of another pin.
    Broken(TreeFault),
}

/// The interface of a macro, where it can be written and breaks no rule.
pub fn legal_interface(
    alloc: Global,
    name: Name,
    macro_: &Macro,
    bits: u8,
    address: u8,
) -> Result<Module, InterfaceFault>
    requires before { macro_.now.before ≤ 3 }
    requires after { macro_.now.after ≤ 3 }
    requires drivable { All (λ p. IsDrivable address (plain_pin p)) macro_.now.pins.items }
    ensures layout { IfOk result (λ m. plain_module m ≡ I.interface name.bytes (pins_of macro_.now) bits address) }
    ensures writable { IfOk result (λ m. fits (plain_module m) ≡ true) }
    ensures legal { IfOk result (λ m. first_break (plain_module m) ≡ None) }
    ensures refused { IfErr result (λ fault. IsRefused fault (I.interface name.bytes (pins_of macro_.now) bits address)) }
{
    let Ok(module) = interface(alloc, name, macro_, bits, address) else {
        return Err(InterfaceFault::NoMemory);
    };
    if !fits(&module) {
        return Err(InterfaceFault::Unwritable);
    }
    match check(alloc, &module) {
        Ok(()) => Ok(module),
        Err(TreeFault::NoMemory) => Err(InterfaceFault::NoMemory),
        Err(fault) => Err(InterfaceFault::Broken(fault)),
    }
}
