//! The text of a collar: the interface, and behind it the top.
ghost use Rattle.std.specs.Prelude.{◌≡◌, ◌≢◌, ◌++◌, ◌≤◌, IfOk, IfErr, All, map, true, None};
ghost use Rattle.verilog_tree.specs.Plain.{plain_item, plain_module, plain_port};
ghost use Rattle.verilog_tree.specs.Fits.{fits};
ghost use Rattle.verilog_tree.specs.Rules.{first_break};
ghost use Rattle.verilog_emit.specs.Printed.{printed};
ghost use Rattle.chip_rtl.specs.TopSeen.{plain_placed, plain_top};
ghost use Rattle.chip_rtl.specs.TopFits.{TopFits};
ghost use Rattle.chip_rtl.specs.PrintedTop.{printed_top};
ghost use Rattle.macro_pins.specs.Pins.{pins_of, plain_pin, IsDrivable};
ghost use Rattle.macro_pins.specs.Ports.{IsPort};
ghost use Rattle.collar_rtl.specs.Interface as I;
ghost use Rattle.collar_top.specs.CollarTops as C;
ghost use Rattle.collar_top.specs.Links.{all_differ, all_once};
ghost use Rattle.collar_top.specs.CollarText.{EndsCollar};
ghost use Rattle.collar_top.specs.Refused.{HasInterface, HasTop, HasCollar};

use crate::fitting::{all_once, placed_fit};
use crate::naming::all_differ;
use crate::served::{are_drivable, is_port};
use crate::top::{named, placed, ports, wires};
use bist_bits::NoMemory;
use bist_text::put;
use chip_rtl::{Placed, Top, emit_top};
use collar_rtl::{InterfaceFault, legal_interface};
use macro_pins::Macro;
use memory_desc::Memory;
use std::alloc::{AllocError, Global};
use verilog_emit::emit;
use verilog_tree::{Module, fits};

/// Why there is no collar.
#[derive(Drop)]
pub enum CollarFault {
    NoMemory,
    /// The pins aren't those of a port, or the collar can't be written or breaks a rule.
    Refused,
}

/// What a missing interface is to a collar.
fn told(fault: InterfaceFault) -> CollarFault
    ensures { result ≡ CollarFault.Refused → fault ≢ InterfaceFault.NoMemory }
{
    match fault {
        InterfaceFault::NoMemory => CollarFault::NoMemory,
        InterfaceFault::Unwritable | InterfaceFault::Broken(_) => CollarFault::Refused,
    }
}

/// The interface of a macro with this memory, where it keeps all rules.
fn interface_of(alloc: Global, macro_: &Macro, memory: &Memory) -> Result<Module, CollarFault>
    requires before { macro_.now.before ≤ 3 }
    requires after { macro_.now.after ≤ 3 }
    requires drivable { All (λ p. IsDrivable memory.now.scramble.width (plain_pin p)) macro_.now.pins.items }
    ensures layout { IfOk result (λ m. plain_module m ≡ I.interface (C.interface_name memory.now.name) (pins_of macro_.now) memory.now.bits memory.now.scramble.width) }
    ensures writable { IfOk result (λ m. fits (plain_module m) ≡ true) }
    ensures legal { IfOk result (λ m. first_break (plain_module m) ≡ None) }
    ensures refused { IfErr result (λ fault. fault ≡ CollarFault.Refused → HasInterface macro_.now memory.now → ⊥) }
{
    match legal_interface(
        alloc,
        named(memory, "_interface"),
        macro_,
        memory.bits(),
        memory.address_bits(),
    ) {
        Ok(module) => Ok(module),
        Err(fault) => Err(told(fault)),
    }
}

/// The ports and wires of the top, as a module.
fn frame(alloc: Global, macro_: &Macro, memory: &Memory) -> Result<Module, AllocError>
    ensures { IfOk result (λ m. plain_module m ≡ C.frame_of (C.placing_of macro_.now) memory.now) }
{
    let ports = ports(alloc, macro_, memory)?;
    let items = wires(alloc, macro_, memory)?;
    Ok(Module {
        name: named(memory, "_collar"),
        ports,
        items,
    })
}

/// A top of this frame.
fn top_with(frame: Module, placed: Vec<Placed>) -> Top
    ensures { plain_top result ≡ C.top_with (plain_module frame) (map plain_placed placed.items) }
{
    let Module { name, ports, items } = frame;
    Top {
        name,
        ports,
        items,
        placed,
    }
}

/// Whether no two ports and wires of a frame have one name.
fn do_names_differ(frame: &Module) -> bool
    ensures { result ≡ all_differ (map plain_port frame.now.ports.items) (map plain_item frame.now.items.items) }
{
    all_differ(&frame.ports, &frame.items)
}

/// The top that places the interface, the self-test and the macro, where it can be written and links no port twice.
pub fn legal_top(alloc: Global, macro_: &Macro, memory: &Memory) -> Result<Top, CollarFault>
    ensures layout { IfOk result (λ t. plain_top t ≡ C.collar_top_of (C.placing_of macro_.now) memory.now) }
    ensures writable { IfOk result (λ t. TopFits (plain_top t)) }
    ensures named { IfOk result (λ t. all_differ (C.top_ports (C.placing_of macro_.now) memory.now.bits)
        (C.top_wires (pins_of macro_.now) memory.now.bits memory.now.scramble.width) ≡ true) }
    ensures linked { IfOk result (λ t. all_once (C.placed_three (C.placing_of macro_.now) memory.now) ≡ true) }
    ensures has { IfOk result (λ t. HasTop macro_.now memory.now) }
    ensures refused { IfErr result (λ fault. fault ≡ CollarFault.Refused → HasTop macro_.now memory.now → ⊥) }
{
    let Ok(frame) = frame(alloc, macro_, memory) else {
        return Err(CollarFault::NoMemory);
    };
    if !fits(&frame) {
        return Err(CollarFault::Refused);
    }
    if !do_names_differ(&frame) {
        return Err(CollarFault::Refused);
    }
    let Ok(placed) = placed(alloc, macro_, memory) else {
        return Err(CollarFault::NoMemory);
    };
    if !placed_fit(&placed) || !all_once(&placed) {
        return Err(CollarFault::Refused);
    }
    Ok(top_with(frame, placed))
}

fn text_of(alloc: Global, module: &Module, top: &Top) -> Result<Vec<u8>, NoMemory>
    requires module { fits (plain_module «module».now) ≡ true }
    requires top { TopFits (plain_top top.now) }
    ensures { IfOk result (λ out. out.items ≡ printed (plain_module «module».now) ++ printed_top (plain_top top.now)) }
{
    let mut text = emit(alloc, module)?;
    let behind = emit_top(alloc, top)?;
    put(&mut text, &behind)?;
    Ok(text)
}

/// The text of the collar of a macro that is served.
fn served_text(alloc: Global, macro_: &Macro, memory: &Memory) -> Result<Vec<u8>, CollarFault>
    requires before { macro_.now.before ≤ 3 }
    requires after { macro_.now.after ≤ 3 }
    requires drivable { All (λ p. IsDrivable memory.now.scramble.width (plain_pin p)) macro_.now.pins.items }
    ensures ends { IfOk result (λ out. EndsCollar out.items
        (I.interface (C.interface_name memory.now.name) (pins_of macro_.now) memory.now.bits memory.now.scramble.width)
        (C.collar_top_of (C.placing_of macro_.now) memory.now)) }
    ensures legal { IfOk result (λ out. C.IsLegal (C.placing_of macro_.now) memory.now) }
    ensures interface { IfOk result (λ out. HasInterface macro_.now memory.now) }
    ensures top { IfOk result (λ out. HasTop macro_.now memory.now) }
    ensures refused { IfErr result (λ fault. fault ≡ CollarFault.Refused → HasInterface macro_.now memory.now → HasTop macro_.now memory.now → ⊥) }
{
    let module = interface_of(alloc, macro_, memory)?;
    let top = legal_top(alloc, macro_, memory)?;
    match text_of(alloc, &module, &top) {
        Ok(text) => Ok(text),
        Err(_) => Err(CollarFault::NoMemory),
    }
}

/// The text of the collar of a macro with this memory.
///
/// It is refused exactly where there is none: where the pins aren't those of a port or can't be driven, where more than three registers stand on a way, where the interface
/// breaks a rule, and where a name can't be written or stands for two things. Want of memory may come instead of either.
pub fn collar_text(alloc: Global, macro_: &Macro, memory: &Memory) -> Result<Vec<u8>, CollarFault>
    ensures ends { IfOk result (λ out. EndsCollar out.items
        (I.interface (C.interface_name memory.now.name) (pins_of macro_.now) memory.now.bits memory.now.scramble.width)
        (C.collar_top_of (C.placing_of macro_.now) memory.now)) }
    ensures legal { IfOk result (λ out. C.IsLegal (C.placing_of macro_.now) memory.now) }
    ensures before { IfOk result (λ out. macro_.now.before ≤ 3) }
    ensures after { IfOk result (λ out. macro_.now.after ≤ 3) }
    ensures port { IfOk result (λ out. IsPort (pins_of macro_.now)) }
    ensures has { IfOk result (λ out. HasCollar macro_.now memory.now) }
    ensures refused { IfErr result (λ fault. fault ≡ CollarFault.Refused → HasCollar macro_.now memory.now → ⊥) }
{
    if macro_.before > 3 || macro_.after > 3 {
        return Err(CollarFault::Refused);
    }
    let address = memory.address_bits();
    if !are_drivable(&macro_.pins, address) {
        return Err(CollarFault::Refused);
    }
    if !is_port(macro_, address) {
        return Err(CollarFault::Refused);
    }
    served_text(alloc, macro_, memory)
}
