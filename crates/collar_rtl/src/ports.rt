//! The ports of the interface.
ghost use Rattle.std.specs.Prelude.{◌≡◌, ◌++◌, ◌∷◌, [], IfOk, OnOk, map};
ghost use Rattle.verilog_tree.specs.declared.tree.Dir.TheVariants.{Output};
ghost use Rattle.verilog_tree.specs.Plain.{plain_port};
ghost use Rattle.macro_pins.specs.Pins.{plain_pin, pins_of};
ghost use Rattle.collar_rtl.specs.Interface as I;

use crate::names::{addr_at, at_pin, en_at, of_pin, wdata_at, we_at};
use macro_pins::{Macro, Pin, PinKind};
use std::alloc::{AllocError, Global};
use verilog_tree::build::{name, port};
use verilog_tree::{Dir, Name, Port};

fn named(dir: Dir, name: Name, width: u8) -> Port
    ensures { plain_port result ≡ I.port dir name.bytes width }
{
    Port { dir, name, width }
}

/// The functional port of a pin, unless it is tied, and the port at the macro.
fn push_pin(ports: &mut Vec<Port>, pin: &Pin) -> Result<(), AllocError>
    ensures { OnOk result (map plain_port ports.new.items ≡ map plain_port ports.old.items ++ (I.functional_port pin.now.kind (plain_pin pin.now)
        ++ I.port Output (I.at_pin pin.now.name.bytes) pin.now.width ∷ [])) }
{
    match pin.kind {
        PinKind::Tie => {}
        _ => ports.push(named(Dir::Input, of_pin(&pin.name), pin.width))?,
    }
    ports.push(named(Dir::Output, at_pin(&pin.name), pin.width))?;
    Ok(())
}

fn push_pins(ports: &mut Vec<Port>, pins: &[Pin]) -> Result<(), AllocError>
    ensures { OnOk result (map plain_port ports.new.items ≡ map plain_port ports.old.items ++ I.pin_ports (map plain_pin pins.now)) }
{
    match pins {
        [] => Ok(()),
        [first, rest @ ..] => {
            push_pin(ports, first)?;
            push_pins(ports, rest)
        }
    }
}

/// The ports in their order.
pub fn ports(alloc: Global, macro_: &Macro, bits: u8, address: u8) -> Result<Vec<Port>, AllocError>
    ensures { IfOk result (λ v. map plain_port v.items ≡ I.ports (pins_of macro_.now) bits address) }
{
    let begin = [
        port(Dir::Input, "clk", 1),
        port(Dir::Input, "test", 1),
        named(Dir::Input, en_at(0), 1),
        named(Dir::Input, we_at(0), 1),
        named(Dir::Input, addr_at(0), address),
        named(Dir::Input, wdata_at(0), bits),
        port(Dir::Output, "bist_rdata", bits),
        port(Dir::Output, "bist_reset", 1),
    ];
    let mut ports = Vec::from_array(alloc, begin)?;
    push_pins(&mut ports, &macro_.pins)?;
    ports.extend_from_slice(&[
        named(Dir::Input, at_pin(&macro_.rdata), bits),
        named(Dir::Output, of_pin(&macro_.rdata), bits),
    ])?;
    Ok(ports)
}
