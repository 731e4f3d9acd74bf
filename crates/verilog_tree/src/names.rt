//! What the names of a module are.
ghost use Rattle.std.specs.Prelude.{◌≡◌, ℕ, [], ◌∷◌, ◌++◌, map, OnOk, IfOk};
ghost use Rattle.std.specs.Option.{option_map};
ghost use Rattle.std.specs.Str.{bytes_eq};
ghost use Rattle.verilog_tree.specs.Plain.{plain_item, plain_module};
ghost use Rattle.verilog_tree.specs.Names.{kind_of, lookup, item_declarations, declarations, width_of, is_clk};
ghost use Rattle.verilog_tree.specs.Seen.{declaration};
ghost use Rattle.verilog_tree.specs.inner.Seen.{declares};

use crate::tree::{BodyItem, Dir, Module, Name, Port};
use bist_bits::NoMemory;
use std::alloc::Global;

/// What may give a name its value: the module's user, an `assign`, or an `always` block.
#[derive(Clone, Copy, PartialEq, Eq)]
pub enum Kind {
    Input,
    /// Also a plain output.
    Wire,
    /// Also an output that is a register.
    Register,
}

/// A declared name.
#[derive(Clone, Copy)]
pub struct Declared {
    pub name: Name,
    pub kind: Kind,
    pub width: u8,
}

pub(crate) fn is_clk(name: &Name) -> bool
    ensures { result ≡ is_clk name.now.bytes }
{
    name.as_str() == "clk"
}

pub(crate) fn declared_port(port: &Port) -> Declared
    ensures { declaration result ≡ record { name = port.now.name.bytes; kind = kind_of port.now.dir; width = port.now.width } }
{
    Declared {
        name: port.name,
        kind: match port.dir {
            Dir::Input => Kind::Input,
            Dir::Output => Kind::Wire,
            Dir::OutputReg => Kind::Register,
        },
        width: port.width,
    }
}

pub(crate) fn declared_item(item: &BodyItem) -> Option<Declared>
    ensures { declares (option_map declaration result) ≡ item_declarations (plain_item item.now ∷ []) }
{
    match item {
        BodyItem::Wire(wire) => Some(Declared {
            name: wire.name,
            kind: Kind::Wire,
            width: wire.width,
        }),
        BodyItem::Reg(register) => Some(Declared {
            name: register.name,
            kind: Kind::Register,
            width: register.width,
        }),
        BodyItem::Assign(_, _) | BodyItem::Always(_, _) => None,
    }
}

fn push(all: &mut Vec<Declared>, next: Declared) -> Result<(), NoMemory>
    ensures { OnOk result (map declaration all.new.items ≡ map declaration all.old.items ++ declaration next ∷ []) }
{
    match all.push(next) {
        Ok(()) => Ok(()),
        Err(_) => Err(NoMemory),
    }
}

fn push_items(all: &mut Vec<Declared>, items: &[BodyItem]) -> Result<(), NoMemory>
    ensures { OnOk result (map declaration all.new.items ≡ map declaration all.old.items ++ item_declarations (map plain_item items.now)) }
{
    for item in items {
        if let Some(declared) = declared_item(item) {
            push(all, declared)?;
        }
    }
    Ok(())
}

/// What a module declares, in the order of its ports and then its items.
pub fn all_declared(alloc: Global, module: &Module) -> Result<Vec<Declared>, NoMemory>
    ensures { IfOk result (λ all. map declaration all.items
        ≡ declarations (plain_module «module».now).ports (plain_module «module».now).items) }
{
    let mut all = Vec::new(alloc);
    for port in &module.ports {
        push(&mut all, declared_port(port))?;
    }
    push_items(&mut all, &module.items)?;
    Ok(all)
}
