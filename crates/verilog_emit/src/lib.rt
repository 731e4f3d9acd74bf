//! The printer of modules in a subset of Verilog, IEEE 1364-2005. `specs/Printed.antt` is the layout, and
//! `specs/Written.antt` says of bytes which module they are a text of.
//!
//! ```
//! use verilog_emit::emit;
//! use verilog_read::read_module;
//!
//! let module = read_module(rt.alloc(), b"module m(input a,output y);assign y=(!a);endmodule")?;
//! let text = emit(rt.alloc(), &module)?;
//! assert!(rt; text.starts_with(b"module m(\n  input a,\n  output y\n);\n"));
//! ```
//!
//! It never reads text.
#![tactic(auto)]

ghost use Rattle.std.specs.Prelude.{◌≡◌, ◌++◌, codes, map, true, OnOk, IfOk};
ghost use Rattle.verilog_tree.specs.Fits.{fits, items_fit};
ghost use Rattle.verilog_tree.specs.Plain.{ModuleTree, plain_module, plain_item, plain_port};
ghost use Rattle.verilog_tree.specs.Spells.{Spells};
ghost use Rattle.verilog_emit.specs.Printed.{line, items_text, ports_text, printed};
ghost use Rattle.verilog_emit.specs.Written.{IsTextOf};

use bist_bits::NoMemory;
use std::alloc::Global;
use verilog_tree::Module;

mod expressions;
mod items;
mod laws;
mod statements;
mod writing;

pub use items::{put_items, put_ports};
pub use laws::texts_are_of_one_module;
pub use writing::{put_line, put_name_line, put_separator};

/// Appends a module.
fn put_module(out: &mut Vec<u8>, module: &Module) -> Result<(), NoMemory>
    requires { fits (plain_module «module».now) ≡ true }
    ensures { OnOk result (out.new.items ≡ out.old.items ++ printed (plain_module «module».now)) }
{
    put_name_line(out, 0, b"module ", &module.name, b"(")?;
    put_ports(out, &module.ports)?;
    put_line(out, 0, b");")?;
    put_items(out, &module.items)?;
    put_line(out, 0, b"endmodule")
}

/// The text of a module that fits: the bytes are its layout, they spell it and no other, and are the text of it and of no other.
pub fn emit(alloc: Global, module: &Module) -> Result<Vec<u8>, NoMemory>
    requires { fits (plain_module «module».now) ≡ true }
    ensures form { IfOk result (λ out. out.items ≡ printed (plain_module «module».now)) }
    ensures spells { IfOk result (λ out. Spells out.items (plain_module «module».now)) }
    ensures no_other { IfOk result (λ out. (other : ModuleTree) → Spells out.items other → other ≡ plain_module «module».now) }
    ensures text { IfOk result (λ out. IsTextOf out.items (plain_module «module».now)) }
    ensures one_text { IfOk result (λ out. (other : ModuleTree) → IsTextOf out.items other → other ≡ plain_module «module».now) }
{
    let mut out = Vec::new(alloc);
    put_module(&mut out, module)?;
    Ok(out)
}
