//! Ports and items.
ghost use Rattle.std.specs.Prelude.{◌≡◌, ℕ, ◌+◌, ◌++◌, OnOk, map, true};
ghost use Rattle.verilog_tree.specs.Fits.{item_fits, items_fit};
ghost use Rattle.verilog_tree.specs.Plain.{plain_stmts, plain_item, plain_port, AlwaysItem};
ghost use Rattle.verilog_emit.specs.Printed.{margin, line, range_text, direction_text, port_text, comma, ports_text, item_text, items_text};

use crate::statements::{put_assigned, put_stmts};
use crate::writing::{put_line, put_name_line, put_range};
use bist_bits::NoMemory;
use bist_text::{put, put_between};
use verilog_tree::{BodyItem, Dir, Name, Port, Stmt};

/// The words of a port, behind the blanks before its line.
fn port_words(dir: Dir) -> &'static [u8]
    ensures { result.now ≡ margin 1 ++ direction_text dir }
{
    match dir {
        Dir::Input => b"  input ",
        Dir::Output => b"  output ",
        Dir::OutputReg => b"  output reg ",
    }
}

/// Appends the line of a declaration or a port, behind its words.
fn put_declared(
    out: &mut Vec<u8>,
    words: &[u8],
    width: u8,
    name: &Name,
    behind: &[u8],
) -> Result<(), NoMemory>
    ensures { OnOk result (out.new.items ≡ out.old.items ++ (words.now ++ range_text width ++ name.now.bytes ++ behind.now)) }
{
    put(out, words)?;
    put_range(out, width)?;
    put_between(out, b"", name.as_str().as_bytes(), behind)
}

fn put_port_line(out: &mut Vec<u8>, port: &Port, last: bool) -> Result<(), NoMemory>
    ensures { OnOk result (out.new.items ≡ out.old.items ++ line 1 (port_text (plain_port port.now) ++ comma last)) }
{
    let behind: &[u8] = if last { b"\n" } else { b",\n" };
    put_declared(out, port_words(port.dir), port.width, &port.name, behind)
}

/// Appends the ports, a line each.
pub fn put_ports(out: &mut Vec<u8>, ports: &[Port]) -> Result<(), NoMemory>
    ensures { OnOk result (out.new.items ≡ out.old.items ++ ports_text (map plain_port ports.now)) }
{
    let mut left = ports;
    while let Some((port, behind)) = left.split_first() {
        put_port_line(out, port, behind.is_empty())?;
        left = behind;
    }
    Ok(())
}

#[tactic(auto, using(crate::proofs::Bodies::block_shallow))]
fn put_always(out: &mut Vec<u8>, clock: &Name, body: &[Stmt]) -> Result<(), NoMemory>
    requires { item_fits 64 (AlwaysItem clock.now.bytes (plain_stmts body.now)) ≡ true }
    ensures { OnOk result (out.new.items ≡ out.old.items ++ item_text (AlwaysItem clock.now.bytes (plain_stmts body.now))) }
{
    put_name_line(out, 1, b"always @(posedge ", clock, b") begin")?;
    put_stmts(out, 2, body)?;
    put_line(out, 1, b"end")
}

fn put_item(out: &mut Vec<u8>, item: &BodyItem) -> Result<(), NoMemory>
    requires { item_fits 64 (plain_item item.now) ≡ true }
    ensures { OnOk result (out.new.items ≡ out.old.items ++ item_text (plain_item item.now)) }
{
    match item {
        BodyItem::Wire(declared) => put_declared(
            out,
            b"  wire ",
            declared.width,
            &declared.name,
            b";\n",
        ),
        BodyItem::Reg(declared) => put_declared(
            out,
            b"  reg ",
            declared.width,
            &declared.name,
            b";\n",
        ),
        BodyItem::Assign(name, x) => put_assigned(out, 1, b"assign ", name, b" = ", x),
        BodyItem::Always(clock, body) => put_always(out, clock, body),
    }
}

/// Appends the items.
pub fn put_items(out: &mut Vec<u8>, items: &[BodyItem]) -> Result<(), NoMemory>
    requires { items_fit 64 (map plain_item items.now) ≡ true }
    ensures { OnOk result (out.new.items ≡ out.old.items ++ items_text (map plain_item items.now)) }
{
    for item in items {
        put_item(out, item)?;
    }
    Ok(())
}
