//! Tops, with a line for each placed module.
ghost use Rattle.std.specs.Prelude.{◌≡◌, ◌++◌, OnOk, IfOk, map, true};
ghost use Rattle.chip_rtl.specs.TopSeen.{plain_link, plain_placed, plain_top};
ghost use Rattle.chip_rtl.specs.PrintedTop.{link_text, links_text, placed_text, placed_texts, printed_top};
ghost use Rattle.chip_rtl.specs.TopFits.{TopFits};
ghost use Rattle.chip_rtl.specs.PrintedLaws.{EndsChips};

use crate::{Placed, PortLink, Top};
use bist_bits::NoMemory;
use bist_text::{put, put_between};
use std::alloc::Global;
use verilog_emit::{put_items, put_line, put_name_line, put_ports, put_separator};

fn put_link(out: &mut Vec<u8>, link: &PortLink) -> Result<(), NoMemory>
    ensures { OnOk result (out.new.items ≡ out.old.items ++ link_text (plain_link link.now)) }
{
    put_between(out, b".", link.port.as_str().as_bytes(), b"(")?;
    put_between(out, b"", link.net.as_str().as_bytes(), b")")
}

fn put_links(out: &mut Vec<u8>, links: &[PortLink]) -> Result<(), NoMemory>
    ensures { OnOk result (out.new.items ≡ out.old.items ++ links_text true (map plain_link links.now)) }
{
    let mut first = true;
    for link in links {
        put_separator(out, first)?;
        put_link(out, link)?;
        first = false;
    }
    Ok(())
}

fn put_placed(out: &mut Vec<u8>, placed: &Placed) -> Result<(), NoMemory>
    ensures { OnOk result (out.new.items ≡ out.old.items ++ placed_text (plain_placed placed.now)) }
{
    put_between(out, b"  ", placed.module.as_str().as_bytes(), b" ")?;
    put_between(out, b"", placed.name.as_str().as_bytes(), b"(")?;
    put_links(out, &placed.links)?;
    put(out, b");\n")
}

/// Appends the placed modules, a line each.
fn put_all_placed(out: &mut Vec<u8>, all: &[Placed]) -> Result<(), NoMemory>
    ensures { OnOk result (out.new.items ≡ out.old.items ++ placed_texts (map plain_placed all.now)) }
{
    for placed in all {
        put_placed(out, placed)?;
    }
    Ok(())
}

/// Appends a top.
fn put_top(out: &mut Vec<u8>, top: &Top) -> Result<(), NoMemory>
    requires { TopFits (plain_top top.now) }
    ensures { OnOk result (out.new.items ≡ out.old.items ++ printed_top (plain_top top.now)) }
{
    put_name_line(out, 0, b"module ", &top.name, b"(")?;
    put_ports(out, &top.ports)?;
    put_line(out, 0, b");")?;
    put_items(out, &top.items)?;
    put_all_placed(out, &top.placed)?;
    put_line(out, 0, b"endmodule")
}

/// The text of a top that fits: behind the texts of any modules that fit it makes the text of their chip.
///
/// Want of memory is its only refusal.
pub fn emit_top(alloc: Global, top: &Top) -> Result<Vec<u8>, NoMemory>
    requires { TopFits (plain_top top.now) }
    ensures form { IfOk result (λ out. out.items ≡ printed_top (plain_top top.now)) }
    ensures ends_chips { IfOk result (λ out. EndsChips out.items (plain_top top.now)) }
{
    let mut out = Vec::new(alloc);
    put_top(&mut out, top)?;
    Ok(out)
}
