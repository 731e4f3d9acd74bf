//! Which tops of collars can be written: their names are legal, and none stands for two things.
ghost use Rattle.std.specs.Prelude.{◌≡◌, map};
ghost use Rattle.chip_rtl.specs.TopSeen.{plain_link, plain_placed};
ghost use Rattle.chip_rtl.specs.TopFits.{has_link, links_fit, placed_fit};
ghost use Rattle.collar_top.specs.Links.{one_fits, is_linked, once, all_once};

use chip_rtl::{Placed, PortLink};
use verilog_tree::{Name, is_name};

/// Whether the names of the links are legal.
fn links_fit(links: &[PortLink]) -> bool
    ensures { result ≡ links_fit (map plain_link links.now) }
{
    match links {
        [] => true,
        [first, rest @ ..] => is_name(&first.port) && is_name(&first.net) && links_fit(rest),
    }
}

fn has_link(links: &[PortLink]) -> bool
    ensures { result ≡ has_link (map plain_link links.now) }
{
    match links {
        [] => false,
        [_first, ..] => true,
    }
}

fn one_fits(placed: &Placed) -> bool
    ensures { result ≡ one_fits (plain_placed placed.now) }
{
    is_name(&placed.module)
        && is_name(&placed.name)
        && has_link(&placed.links)
        && links_fit(&placed.links)
}

/// Whether the names of the placed modules and of their links are.
pub fn placed_fit(placed: &[Placed]) -> bool
    ensures { result ≡ placed_fit (map plain_placed placed.now) }
{
    match placed {
        [] => true,
        [first, rest @ ..] => one_fits(first) && placed_fit(rest),
    }
}

/// Whether this port is linked.
fn is_linked(port: &Name, links: &[PortLink]) -> bool
    ensures { result ≡ is_linked port.now.bytes (map plain_link links.now) }
{
    match links {
        [] => false,
        [first, rest @ ..] => port.as_str() == first.port.as_str() || is_linked(port, rest),
    }
}

/// Whether no port is linked twice.
fn once(links: &[PortLink]) -> bool
    ensures { result ≡ once (map plain_link links.now) }
{
    match links {
        [] => true,
        [first, rest @ ..] => !is_linked(&first.port, rest) && once(rest),
    }
}

/// Whether no port of a placed module is.
pub fn all_once(placed: &[Placed]) -> bool
    ensures { result ≡ all_once (map plain_placed placed.now) }
{
    match placed {
        [] => true,
        [first, rest @ ..] => once(&first.links) && all_once(rest),
    }
}
