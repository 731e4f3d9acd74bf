//! Whether the names of a top differ.
ghost use Rattle.std.specs.Prelude.{◌≡◌, ◌||◌, map};
ghost use Rattle.verilog_tree.specs.Plain.{plain_item, plain_port};
ghost use Rattle.collar_top.specs.Links.{item_name, in_ports, in_items, items_differ, all_differ};

use verilog_tree::{BodyItem, Name, Port};

fn item_name(item: &BodyItem) -> &Name
    ensures { result.now.bytes ≡ item_name (plain_item item.now) }
{
    match item {
        BodyItem::Wire(declared) => &declared.name,
        BodyItem::Reg(declared) => &declared.name,
        BodyItem::Assign(name, _x) => name,
        BodyItem::Always(clock, _body) => clock,
    }
}

fn in_ports(name: &Name, ports: &[Port]) -> bool
    ensures { result ≡ in_ports name.now.bytes (map plain_port ports.now) }
{
    match ports {
        [] => false,
        [first, rest @ ..] => name.as_str() == first.name.as_str() || in_ports(name, rest),
    }
}

fn in_items(name: &Name, items: &[BodyItem]) -> bool
    ensures { result ≡ in_items name.now.bytes (map plain_item items.now) }
{
    match items {
        [] => false,
        [first, rest @ ..] => name.as_str() == item_name(first).as_str() || in_items(name, rest),
    }
}

fn items_differ(items: &[BodyItem]) -> bool
    ensures { result ≡ items_differ (map plain_item items.now) }
{
    match items {
        [] => true,
        [first, rest @ ..] => !in_items(item_name(first), rest) && items_differ(rest),
    }
}

fn is_there(name: &Name, ports: &[Port], items: &[BodyItem]) -> bool
    ensures { result ≡ (in_ports name.now.bytes (map plain_port ports.now) || in_items name.now.bytes (map plain_item items.now)) }
{
    in_ports(name, ports) || in_items(name, items)
}

/// Whether no two of these ports and items have one name.
pub fn all_differ(ports: &[Port], items: &[BodyItem]) -> bool
    ensures { result ≡ all_differ (map plain_port ports.now) (map plain_item items.now) }
{
    match ports {
        [] => items_differ(items),
        [first, rest @ ..] => !is_there(&first.name, rest, items) && all_differ(rest, items),
    }
}
