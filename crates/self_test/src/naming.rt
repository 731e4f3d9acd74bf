ghost use Rattle.std.specs.Prelude.{◌≡◌, ◌↔◌, ℕ, List, [], map, Some, None};
ghost use Rattle.std.specs.Option.{option_map};
ghost use Rattle.std.specs.Str.{bytes_eq};
ghost use Rattle.verilog_tree.specs.Plain.{plain_port};
ghost use Rattle.self_test.specs.Ports.{ports};
ghost use Rattle.self_test.specs.WrongPort.{is_input, same_direction, same_port, has_port, has_name, missing, further, wrong_port, ArePorts, IsWrongPort};

use memory_desc::Memory;
use verilog_tree::build::port;
use verilog_tree::{Dir, Name, Port};

// The ports that a module for this memory has.
fn expected(memory: &Memory) -> [Port; 9]
    ensures { map plain_port result ≡ ports memory.now }
{
    let bits = memory.bits();
    [
        port(Dir::Input, "clk", 1),
        port(Dir::Input, "reset", 1),
        port(Dir::Input, "rdata", bits),
        port(Dir::Output, "en", 1),
        port(Dir::Output, "we", 1),
        port(Dir::Output, "addr", memory.address_bits()),
        port(Dir::Output, "wdata", bits),
        port(Dir::Output, "done", 1),
        port(Dir::Output, "fail", 1),
    ]
}

pub fn is_input(dir: Dir) -> bool
    ensures { result ≡ is_input dir }
{
    match dir {
        Dir::Input => true,
        Dir::Output | Dir::OutputReg => false,
    }
}

fn same_direction(one: Dir, other: Dir) -> bool
    ensures { result ≡ same_direction one other }
{
    if is_input(one) {
        is_input(other)
    } else {
        !is_input(other)
    }
}

fn same_name(one: &Name, other: &Name) -> bool
    ensures { result ≡ bytes_eq one.now.bytes other.now.bytes }
{
    one.as_str() == other.as_str()
}

fn same_port(one: &Port, other: &Port) -> bool
    ensures { result ≡ same_port (plain_port one.now) (plain_port other.now) }
{
    same_name(&one.name, &other.name)
        && same_direction(one.dir, other.dir)
        && one.width == other.width
}

fn has_port(ports: &[Port], port: &Port) -> bool
    ensures { result ≡ has_port (plain_port port.now) (map plain_port ports.now) }
{
    for other in ports {
        if same_port(port, other) {
            return true;
        }
    }
    false
}

fn has_name(ports: &[Port], name: &Name) -> bool
    ensures { result ≡ has_name name.now.bytes (map plain_port ports.now) }
{
    for other in ports {
        if same_name(name, &other.name) {
            return true;
        }
    }
    false
}

// The first port of the list that isn't among these.
fn missing(list: &[Port], ports: &[Port]) -> Option<Name>
    ensures { option_map (λ n. n.bytes) result ≡ missing (map plain_port list.now) (map plain_port ports.now) }
{
    for port in list {
        if !has_port(ports, port) {
            return Some(port.name);
        }
    }
    None
}

// The first of these that is too many.
fn further(list: &[Port], ports: &[Port]) -> Option<Name>
    ensures { option_map (λ n. n.bytes) result ≡ further (map plain_port list.now) [] (map plain_port ports.now) }
{
    for i in 0..ports.len() {
        let port = ports[i];
        if !has_port(list, &port) || has_name(&ports[..i], &port.name) {
            return Some(port.name);
        }
    }
    None
}

fn named(ports: &[Port], memory: &Memory) -> Option<Name>
    ensures { option_map (λ n. n.bytes) result ≡ wrong_port memory.now (map plain_port ports.now) }
{
    let list = expected(memory);
    match missing(&list, ports) {
        Some(name) => Some(name),
        None => further(&list, ports),
    }
}

/// The name of the port by which a module's ports are not those of a self-test module of this memory, in any order.
///
/// It is the first port of the list that is missing, goes another way or has another width; else the first that
/// is further. An output may be a register.
pub fn wrong_port(ports: &[Port], memory: &Memory) -> Option<Name>
    ensures name { option_map (λ n. n.bytes) result ≡ wrong_port memory.now (map plain_port ports.now) }
    ensures told { (name : List ℕ) → (option_map (λ n. n.bytes) result ≡ Some name)
        ↔ IsWrongPort memory.now (map plain_port ports.now) name }
    ensures none { (result ≡ None) ↔ ArePorts memory.now (map plain_port ports.now) }
{
    named(ports, memory)
}
