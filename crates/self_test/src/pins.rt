//! Where the ports of a self-test stand among a module's ports, which may be in any order.

ghost use Rattle.std.specs.Prelude.{◌≡◌, map};
ghost use Rattle.verilog_tree.specs.Plain.{plain_port};
ghost use Rattle.verilog_tree.specs.Names.{number};
ghost use Rattle.self_test.specs.Pins.{output_names, reset_leads, ArePins};

use crate::naming::is_input;
use verilog_tree::Port;

/// The places of the outputs among the outputs, and the order of the two inputs besides the clock.
#[derive(Clone, Copy)]
pub struct Pins {
    /// Whether `reset` stands before `rdata`.
    pub reset_first: bool,
    pub en: usize,
    pub we: usize,
    pub addr: usize,
    pub wdata: usize,
    pub done: usize,
    pub fail: usize,
}

/// How many outputs stand before the one of this name.
fn output_place(ports: &[Port], name: &str) -> usize
    ensures { result ≡ number (output_names (map plain_port ports.now)) name.now }
{
    let mut place = 0;
    for port in ports {
        if is_input(port.dir) {
            continue;
        }
        if name == port.name.as_str() {
            return place;
        }
        place += 1;
    }
    place
}

/// Whether `reset` is the first input besides the clock.
fn does_reset_lead(ports: &[Port]) -> bool
    ensures { result ≡ reset_leads (map plain_port ports.now) }
{
    for port in ports {
        if is_input(port.dir) && port.name.as_str() != "clk" {
            return port.name.as_str() == "reset";
        }
    }
    false
}

/// The places in these ports.
pub fn pins_of(ports: &[Port]) -> Pins
    ensures { ArePins (map plain_port ports.now) result }
{
    Pins {
        reset_first: does_reset_lead(ports),
        en: output_place(ports, "en"),
        we: output_place(ports, "we"),
        addr: output_place(ports, "addr"),
        wdata: output_place(ports, "wdata"),
        done: output_place(ports, "done"),
        fail: output_place(ports, "fail"),
    }
}
