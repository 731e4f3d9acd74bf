//! Names of the interface.
ghost use Rattle.std.specs.Prelude.{◌≡◌, ◌≤◌, length};
ghost use Rattle.collar_rtl.specs.Interface as I;

use arrayvec::ArrayString;
use macro_pins::PinName;
use verilog_tree::Name;
use verilog_tree::build::name;

/// The name of a pin, as a net.
pub fn of_pin(pin: &PinName) -> Name
    ensures { result.bytes ≡ pin.now.bytes }
{
    name(pin.as_str())
}

/// The net at a pin of the macro.
pub fn at_pin(pin: &PinName) -> Name
    ensures { result.bytes ≡ I.at_pin pin.now.bytes }
{
    let mut net = ArrayString::new();
    net.push_str("m_");
    net.push_str(pin.as_str());
    net
}

/// A register, by the number of registers up to it.
fn staged(word: &str, stage: u8) -> Name
    requires short { length word.now ≤ 16 }
    requires few { stage ≤ 3 }
    ensures { result.bytes ≡ I.staged word.now stage }
{
    let mut register = name(word);
    register.push((b'0' + stage) as char);
    register
}

/// The enable behind so many registers.
pub fn en_at(stage: u8) -> Name
    requires { stage ≤ 3 }
    ensures { result.bytes ≡ I.en_at stage }
{
    if stage == 0 {
        name("bist_en")
    } else {
        staged("en_", stage)
    }
}

/// Whether the command writes, behind so many registers.
pub fn we_at(stage: u8) -> Name
    requires { stage ≤ 3 }
    ensures { result.bytes ≡ I.we_at stage }
{
    if stage == 0 {
        name("bist_we")
    } else {
        staged("we_", stage)
    }
}

/// The address behind so many registers.
pub fn addr_at(stage: u8) -> Name
    requires { stage ≤ 3 }
    ensures { result.bytes ≡ I.addr_at stage }
{
    if stage == 0 {
        name("bist_addr")
    } else {
        staged("addr_", stage)
    }
}

/// The word to write behind so many registers.
pub fn wdata_at(stage: u8) -> Name
    requires { stage ≤ 3 }
    ensures { result.bytes ≡ I.wdata_at stage }
{
    if stage == 0 {
        name("bist_wdata")
    } else {
        staged("wdata_", stage)
    }
}

/// The word of the macro behind so many registers.
pub fn rdata_at(pin: &PinName, stage: u8) -> Name
    requires { stage ≤ 3 }
    ensures { result.bytes ≡ I.rdata_at pin.now.bytes stage }
{
    if stage == 0 {
        at_pin(pin)
    } else {
        staged("rdata_", stage)
    }
}
