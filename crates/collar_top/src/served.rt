//! Which macros are served: their pins are those of a port, and can be driven.
ghost use Rattle.std.specs.Prelude.{◌≡◌, ◌≤◌, ◌&&◌, ◌||◌, All, map, true};
ghost use Rattle.bist_bits.specs.Vector.{IsVector};
ghost use Rattle.macro_pins.specs.declared.pins.PinKind.TheVariants.{Address};
ghost use Rattle.macro_pins.specs.Pins.{plain_pin, pins_of, has_enable, IsDrivable};
ghost use Rattle.macro_pins.specs.Ports.{has, is_address, is_data, is_read_alone, is_write_alone, is_way, IsPort};

use bist_bits::Bits;
use macro_pins::{Macro, Pin, PinKind};

/// Whether a pin enables commands of both ways.
fn has_enable(pins: &[Pin]) -> bool
    ensures { result ≡ has_enable (map plain_pin pins.now) }
{
    match pins {
        [] => false,
        [first, rest @ ..] => match first.kind {
            PinKind::Enable => true,
            _ => has_enable(rest),
        },
    }
}

/// Whether there is an address.
fn has_address(pins: &[Pin]) -> bool
    ensures { result ≡ has is_address (map plain_pin pins.now) }
{
    match pins {
        [] => false,
        [first, rest @ ..] => match first.kind {
            PinKind::Address => true,
            _ => has_address(rest),
        },
    }
}

/// Whether there is a word to write.
fn has_data(pins: &[Pin]) -> bool
    ensures { result ≡ has is_data (map plain_pin pins.now) }
{
    match pins {
        [] => false,
        [first, rest @ ..] => match first.kind {
            PinKind::Data => true,
            _ => has_data(rest),
        },
    }
}

/// Whether a pin is on in reads alone.
fn has_read_alone(pins: &[Pin]) -> bool
    ensures { result ≡ has is_read_alone (map plain_pin pins.now) }
{
    match pins {
        [] => false,
        [first, rest @ ..] => match first.kind {
            PinKind::ReadAlone => true,
            _ => has_read_alone(rest),
        },
    }
}

/// Whether a pin is on in writes alone.
fn has_write_alone(pins: &[Pin]) -> bool
    ensures { result ≡ has is_write_alone (map plain_pin pins.now) }
{
    match pins {
        [] => false,
        [first, rest @ ..] => match first.kind {
            PinKind::WriteAlone => true,
            _ => has_write_alone(rest),
        },
    }
}

/// Whether a pin tells a write.
fn has_way(pins: &[Pin]) -> bool
    ensures { result ≡ has is_way (map plain_pin pins.now) }
{
    match pins {
        [] => false,
        [first, rest @ ..] => match first.kind {
            PinKind::Write | PinKind::WriteAlone => true,
            _ => has_way(rest),
        },
    }
}

/// Whether an address of so many bits has room at a pin, if that is an address.
fn has_room(pin: &Pin, address: u8) -> bool
    ensures yes { result ≡ true → pin.now.kind ≡ Address → address ≤ pin.now.width }
    ensures no { (pin.now.kind ≡ Address → address ≤ pin.now.width) → result ≡ true }
{
    match pin.kind {
        PinKind::Address => address <= pin.width,
        _ => true,
    }
}

/// Whether the value of a pin is one of its width.
fn has_value(pin: &Pin) -> bool
    ensures yes { result ≡ true → IsVector pin.now.width pin.now.value }
    ensures no { IsVector pin.now.width pin.now.value → result ≡ true }
{
    Bits::try_new(pin.width, pin.value).is_some()
}

#[tactic(auto, using(crate::proofs::Serving::drivable, crate::proofs::Serving::has_room, crate::proofs::Serving::has_value))]
fn is_drivable(pin: &Pin, address: u8) -> bool
    ensures yes { result ≡ true → IsDrivable address (plain_pin pin.now) }
    ensures no { IsDrivable address (plain_pin pin.now) → result ≡ true }
{
    has_room(pin, address) && has_value(pin)
}

/// Whether each pin can be driven, with addresses of so many bits.
#[tactic(auto, using(crate::proofs::Serving::no_pins, crate::proofs::Serving::more_pins, crate::proofs::Serving::first_pin, crate::proofs::Serving::rest_pins))]
pub fn are_drivable(pins: &[Pin], address: u8) -> bool
    ensures yes { result ≡ true → All (λ p. IsDrivable address (plain_pin p)) pins.now }
    ensures no { All (λ p. IsDrivable address (plain_pin p)) pins.now → result ≡ true }
{
    match pins {
        [] => true,
        [first, rest @ ..] => is_drivable(first, address) && are_drivable(rest, address),
    }
}

/// Whether a command is told from none: by an enable, or by a pin of each way.
fn tells_commands(pins: &[Pin]) -> bool
    ensures { result ≡ (has_enable (map plain_pin pins.now) || (has is_read_alone (map plain_pin pins.now)
        && has is_write_alone (map plain_pin pins.now))) }
{
    has_enable(pins) || (has_read_alone(pins) && has_write_alone(pins))
}

/// Whether pins that can be driven are those of a port.
pub fn is_port(macro_: &Macro, address: u8) -> bool
    requires { All (λ p. IsDrivable address (plain_pin p)) macro_.now.pins.items }
    ensures yes { result ≡ true → IsPort (pins_of macro_.now) }
    ensures no { IsPort (pins_of macro_.now) → result ≡ true }
{
    let pins = macro_.pins.as_slice();
    if !has_address(pins) {
        return false;
    }
    if !has_data(pins) {
        return false;
    }
    if !has_way(pins) {
        return false;
    }
    tells_commands(pins)
}
