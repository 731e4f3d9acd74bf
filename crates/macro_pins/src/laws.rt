//! The laws of pins.
ghost use Rattle.macro_pins.specs.Going.{PortDecodes};
ghost use Rattle.macro_pins.specs.Ports.{AskOne};

/// The pins of a port ask for one thing.
pub fn pins_ask_one()
    ensures { AskOne }
{}

/// What the pins of a port ask for can be told from their values.
pub fn pins_decode()
    ensures { PortDecodes }
{}
