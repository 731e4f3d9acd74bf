//! The interface of a collar: the module between a self-test, the functional port and the pins of a macro.
//!
//! `specs/Interface.antt` is the layout.
//!
//! It never knows a memory, and places no module.
#![tactic(auto)]

mod driving;
mod laws;
mod names;
mod ports;
mod stages;
mod whole;

pub use laws::{collar_shows_the_macro, interface_settles};
pub use names::at_pin;
pub use whole::{InterfaceFault, interface, legal_interface};
