//! The pins of a memory macro: what each of them is to the port of the memory.
//!
//! What they say in a cycle stands in `specs/Asked.antt`.
//!
//! It never knows a memory's size, nor Verilog.
#![tactic(auto)]

mod laws;
mod pins;

pub use laws::{pins_ask_one, pins_decode};
pub use pins::{Macro, Output, Pin, PinKind, PinName};
