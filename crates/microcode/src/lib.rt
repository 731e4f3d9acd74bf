//! The microcode of a march, and places in it.
//!
//! ```
//! use march_syntax::read_march;
//! use microcode::{assemble, decode};
//!
//! let code = assemble(&read_march(b"{any(w0);up(r0,w1);down(r1,w0)}")?);
//! assert!(rt; code.len() == 5 && decode(9) == code.first().copied());
//! ```
//!
//! It never sees a memory.
#![tactic(auto)]

mod assembly;
mod bytes;
mod code;
mod place;
mod stepper;

pub use assembly::assemble;
pub use bytes::{decode, encode};
pub use code::{Instr, Program};
pub use place::{CodePlace, Extent, FIRST, instr_at, place_behind};
pub use stepper::Stepper;
