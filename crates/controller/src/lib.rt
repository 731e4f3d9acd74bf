//! The controller of the self-test, and that its run is the commands of the march, whatever words return.
//!
//! ```
//! use controller::Control;
//! use march_syntax::read_march;
//! use memory_desc::read_memory;
//! use microcode::assemble;
//!
//! let code = assemble(&read_march(b"{any(w0)}")?);
//! let memory = read_memory(b"memory 1\nname two\nwords 2\nbits 1\n")?;
//! let mut control = Control::reset(&code, &memory);
//! assert!(rt; control.outputs().en);
//! control.step(0);
//! assert!(rt; control.outputs().addr == 1);
//! ```
//!
//! It never sees Verilog.
#![tactic(auto)]

mod control;
mod laws;
mod place;
mod stage;

pub use control::{Control, Ports};
pub use laws::{controlled, start, successor};
