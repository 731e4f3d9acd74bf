//! What a self-test module is: its name, its ports, and what each of its histories shows at them (`specs/SelfTest`).
//!
//! ```
//! use memory_desc::read_memory;
//! use self_test::wrong_port;
//!
//! let memory = read_memory(b"memory 1\nname two\nwords 2\nbits 1\n")?;
//! let missing = wrong_port(&[], &memory);
//! assert!(rt; matches!(missing, Some(name) if name.as_str() == "clk"));
//! ```
//!
//! It never builds a module.
#![tactic(auto)]

mod module_name;
mod naming;
mod pins;
mod running;

pub use module_name::module_of;
pub use naming::wrong_port;
pub use pins::{Pins, pins_of};
pub use running::{RunFault, refusal, too_long};
