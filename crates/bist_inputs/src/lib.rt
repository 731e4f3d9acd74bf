//! What the input files and texts of a command give: the bytes of a named file, its march, its list of items, its memory or its
//! module, or the refusal of the first check that does not pass.
//!
//! ```
//! use bist_host::MemHost;
//! use bist_inputs::read_march_input;
//!
//! let mut host = MemHost::new(rt.alloc());
//! host.put("c.m", b"{any(w0)}")?;
//! let march = read_march_input(&mut host, &["judge", "c.m"], 1);
//! assert!(rt; matches!(march, Ok(march) if march.len() == 1));
//! ```
//!
//! It never writes.
#![tactic(auto)]

mod chips;
mod designs;
mod inputs;
mod memories;
mod texts;

pub use chips::{read_chip_input, read_unit_march, read_unit_memory};
pub use designs::read_design_input;
pub use inputs::read_march_input;
pub use memories::read_memory_input;
pub use texts::{give_prim, read_list_input};
