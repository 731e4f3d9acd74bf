//! The generator: the self-test module of a march and a memory.
//!
//! What a march and a memory say goes into a plan of plain numbers and tables (`planning`), whose module
//! `rtl_layout` writes. In every history of that module its registers show the controller of the march, and
//! the ports answer for it (`proofs/Mirror`, `proofs/Runs`).
//!
//! ```
//! use march_syntax::read_march;
//! use memory_desc::read_memory;
//! use rtl_gen::generate;
//!
//! let march = read_march(b"{any(w0);any(r0)}")?;
//! let memory = read_memory(b"memory 1\nname two\nwords 2\nbits 1\n")?;
//! let module = generate(rt.alloc(), &march, &memory)?;
//! assert!(rt; module.name.as_str() == "two_bist" && module.ports.len() == 9);
//! ```
//!
//! It never prints.
#![tactic(auto)]

mod generation;
mod planning;
mod tables;

pub use generation::generate;
