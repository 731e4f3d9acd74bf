//! A chip: the self-test modules of several memories under one top, which tests them group by group.
//!
//! What a chip means stands in `specs/Together.antt`, what its test is in `ChipTest.antt`, and what its text is in
//! `ChipGrammar.antt`. `generate_top` makes the top of a plan, and `emit_top` prints it behind the printed modules;
//! `specs/PrintedTop.antt` is the layout.
//!
//! ```
//! use chip_rtl::{emit_top, generate_top};
//! use memory_desc::read_memory;
//!
//! let memory = read_memory(b"memory 1\nname two\nwords 2\nbits 1\n")?;
//! let top = generate_top(rt.alloc(), "soc", &[0], &[memory])?;
//! let text = emit_top(rt.alloc(), &top)?;
//! assert!(rt; text.starts_with(b"module soc(\n"));
//! ```
//!
//! It never reads a file.
#![tactic(auto)]

mod emit;
mod expressions;
mod file;
mod generate;
mod items;
pub mod laws;
mod names;
mod placing;
mod ports;
mod top;

pub use emit::emit_top;
pub use file::append_top;
pub use generate::generate_top;
pub use top::{Placed, PortLink, Top};
