//! The lines that reports share: the march, the memory, the total, and the parts of an escape's line.
//!
//! ```
//! use fault_syntax::read_prim;
//! use report_lines::{total_text, write_content, write_places, write_prim};
//!
//! let mut line = Vec::new(rt.alloc());
//! write_prim(&mut line, b"escape ", &read_prim(b"<0w1;0/1/->")?)?;
//! write_places(&mut line, Some(1), 0)?;
//! write_content(&mut line, &[false, true])?;
//! assert!(rt; line.as_slice() == b"escape <0w1;0/1/-> CFds aggressor 1 victim 0 content 01".as_slice());
//! assert!(rt; total_text(rt.alloc(), 2, 1)?.as_slice() == b"total 2 covered 1 escapes 1\n".as_slice());
//! ```
//!
//! It never judges: a caller tells what is covered.
#![tactic(auto)]

mod header;
mod passing;
mod total;

pub use header::{write_march, write_memory};
pub use passing::{write_content, write_passing, write_places, write_prim};
pub use total::{total_text, write_total};
