//! The text of a march: how a text is read to a march, and a march printed as a text.
//!
//! ```
//! use march_syntax::{print_march, read_march};
//!
//! let march = read_march(b"{ any (w0) ; up (r0, w1) }")?;
//! let text = print_march(rt.alloc(), &march)?;
//! assert!(rt; text.as_slice() == b"{any(w0);up(r0,w1)}".as_slice());
//! ```
//!
//! It never judges.
#![tactic(auto)]

mod place;
mod print;
mod read;

pub use print::print_march;
pub use read::read_march;
