//! Arrays of two cells that pass a march with one instance of a primitive, and the least of them.
//!
//! ```
//! use escape_array::least;
//! use fault_syntax::read_prim;
//! use march_syntax::read_march;
//!
//! let march = read_march(b"{any(w0);up(r0,w1);down(r1,w0)}")?;
//! assert!(rt; least(&march, &read_prim(b"<0w1/0/->")?).is_none());
//! assert!(rt; least(&march, &read_prim(b"<1w0/1/->")?).is_some());
//! ```
//!
//! It never speaks of other sizes.
#![tactic(auto)]

mod escape;
mod search;

pub use escape::{EscapeArray, replays};
pub use search::least;
