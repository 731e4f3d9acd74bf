//! Verdicts on primitives, for arrays of every size.
//!
//! ```
//! use coverage::{Verdict, judge};
//! use fault_syntax::read_prim;
//! use march_syntax::read_march;
//!
//! let march = read_march(b"{any(w0);up(r0,w1);down(r1,w0)}")?;
//! assert!(rt; matches!(judge(&march, &read_prim(b"<0w1/0/->")?), Verdict::Covered));
//! assert!(rt; matches!(judge(&march, &read_prim(b"<1w0/1/->")?), Verdict::Escape(_)));
//! ```
//!
//! It never prints.
#![tactic(auto)]

mod judging;
mod verdict;

pub use judging::{judge, judge_all};
pub use verdict::Verdict;
