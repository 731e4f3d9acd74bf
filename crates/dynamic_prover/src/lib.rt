//! Verdicts on dynamic fault primitives, for arrays of every size.
//!
//! ```
//! use dynamic_core::{DynPrim, DynSense};
//! use dynamic_prover::{DynVerdict, judge_dyn};
//! use fault_core::Act;
//! use march_syntax::read_march;
//!
//! let acts = Some([Act::Write(true), Act::Read]);
//! let prim = DynPrim::new(None, DynSense { state: false, acts }, false, Some(false))?;
//! let march = read_march(b"{any(w0);any(w1,r1)}")?;
//! assert!(rt; matches!(judge_dyn(&march, &prim), DynVerdict::Covered));
//! ```
//!
//! It never prints.
#![tactic(auto)]

mod escape;
mod judging;
mod leg;
mod op_table;
mod own_cells;
mod search;
mod shape;
mod spot;

pub use escape::{DynEscape, DynVerdict};
pub use judging::judge_dyn;
