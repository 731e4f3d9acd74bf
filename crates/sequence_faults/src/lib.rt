//! Verdicts on fault primitives of one to three cells that a sequence of one to sixteen operations on one of them
//! sensitizes, for arrays of every size.
//!
//! ```
//! use fault_core::Act;
//! use march_syntax::read_march;
//! use sequence_faults::{SeqPrim, least_sequence_escape};
//!
//! // <0;0w1r1r1;0/1/->: a write and two reads of the second aggressor flip the victim.
//! let acts = [Act::Write(true), Act::Read, Act::Read];
//! let prim = SeqPrim::new(&[false, false, false], 1, &acts, true, None)?;
//! let march = read_march(b"{any(w0);up(r0,w1);down(r1,w0);any(r0)}")?;
//! assert!(rt; least_sequence_escape(rt.alloc(), &march, &prim).is_some());
//! ```
//!
//! It never prints, and it reads no text.
#![tactic(auto)]

mod agreeing;
mod escape;
mod few;
mod primitive;
mod search;
mod stepping;

pub use agreeing::agrees;
pub use escape::{SeqEscape, least_sequence_escape};
pub use primitive::SeqPrim;
