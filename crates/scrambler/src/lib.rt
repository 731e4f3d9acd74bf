//! Address scrambling: the logical address of a physical index is an invertible matrix times the index,
//! plus a constant, over the two elements 0 and 1.
//!
//! Bit `i` of the logical address is the exclusive or of the constant of row `i` and the index bits that
//! row `i` names. A matrix comes in as rows; `invert` answers the scrambling, which knows its way back, or
//! the rows that depend on one another. No call of this crate takes memory.
//!
//! ```
//! use scrambler::{Matrix, invert};
//!
//! let mut rows = [0; 16];
//! rows[0] = 0b11;
//! rows[1] = 0b10;
//! let scramble = invert(&Matrix { width: 2, rows, constant: 0b01 })?;
//! assert!(rt; scramble.logical_of(0) == 1 && scramble.physical_of(1) == 0);
//! ```
//!
//! It never reads text.
#![tactic(auto)]

mod elimination;
mod linear;
mod matrix;
mod scramble;

pub use matrix::{Dependence, Matrix};
pub use scramble::{Scramble, invert};
