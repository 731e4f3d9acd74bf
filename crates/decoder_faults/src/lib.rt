//! Verdicts on faults of the address decoder, for arrays of every size.
//!
//! ```
//! use decoder_faults::{DecoderFault, WiredRead, least_decoder_escape};
//! use march_syntax::read_march;
//!
//! let march = read_march(b"{any(w0);up(r0,w1);down(r1,w0)}")?;
//! assert!(rt; least_decoder_escape(&march, DecoderFault::OtherCell).is_none());
//! let march = read_march(b"{any(w0);any(r0,w1);any(r1)}")?;
//! assert!(rt; least_decoder_escape(&march, DecoderFault::BothCells(WiredRead::And)).is_some());
//! ```
//!
//! It never speaks of faults of the cells.
#![tactic(auto)]

mod escape;
mod fault;
mod laws;
mod pair;

pub use escape::{DecoderEscape, least_decoder_escape};
pub use fault::{DecoderFault, WiredRead};
pub use laws::{decoder_faults_are_of_books, stuck_lines_are_all, taken_cells_are_as_none};
