//! The verdicts on the faults of the address decoder, and their report as text.
//!
//! ```
//! use decoder_report::report_decoder;
//! use march_syntax::read_march;
//!
//! let report = report_decoder(rt.alloc(), &read_march(b"{any(w0);up(r0,w1);down(r1,w0)}")?)?;
//! assert!(rt; report.covered == 6);
//! assert!(rt; report.bytes.as_slice().ends_with(b"covered both own\ntotal 6 covered 6 escapes 0\n"));
//! ```
//!
//! It never decides by itself what is covered, and speaks of no fault of the cells.
#![tactic(auto)]

mod judged;
mod lines;
mod one_text;
mod write;

pub use one_text::decoder_report_is_one;
pub use write::{DecoderReport, report_decoder};
