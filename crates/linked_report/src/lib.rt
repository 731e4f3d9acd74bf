//! The report of a march on the linked faults of the static primitives, as text.
//!
//! ```
//! use linked_report::report_links;
//! use march_syntax::read_march;
//!
//! let march = read_march(b"{any(w0);up(r0,w1);down(r1,w0)}")?;
//! let reported = report_links(rt.alloc(), &march)?;
//! assert!(rt; reported.escapes);
//! ```
//!
//! It never decides by itself what is covered.
#![tactic(auto)]

mod devices;
mod judged;
mod kinds;
mod lines;
mod one_text;
mod write;

pub use judged::JudgedLink;
pub use one_text::{linked_report_is_one, places_are_named};
pub use write::{LinkedReport, report_links};
