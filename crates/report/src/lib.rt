//! The verdicts on a list of static and dynamic primitives, and their report as text.
//!
//! ```
//! use dynamic_core::read_items;
//! use march_syntax::read_march;
//! use report::{count_covered, judge_items};
//! use report_lines::total_text;
//!
//! let march = read_march(b"{any(w0);up(r0,w1);down(r1,w0)}")?;
//! let judged = judge_items(rt.alloc(), &march, &read_items(rt.alloc(), b"TF\n")?)?;
//! let total = total_text(rt.alloc(), judged.len(), count_covered(&judged))?;
//! assert!(rt; total.as_slice() == b"total 2 covered 1 escapes 1\n".as_slice());
//! ```
//!
//! It never decides by itself what is covered.
#![tactic(auto)]

mod class_lines;
mod judged;
mod judged_lines;
mod laws;
mod one_text;
mod same;
mod total;
mod verdicts;
mod write;

pub use judged::{JudgedItem, judge_items};
pub use laws::classes_in_order;
pub use one_text::report_is_one;
pub use total::count_covered;
pub use verdicts::write_report;
pub use write::{write_judged, write_mixed};
