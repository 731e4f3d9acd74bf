//! Verdicts on primitives whose aggressor and victim are two bits of one word, for the whole test of a memory, and their report.
//!
//! A write of a word writes all its bits at once, which can hide what such an instance does; and two bits hold different data only in a
//! background that tells them apart. So the verdict is another one than for cells in two words. What a primitive asks of a bit that its act
//! doesn't fall on is asked in two readings, before a write of the word and behind it: what is covered is so in both. In `specs/`: when a
//! test catches an instance in a word, the least two bits that pass, what the report of a list says, and two bits of a word as a machine.
//! Only `report_in_word` takes memory.
//!
//! ```
//! use fault_syntax::read_prim;
//! use march_syntax::read_march;
//! use memory_desc::read_memory;
//! use word_coupling::judge_in_word;
//!
//! let march = read_march(b"{any(w0);up(r0,w1);up(r1,w0);down(r0,w1);down(r1,w0);any(r0)}")?;
//! let memory = read_memory(b"memory 1\nname four\nwords 4\nbits 2\n")?;
//! assert!(rt; judge_in_word(&march, &memory, &read_prim(b"<0;0/1/->")?).is_none());
//! assert!(rt; judge_in_word(&march, &memory, &read_prim(b"<0w1;0/1/->")?).is_some());
//! ```
//!
//! It never sees addresses.
#![tactic(auto)]

mod couple;
mod ends;
mod judged;
mod judging;
mod laws;
mod reading;
mod report;

pub use judging::{FoundEscape, WordEscape, judge_in_word};
pub use laws::{
    digits_are_of_places, escape_in_word_passes, in_word_answers_wrong, in_word_report_is_one,
    planted_in_word_fails, readings_are_alike,
};
pub use reading::{Reading, Readings};
pub use report::{InWordReport, report_in_word};
