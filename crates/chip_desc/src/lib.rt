//! Chip files: which memories are tested on one chip, each by which march, and within which budget.
//!
//! ```
//! use chip_desc::read_chip;
//!
//! let chip = read_chip(b"chip 1\nname soc\nbudget 5\nunit 3 c.m buffer.mem\n")?;
//! assert!(rt; chip.name() == "soc" && chip.budget() == 5 && chip.units().len() == 1);
//! ```
//!
//! It never opens the files that it names, and takes no memory.
#![tactic(auto)]

mod chip;
mod content;
mod fault;
mod line_reader;
mod lines;
mod read;
mod search;
mod units;

pub use chip::{ChipDesc, ChipUnit};
pub use fault::{ChipFault, ChipField};
pub use read::read_chip;
