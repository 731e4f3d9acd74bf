//! What every command shares: the words of the command line, why a command is refused and the line that says so,
//! and how a decided command ends, with its files written, its line said and its status.
//!
//! ```
//! use bist_endings::{Effects, conclude};
//! use bist_host::MemHost;
//!
//! let line = b"conforms 43\n".to_vec(rt.alloc())?;
//! let plan = Effects { found: false, outputs: Vec::new(rt.alloc()), line };
//! let mut host = MemHost::new(rt.alloc());
//! let ended = conclude(rt.alloc(), &["check"], &mut host, Ok(plan));
//! assert!(rt; ended.status == 0 && host.said() == b"conforms 43\n".as_slice());
//! ```
//!
//! It never reads a file.
#![tactic(auto)]

mod chip_lines;
mod concluding;
mod ending;
mod lines;
mod memory_lines;
mod verilog_lines;
mod words;

pub use concluding::conclude;
pub use ending::{
    ChipRefusal, DeviceRefusal, Effects, Ended, InputRefusal, Misfit, Output, Refusal,
    VerilogRefusal,
};
pub use lines::{numbered, put_number};
pub use words::{are_plain, number_of};
