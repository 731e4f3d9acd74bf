//! The program's top call: the words of the command line, the files that they name, and how it ends.
//!
//! ```
//! use bist_app::run;
//! use bist_host::MemHost;
//!
//! let mut host = MemHost::new(rt.alloc());
//! host.put("c.m", b"{any(w0);any(r0)}")?;
//! host.put("list", b"SF\n")?;
//! let ended = run(rt.alloc(), &["judge", "c.m", "list", "out"], &mut host, &mut Vec::new(rt.alloc()));
//! assert!(rt; ended.status == 1 && host.said() == b"total 2 covered 1 escapes 1\n".as_slice());
//! ```
//!
//! It never reaches a file but through its host.
#![tactic(auto)]

mod bench_command;
mod benchall_command;
mod benchfault_command;
mod benchfile_command;
mod benching;
mod benching_all;
mod boxes;
mod check_command;
mod chip;
mod commands;
mod compile;
mod decoder_command;
mod directions;
mod forms;
mod inword_command;
mod judge;
pub mod laws;
mod linked_command;
mod make;
mod parts;
mod reporting;
mod shared;
mod show_command;
mod shown_texts;
mod sim;
mod top;
mod units;
mod vectors;

pub use bist_endings::Ended;
pub use top::run;
