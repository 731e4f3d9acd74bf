//! The host of a run: files by name, and the bytes that are said. `MemHost` holds both in memory, `FailHost` is one
//! whose listed calls fail, and `RealHost` has real files and standard output.
//!
//! ```
//! use bist_host::{Host, MemHost};
//!
//! let mut host = MemHost::new(rt.alloc());
//! host.put("a", b"first")?;
//! host.write_file("a", b"again")?;
//! host.say(b"done\n")?;
//! assert!(rt; host.get("a") == Some(b"again".as_slice()));
//! ```
//!
//! It never knows what the files mean.
#![tactic(auto)]

mod fail_host;
mod host;
mod mem_host;
mod real_host;

pub use fail_host::FailHost;
pub use host::{Host, HostFault};
pub use mem_host::MemHost;
pub use real_host::RealHost;
