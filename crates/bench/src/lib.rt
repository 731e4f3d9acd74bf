//! A design of a module against a boxed memory, cycle by cycle: whether it ends with `fail`, when it is done, and the first read that is
//! answered wrong. The module may be any with the ports of a self-test; the box may be any that is fitted.
//!
//! ```
//! use bench::{BenchEnd, BenchRefused, bench};
//! use march_syntax::read_march;
//! use memory_desc::read_memory;
//! use rtl_gen::generate;
//! use verilog_cycle::elaborate;
//! use word_device::{ArrayDevice, Device, shape_of};
//!
//! let march = read_march(b"{any(w0);any(r0)}")?;
//! let memory = read_memory(b"memory 1\nname two\nwords 2\nbits 1\n")?;
//! let mut device: Box<dyn Device> = Box::new(rt.alloc(), ArrayDevice::new(rt.alloc(), 2))?;
//! device.fit(&shape_of(&memory))?;
//! let module = generate(rt.alloc(), &march, &memory)?;
//! let mut design = elaborate(rt.alloc(), module).map_err(|_| Fail::new("no design"))?;
//! match bench(&mut design, &march, &memory, device) {
//!     Ok(BenchEnd { fail, done_cycle, first: _, device: _ }) => assert!(rt; !fail && done_cycle == Some(6)),
//!     Err(BenchRefused { fault: _, device: _ }) => return Err(Fail::new("refused")),
//! }
//! ```
//!
//! It never makes a module or a box.
#![tactic(auto)]

mod cycle;
mod ending;
pub mod laws;
mod run;

pub use ending::{BenchEnd, BenchRefused, Seen};
pub use run::bench;
pub use self_test::RunFault as BenchFault;
