//! The operations of a march on the words of a memory, and the commands at its port.
//!
//! In `specs/`: the lists of operations and commands, the cycles in which the commands stand, and the rule that the ports
//! of a self-test follow in each cycle. No call of this crate takes memory.
//!
//! ```
//! use march_syntax::read_march;
//! use memory_desc::read_memory;
//! use word_march::{PortOp, cycle_count, port_ops};
//!
//! let march = read_march(b"{any(w1);down(r1)}")?;
//! let memory = read_memory(b"memory 1\nname four\nwords 4\nbits 1\n")?;
//! let first = port_ops(&march, &memory).next();
//! assert!(rt; first == Some(PortOp { write: true, addr: 0, word: 1 }));
//! assert!(rt; cycle_count(&march, &memory) == 11);
//! ```
//!
//! It never sees registers.
#![tactic(auto)]

mod counts;
mod iterators;
mod laws;
mod operations;
mod place;

pub use counts::{cycle_count, length, span};
pub use iterators::{PortOps, WordOps, port_ops, word_ops};
pub use laws::{examples, port_rule, unbroken};
pub use operations::{PortOp, WordOp};
