//! Memory descriptions: what a self-test has to know of a memory.
//!
//! ```
//! use memory_desc::{Field, MemoryFault, read_memory};
//!
//! let memory = read_memory(b"memory 1\nname buffer\nwords 16\nbits 1\n")?;
//! assert!(rt; memory.words() == 16 && memory.address_bits() == 4 && memory.latency() == 1);
//! let refused = read_memory(b"memory 1\nname buffer\nbits 1\n");
//! assert!(rt; matches!(refused, Err(MemoryFault::Missing { field: Field::Words })));
//! ```
//!
//! It never judges a march.
#![tactic(auto)]

mod building;
mod content;
mod fault;
mod line_reader;
mod lines;
mod memory;
mod print;
mod read;
mod row_numbers;
mod row_reader;
mod search;
mod values;
mod word_reader;

pub use fault::{Field, MemoryFault};
pub use memory::Memory;
pub use print::print_memory;
pub use read::{name_from, read_memory};
pub use search::is_name_outside;
