//! Large inputs that a number makes: a march, a memory and a list of fault primitives, each within every limit, and their texts.
//!
//! ```
//! use made_inputs::{march_of, march_text};
//! use march_syntax::read_march;
//!
//! let march = march_of(7);
//! let text = march_text(rt.alloc(), &march)?;
//! assert!(rt; read_march(&text)?.total_ops() == march.total_ops());
//! ```
//!
//! It never knows commands.
#![tactic(auto)]

mod made_list;
mod made_march;
mod made_memory;

pub use made_list::{items_of_list, list_text};
pub use made_march::{march_of, march_text};
pub use made_memory::memory_of;
