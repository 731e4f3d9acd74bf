//! The texts of fault primitives and of the lines of fault lists: how they are read, and how a primitive is printed.
//!
//! ```
//! use fault_syntax::{FaultFault, print_prim, read_prim};
//!
//! let prim = read_prim(b"<0w1;0/1/->")?;
//! assert!(rt; prim.is_two_cell());
//! assert!(rt; print_prim(&prim).as_str() == "<0w1;0/1/->");
//! assert!(rt; read_prim(b"<0w1/1/->").err().is_some());
//! ```
//!
//! It never knows marches.
#![tactic(auto)]

mod fault;
mod judge;
mod line;
mod place;
mod prim;
mod print;
mod reader;
mod words;

pub use fault::FaultFault;
pub use judge::{judge as judge_parts, written_act};
pub use line::read_line;
pub use prim::read_prim;
pub use print::{answer, bit, print_prim, push_act};
pub use reader::{Brief, ReadItem, ReadParts};
pub use words::{AllowedNames, GroupName, Operation, class_name};
