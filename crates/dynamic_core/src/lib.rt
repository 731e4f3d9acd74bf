//! Dynamic fault primitives of two operations, what they do to a list of cells, and lists of primitives of up to
//! one operation or of up to two.
//!
//! ```
//! use dynamic_core::{Item, print_dyn, read_items};
//!
//! let items = read_items(rt.alloc(), b"SF\n<0w1r1/0/0>\n")?;
//! assert!(rt; items.len() == 3);
//! assert!(rt; matches!(items.last(), Some(Item::Dyn(prim)) if print_dyn(prim).as_str() == "<0w1r1/0/0>"));
//! ```
//!
//! It never chooses directions.
#![tactic(auto)]

mod item;
mod judge;
mod list;
mod primitive;
mod print;
mod simulation;
mod stepping;
mod table;

pub use item::Item;
pub use list::{read_items, read_list};
pub use primitive::{DynPrim, DynSense};
pub use print::print_dyn;
pub use simulation::{DynInstance, simulate_dyn};
pub use stepping::step_dynamic;
pub use table::{dyn_one, dyn_two};
