//! Static fault primitives, and their meaning on a list of cells.
//!
//! ```
//! use fault_core::{Act, Class, Prim, Sense, class_of};
//!
//! let act = Some(Act::Write(true));
//! let stays_low = Prim::new(None, Sense { state: false, act }, false, None)?;
//! assert!(rt; class_of(&stays_low) == Class::TF);
//! ```
//!
//! It never knows marches.
#![tactic(auto)]

mod cells;
mod primitive;
mod table;

pub use cells::{Places, close_cells, do_plainly, is_same_act, pause_cells, step};
pub use primitive::{Act, FaultPrimitive as Prim, PrimFault, Sense};
pub use table::{Class, class_of, members, one_cell, retention, two_cell};
