//! The layout of a self-test module, made from a plan: a march and a memory as plain numbers and tables.
//!
//! ```
//! use rtl_layout::{Element, PlanOperation};
//!
//! let mut element = Element::new(true, false);
//! element.push(PlanOperation { write: true, bit: false });
//! assert!(rt; element.is_down() && !element.is_pause() && element.operations().len() == 1);
//! ```
//!
//! It never knows marches or memories.
#![tactic(auto)]

mod ages;
mod assigns;
mod build;
mod digits;
mod element;
mod flags;
mod laws;
mod parts;
mod plan;
mod ports;
mod row;
mod tables;
mod trees;

pub use build::module;
pub use element::{Element, PlanOperation};
pub use laws::{
    choice_gives_its_leaf, module_breaks_no_rule, module_is_a_controller, open_run_shows_numbers,
};
pub use plan::Plan;
pub use row::Row;
