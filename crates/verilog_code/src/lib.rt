//! Expressions and statements over numbered values, in the form that runs fast, and their run in place: what the cycle
//! simulator compiles a module to.
//!
//! A value is a number (`code`, `action`, `run`), or a number or nothing (`open_code`, `open_action`, `open_run`), where
//! some names are left open. One code serves both. Names and modules are unknown here: a place is an index.
//!
//! A net is worked out again only where something that it reads has changed (`step`, `run`).
//!
//! ```
//! use verilog_code::code::{Code, value};
//!
//! let chosen = Code::PickNet(0, Box::new(rt.alloc(), Code::Net(1))?, Box::new(rt.alloc(), Code::Lit(9))?);
//! assert!(rt; value(&chosen, &[1, 5]) == 5 && value(&chosen, &[0, 5]) == 9);
//! ```
//!
//! It knows no names or modules, and of a width only its ones, where a code has them. It takes no memory.
#![tactic(auto)]

pub mod action;
mod cells;
pub mod code;
pub mod net_value;
pub mod open_action;
pub mod open_code;
pub(crate) mod open_operators;
pub mod run;
pub mod step;
