//! A march run on one array of cells with one instance of a fault primitive, and what it means that a
//! march detects a primitive.
//!
//! ```
//! use array_sim::{Instance, simulate};
//! use fault_syntax::read_prim;
//! use march_core::Miss;
//! use march_syntax::read_march;
//!
//! let march = read_march(b"{up(w0);up(r0,w1);down(r1,w0)}")?;
//! let instance = Instance { prim: read_prim(b"<0w1/0/->")?, agg: None, vic: 1 };
//! let miss = simulate(&march, &instance, &mut [false, false], 1 << 61);
//! assert!(rt; matches!(miss, Some(Miss { element: 2, address: 1, op: 0 })));
//! ```
//!
//! It never chooses directions.
#![tactic(auto)]

mod act;
mod element_run;
mod simulation;

pub use act::act_of;
pub use simulation::{Instance, simulate};
