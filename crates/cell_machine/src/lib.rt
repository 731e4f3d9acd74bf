//! An aggressor and its victim as a machine of two bits: what closing and one act make of them.
//!
//! ```
//! use cell_machine::{Pair, Side, act};
//! use fault_core::Act;
//! use fault_syntax::read_prim;
//!
//! let zeros = Pair { a: false, v: false };
//! let sets = read_prim(b"<0w1;0/1/->")?;
//! let ones = Pair { a: true, v: true };
//! assert!(rt; act(&sets, zeros, Side::A, Act::Write(true)) == (ones, None));
//! ```
//!
//! It never sees an array.
#![tactic(auto)]

mod pair;

pub use pair::{Pair, Side, act, close, do_states_hold, own_act, pause};
