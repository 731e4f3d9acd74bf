//! The tree of a module in a subset of Verilog, IEEE 1364-2005, and what it means.
//!
//! Contracts see a module as a plain tree (`specs/Plain.antt`): names are their bytes, vectors are lists, a
//! box is what it holds. Of such a tree the definitions say which bytes spell it (`Spells.antt`), which rule
//! it breaks first (`Rules.antt`), what its operators give (`Operators.antt`), what its names are worth in a
//! cycle and after an edge of the clock (`Meaning.antt`), and when its wires form a loop (`Wires.antt`).
//! Values are unsigned and two-valued. The functions of `build` make each part of a module of its parts.
//!
//! ```
//! use arrayvec::ArrayString;
//! use verilog_tree::{BinOp, UnOp, binary_width, is_name, unary_width};
//!
//! assert!(rt; unary_width(UnOp::Parity, 4) == 1);
//! assert!(rt; binary_width(BinOp::Shl, 4) == 4 && binary_width(BinOp::Lt, 4) == 1);
//! assert!(rt; !is_name(&ArrayString::from("wire")?));
//! ```
//!
//! It never reads, prints or simulates.
#![tactic(auto)]

pub mod build;
pub mod examples;
mod fault;
pub mod laws;
mod layout;
mod mentions;
mod names;
mod operators;
mod rules;
mod sizes;
mod tables;
mod tokens;
mod tree;
mod widths;
mod words;

pub use fault::{ReadFault, TreeFault};
pub use layout::fits;
pub use mentions::names_read;
pub use names::{Declared, Kind, all_declared};
pub use operators::{
    binary_text, binary_width, height, infix_of, unary_of, unary_text, unary_width,
};
pub use rules::check;
pub use sizes::formed;
pub use tables::{Declarations, NameSet, all_declarations};
pub use tokens::{Base, Mark, Within};
pub use tree::{Arm, BinOp, BodyItem, Decl, Dir, Expr, Module, Name, Port, Stmt, UnOp};
pub use words::is_name;
