//! The reader of a module's text: a lexer and a parser that take one byte after another, with stacks of their own
//! in place of recursion.
//!
//! What they do is the machine of `verilog_text`, whose definitions and laws say which texts are read and which
//! refusal is told. Here `specs/Spots.antt` and `Frames.antt` say which state of it the places and stacks of the code
//! stand for. One reader serves both styles of expressions (`expressions`, `precedence`, `operators`): full parentheses
//! are precedence in which a parenthesis gives leave for one operator, so each expression carries how many more may come.
//!
//! ```
//! use verilog_read::{read_free, read_module};
//!
//! let text = b"module m(input a,input b,output y);assign y=a&b|a;endmodule";
//! assert!(rt; read_module(rt.alloc(), text).is_err());
//! assert!(rt; read_free(rt.alloc(), text)?.items.len() == 1);
//! ```
//!
//! It never checks the rules of a module. Its reading recurses no deeper than 64; only what drops a tree that it gives
//! up goes as deep as that tree.
#![tactic(auto)]

mod expressions;
mod fault;
mod items;
mod lexemes;
mod lexer;
mod operators;
mod places;
mod precedence;
mod read;
mod stacks;
mod statements;
mod takes;
mod trees;
mod words;

pub use places::Style;
pub use read::{read_free, read_module};
