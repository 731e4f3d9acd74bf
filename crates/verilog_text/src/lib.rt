//! The machine that reads a module's text, as definitions, and its laws.
//!
//! A text's grammar is in `verilog_tree` (`specs/Spells.antt`). Here `specs/Places.antt` says where a reader of a
//! module can stand, `Following.antt` what may still follow there, in pieces of the grammar, and `Steps.antt` what
//! a token does; `Lexing.antt` the same of bytes and tokens, `Answering.antt` what a byte and the end do, and
//! `Refusals.antt` what each refusal says of a text. The two grammars of expressions are read by one flat form,
//! `Flat.antt`: by precedence each operator is counted, and in full parentheses each parenthesis gives leave for one.
//!
//! The code is in `verilog_read`, which does what the machine does.
#![tactic(auto)]

mod count;
mod fault;
pub mod laws;

pub use count::Count;
pub use fault::ByteFault;
