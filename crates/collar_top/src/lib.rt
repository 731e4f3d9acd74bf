//! The collar: the top that places a self-test, the interface and the macro, and the text of both modules.
//!
//! It never reads a file.
#![tactic(auto)]

mod fitting;
mod naming;
mod served;
mod text;
mod top;

pub use text::{CollarFault, collar_text, legal_top};
