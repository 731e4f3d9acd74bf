//! March tests: lists of elements, each an order and the operations that are applied to one cell.
//!
//! ```
//! use march_core::{MarchBuilder, MarchFault, Op, Order};
//!
//! let mut builder = MarchBuilder::new();
//! builder.element(Order::Any)?;
//! builder.op(Op::R1)?;
//! let march = builder.finish();
//! assert!(rt; matches!(march, Err(MarchFault::ReadBeforeWrite { element: 0, op: 0 })));
//! ```
//!
//! It never reads text.
#![tactic(auto)]

mod builder;
mod element;
mod fault;
mod march;
mod operation;
mod reads;
mod visit;

pub use builder::MarchBuilder;
pub use fault::MarchFault;
pub use march::{March, is_down};
pub use operation::{Op, Order, is_wrong};
pub use visit::{Miss, address_of};
