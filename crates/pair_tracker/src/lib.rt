//! Two cells followed through a march, over all choices of direction: the pairs that they can end in, each with the
//! first choice that leads there.
//!
//! ```
//! use fault_syntax::read_prim;
//! use march_syntax::read_march;
//! use pair_tracker::{Placement, survivors};
//!
//! let march = read_march(b"{any(w0);up(r0,w1);down(r1,w0)}")?;
//! let stays_high = read_prim(b"<1w0/1/->")?;
//! let ends = survivors(&march, &stays_high, Placement::Alone, [false, false]);
//! assert!(rt; ends.len() == 1);
//! ```
//!
//! It never walks the choices of direction one by one.
#![tactic(auto)]

mod element_step;
mod march_search;
mod pair_cells;
mod placement;
mod search;
mod summary;
mod tracker;

pub use element_step::{FewCells, does_allow};
pub use march_search::word_through;
pub use pair_cells::{number_of, sides_in};
pub use placement::{Placement, Survivor};
pub use search::{DeadEnds, Ways, word_from};
pub use summary::Summary;
pub use tracker::survivors;
