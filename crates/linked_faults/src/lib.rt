//! Verdicts on linked faults: two fault primitives with the same victim, of which the second can hide what the first
//! did, for arrays of every size from three cells on.
//!
//! ```
//! use linked_faults::{is_linked, least_linked_escape, links};
//! use march_syntax::read_march;
//!
//! let march = read_march(b"{any(w0);up(r0,w1);down(r1,w0)}")?;
//! let links = links(rt.alloc())?;
//! assert!(rt; links.len() == 600 && is_linked(&links[0]));
//! assert!(rt; least_linked_escape(&march, &links[0]).is_none());
//! assert!(rt; least_linked_escape(&march, &links[599]).is_some());
//! ```
//!
//! It never speaks of one primitive alone.
#![tactic(auto)]

mod devices;
mod escape;
mod laws;
mod link;
mod linked;
mod table;
mod three;

pub use devices::{exchanged, is_same_link};
pub use escape::{LinkEscape, least_linked_escape};
pub use laws::{both_orders_are_one_device, inversion_is_a_link};
pub use link::{Link, LinkPlaces, first_places, second_places};
pub use linked::is_linked;
pub use table::{LinkKind, kind_of, links};
pub use three::Three;
