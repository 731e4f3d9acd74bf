ghost use Rattle.std.specs.Prelude.{◌≡◌, ◌<◌, ◌≤◌, ◌-◌, ◌%◌, ◌^◌, ◌==◌, false, length, IsTrue, ◌↔◌};
ghost use Rattle.march_core.specs.March.{IsMarch, all_ops, is_pause_at, order_at, ops_at};
ghost use Rattle.march_core.specs.Visits.{FitsWord, is_down_at, is_direction, directions_of, direction_at, allows};

use crate::element::Element;
use crate::operation::{Op, Order};
use arrayvec::ArrayVec;
use std::marker::Model;

/// An accepted march, seen as the list of its elements: at most 64 elements, each a pause or 1 to 16 operations, of
/// which one at least isn't a pause, at most 256 operations in all, and each read expects what was written last.
#[derive(Drop)]
pub struct March {
    elements: ArrayVec<Element, 64>,
    total: usize,
}

impl Model for March {
    ghost use Rattle.std.specs.Prelude.{◌≡◌, List, length};
    ghost use Rattle.march_core.specs.March.{MarchElement, IsMarch, all_ops};

    ghost Value = { List MarchElement };

    ghost view = { λ m. m.elements.items };

    ghost invariant = { λ m. IsMarch m.elements.items × (m.total ≡ length (all_ops m.elements.items)) };
}

impl March {
    pub(crate) fn from_elements(elements: ArrayVec<Element, 64>, total: usize) -> Self
        requires march { IsMarch elements.items }
        requires counted { total ≡ length (all_ops elements.items) }
        ensures { result ≡ elements.items }
    {
        March { elements, total }
    }

    /// How many elements it has.
    pub fn len(&self) -> usize
        ensures value { result ≡ length self.now }
        ensures march { IsMarch self.now }
    {
        self.elements.len()
    }

    /// Recalls to the prover what holds of every march. It does nothing.
    pub fn known(&self)
        ensures { IsMarch self.now }
    {
        let _elements = self.elements.len();
    }

    /// Whether an element is a pause.
    pub fn is_pause(&self, i: usize) -> bool
        requires { i < length self.now }
        ensures { result ≡ is_pause_at self.now i }
    {
        let element = &self.elements[i];
        element.is_pause()
    }

    /// The order of an element, up for a pause.
    pub fn order(&self, i: usize) -> Order
        requires { i < length self.now }
        ensures { result ≡ order_at self.now i }
    {
        let element = &self.elements[i];
        element.order()
    }

    /// The operations of an element, none of a pause.
    pub fn ops(&self, i: usize) -> &[Op]
        requires { i < length self.now }
        ensures value { result.now ≡ ops_at self.now i }
        ensures some { is_pause_at self.now i ≡ false → 0 < length result.now }
    {
        let element = &self.elements[i];
        element.ops()
    }

    /// How many operations all elements have together.
    pub fn total_ops(&self) -> usize
        ensures { result ≡ length (all_ops self.now) }
    {
        self.total
    }

    /// Whether a direction word stands for directions that the orders allow.
    pub fn fits_directions(&self, directions: u64) -> bool
        ensures { IsTrue result ↔ FitsWord self.now directions }
    {
        are_allowed(self.elements.as_slice(), directions)
            && ends_in_zeros(directions, self.elements.len())
    }
}

/// Whether an element goes downward in a direction word.
pub fn is_down(directions: u64, element: usize) -> bool
    requires { element < 64 }
    ensures value { result ≡ is_down_at directions element }
{
    (directions >> (63 - element)) % 2 == 1
}

/// Whether an order leaves the direction open that a word gives this element.
#[tactic(auto, unfolding(crate::specs::Visits::direction_at))]
fn is_allowed(order: Order, directions: u64, element: usize) -> bool
    requires { element < 64 }
    ensures { result ≡ allows order (direction_at directions element) }
{
    match order {
        Order::Up => !is_down(directions, element),
        Order::Down => is_down(directions, element),
        Order::Any => true,
    }
}

fn are_allowed(elements: &[Element], directions: u64) -> bool
    requires { length elements.now ≤ 64 }
    ensures { result ≡ is_direction elements.now (directions_of directions (length elements.now)) }
{
    for (i, element) in elements.iter().enumerate() {
        if !is_allowed(element.order(), directions, i) {
            return false;
        }
    }
    true
}

fn ends_in_zeros(directions: u64, count: usize) -> bool
    requires within { count ≤ 64 }
    requires some { 0 < count }
    ensures { result ≡ (directions % 2 ^ (64 - count) == 0) }
{
    directions % (1 << (64 - count)) == 0
}
