//! Links with their two primitives exchanged.

ghost use Rattle.std.specs.Prelude.{◌≡◌, ◌↔◌, true};
ghost use Rattle.fault_core.specs.Primitive.{same_bit};
ghost use Rattle.linked_faults.specs.Devices.{exchanged};
ghost use Rattle.linked_faults.specs.Same.{same_answer, same_acts, same_sense, same_agg, same_prim, same_link};

use crate::link::Link;
use fault_core::{Act, Prim, Sense, is_same_act};

/// The link with its two primitives exchanged.
pub fn exchanged(link: &Link) -> Link
    ensures { result ≡ exchanged link.now }
{
    Link {
        first: link.second,
        second: link.first,
        is_shared: link.is_shared,
    }
}

fn is_same_bit(one: bool, other: bool) -> bool
    ensures { result ≡ same_bit one other }
{
    one == other
}

fn has_same_answer(one: Option<bool>, other: Option<bool>) -> bool
    ensures { result ≡ same_answer one other }
{
    match (one, other) {
        (None, None) => true,
        (Some(a), Some(b)) => is_same_bit(a, b),
        _ => false,
    }
}

fn has_same_act(one: Option<Act>, other: Option<Act>) -> bool
    ensures { result ≡ same_acts one other }
{
    match (one, other) {
        (None, None) => true,
        (Some(a), Some(b)) => is_same_act(a, b),
        _ => false,
    }
}

fn is_same_sense(one: Sense, other: Sense) -> bool
    ensures { result ≡ same_sense one other }
{
    is_same_bit(one.state, other.state) && has_same_act(one.act, other.act)
}

fn has_same_agg(one: Option<Sense>, other: Option<Sense>) -> bool
    ensures { result ≡ same_agg one other }
{
    match (one, other) {
        (None, None) => true,
        (Some(a), Some(b)) => is_same_sense(a, b),
        _ => false,
    }
}

fn is_same_prim(one: &Prim, other: &Prim) -> bool
    ensures { result ≡ same_prim one.now other.now }
{
    if !is_same_sense(one.vic(), other.vic()) {
        return false;
    }
    if !has_same_agg(one.agg(), other.agg()) {
        return false;
    }
    is_same_bit(one.after(), other.after()) && has_same_answer(one.answer(), other.answer())
}

#[tactic(auto, unfolding(crate::specs::Same::same_link))]
fn are_same(one: &Link, other: &Link) -> bool
    ensures { result ≡ same_link one.now other.now }
{
    if !is_same_prim(&one.first, &other.first) {
        return false;
    }
    is_same_prim(&one.second, &other.second) && is_same_bit(one.is_shared, other.is_shared)
}

/// Whether two links are the same.
pub fn is_same_link(one: &Link, other: &Link) -> bool
    ensures value { result ≡ same_link one.now other.now }
    ensures same { (result ≡ true) ↔ (one.now ≡ other.now) }
{
    are_same(one, other)
}
