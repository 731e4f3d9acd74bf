//! Whether two primitives are linked.

ghost use Rattle.std.specs.Prelude.{◌≡◌, ◌↔◌, ◌&&◌, true, not};
ghost use Rattle.fault_core.specs.Primitive.{IsPrimitive, same_bit};
ghost use Rattle.fault_core.specs.Cells.{has_act};
ghost use Rattle.linked_faults.specs.Linking.{IsLinked, good_after};
ghost use Rattle.linked_faults.specs.inner.Testing.{is_quiet, leaves_wrong, finds_wrong_bit, hides_wrong_bit, can_share, linked_test};

use crate::link::Link;
use fault_core::{Act, Prim};

fn has_act(prim: &Prim) -> bool
    ensures { result ≡ has_act prim.now }
{
    let of_aggressor = match prim.agg() {
        Some(sense) => sense.act.is_some(),
        None => false,
    };
    prim.vic().act.is_some() || of_aggressor
}

/// The victim's bit behind an act, were it good.
fn good_after(act: Option<Act>, state: bool) -> bool
    ensures { result ≡ good_after act state }
{
    match act {
        Some(Act::Write(bit)) => bit,
        _ => state,
    }
}

/// Whether a read tells nothing: there is none, or it answers this bit.
fn is_quiet(answer: Option<bool>, right: bool) -> bool
    ensures { result ≡ is_quiet answer right }
{
    match answer {
        Some(bit) => bit == right,
        None => true,
    }
}

fn is_other(one: bool, other: bool) -> bool
    ensures { result ≡ not (same_bit one other) }
{
    one != other
}

fn is_same(one: bool, other: bool) -> bool
    ensures { result ≡ same_bit one other }
{
    one == other
}

fn leaves_wrong(link: &Link) -> bool
    ensures { result ≡ leaves_wrong link.now }
{
    let good = good_after(link.first.vic().act, link.first.vic().state);
    let is_wrong = is_other(link.first.after(), good);
    is_wrong && is_quiet(link.first.answer(), link.first.vic().state)
}

fn finds_wrong_bit(link: &Link) -> bool
    ensures { result ≡ finds_wrong_bit link.now }
{
    let finds = is_same(link.second.vic().state, link.first.after());
    finds && is_other(link.second.after(), link.first.after())
}

fn hides_wrong_bit(link: &Link) -> bool
    ensures { result ≡ hides_wrong_bit link.now }
{
    finds_wrong_bit(link) && is_quiet(link.second.answer(), link.second.after())
}

fn can_share(link: &Link) -> bool
    ensures { result ≡ can_share link.now }
{
    !link.is_shared || (link.first.is_two_cell() && link.second.is_two_cell())
}

fn acts(link: &Link) -> bool
    ensures { result ≡ has_act link.now.first && has_act link.now.second }
{
    has_act(&link.first) && has_act(&link.second)
}

/// The test of two primitives.
pub(crate) fn passes_test(link: &Link) -> bool
    ensures { result ≡ linked_test link.now }
{
    let begins = acts(link) && leaves_wrong(link);
    let ends = hides_wrong_bit(link) && can_share(link);
    begins && ends
}

/// Whether the second finds the wrong bit that the first left, and leaves the other, while no read among them tells.
pub fn is_linked(link: &Link) -> bool
    ensures { (result ≡ true) ↔ IsLinked link.now }
{
    link.first.known();
    link.second.known();
    passes_test(link)
}
