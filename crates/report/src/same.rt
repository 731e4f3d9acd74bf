//! Whether two items of a list are the same primitive.

ghost use Rattle.std.specs.Prelude.{◌≡◌, IsTrue};
ghost use Rattle.report.specs.Items.{item_of};

use crate::judged::JudgedItem;
use dynamic_core::{DynPrim, DynSense, Item};
use fault_core::Prim;

fn is_same_static(one: &Prim, other: &Prim) -> bool
    ensures { IsTrue result → one.now ≡ other.now }
{
    one.agg() == other.agg()
        && one.vic() == other.vic()
        && one.after() == other.after()
        && one.answer() == other.answer()
}

fn is_same_sense(one: DynSense, other: DynSense) -> bool
    ensures { IsTrue result → one ≡ other }
{
    one.state == other.state && one.acts == other.acts
}

fn is_same_aggressor(one: Option<DynSense>, other: Option<DynSense>) -> bool
    ensures { IsTrue result → one ≡ other }
{
    match (one, other) {
        (Some(one), Some(other)) => is_same_sense(one, other),
        (None, None) => true,
        _ => false,
    }
}

fn is_same_dynamic(one: &DynPrim, other: &DynPrim) -> bool
    ensures { IsTrue result → one.now ≡ other.now }
{
    is_same_aggressor(one.agg(), other.agg())
        && is_same_sense(one.vic(), other.vic())
        && one.after() == other.after()
        && one.answer() == other.answer()
}

/// Whether a judged item is this one.
pub(crate) fn is_of_item(judged: &JudgedItem, item: &Item) -> bool
    ensures { IsTrue result → item_of judged.now ≡ item.now }
{
    match (judged, item) {
        (JudgedItem::Plain(one, _), Item::Plain(other)) => is_same_static(one, other),
        (JudgedItem::Dyn(one, _), Item::Dyn(other)) => is_same_dynamic(one, other),
        _ => false,
    }
}
