ghost use Rattle.std.specs.Prelude.{◌≡◌, IfOk};
ghost use Rattle.std.specs.List.{AllByRecursion};
ghost use Rattle.report.specs.Items.{AreJudged, IsJudged, item_of};

use crate::same::is_of_item;
use bist_bits::NoMemory;
use coverage::{Verdict, judge};
use dynamic_core::{DynPrim, Item};
use dynamic_prover::{DynVerdict, judge_dyn};
use fault_core::Prim;
use march_core::March;
use std::alloc::Global;

/// An item of a list, with what is said of it under a march.
#[derive(Clone, Copy)]
pub enum JudgedItem {
    Plain(Prim, Verdict),
    Dyn(DynPrim, DynVerdict),
}

/// An item with its verdict: of one that was judged before it is the same.
fn judge_once(judged: &[JudgedItem], march: &March, item: &Item) -> JudgedItem
    ensures item { item_of result ≡ item.now }
    ensures judged { AllByRecursion (IsJudged march.now) judged.now → IsJudged march.now result }
{
    for known in judged {
        if is_of_item(known, item) {
            return *known;
        }
    }
    match item {
        Item::Plain(prim) => JudgedItem::Plain(*prim, judge(march, prim)),
        Item::Dyn(prim) => JudgedItem::Dyn(*prim, judge_dyn(march, prim)),
    }
}

/// The items of a list with their verdicts, in their order. The only refusal is want of memory.
pub fn judge_items(
    alloc: Global,
    march: &March,
    items: &[Item],
) -> Result<Vec<JudgedItem>, NoMemory>
    ensures { IfOk result (λ judged. AreJudged march.now items.now judged.items) }
{
    let mut judged = Vec::new(alloc);
    for item in items {
        let next = judge_once(judged.as_slice(), march, item);
        if judged.push(next).is_err() {
            return Err(NoMemory);
        }
    }
    Ok(judged)
}
