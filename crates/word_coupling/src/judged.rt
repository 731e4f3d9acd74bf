//! The couplings of a list with their verdicts.

ghost use Rattle.std.specs.Prelude.{◌≡◌, ◌≢◌, ◌∷◌, ◌≤◌, [], IfOk, MatchOption, IsTrue, count_by, length};
ghost use Rattle.fault_core.specs.Primitive.{has_aggressor};
ghost use Rattle.word_coupling.specs.Report.{coupling_of, couplings};
ghost use Rattle.word_coupling.specs.inner.Judged.{AreJudged, AreJudgedInWord, is_covered};

use crate::judging::{FoundEscape, judge_in_word};
use bist_bits::NoMemory;
use dynamic_core::Item;
use fault_core::Prim;
use march_core::March;
use memory_desc::Memory;
use std::alloc::Global;

/// A static primitive of two cells, and its least escape inside a word, where it has one.
#[derive(Clone, Copy)]
pub(crate) struct JudgedCoupling {
    pub(crate) prim: Prim,
    pub(crate) escape: Option<FoundEscape>,
}

/// The static primitive of two cells that an item is.
fn coupling_of(item: &Item) -> Option<&Prim>
    ensures { MatchOption result (coupling_of item.now ≡ [])
        (λ prim. (coupling_of item.now ≡ prim.now ∷ []) × IsTrue (has_aggressor prim.now)) }
{
    match item {
        Item::Plain(prim) if prim.agg().is_some() => Some(prim),
        _ => None,
    }
}

/// How many couplings a list has.
pub(crate) fn count_couplings(items: &[Item]) -> usize
    ensures value { result ≡ length (couplings items.now) }
    ensures within { result ≤ length items.now }
{
    let mut count = 0;
    for item in items {
        count += usize::from(coupling_of(item).is_some());
    }
    count
}

/// The couplings of a list with their verdicts, in their order.
fn judge_each(
    alloc: Global,
    march: &March,
    memory: &Memory,
    items: &[Item],
) -> Result<Vec<JudgedCoupling>, NoMemory>
    ensures { IfOk result (λ judged. AreJudged march.now memory.now (couplings items.now) judged.items) }
{
    let mut judged = Vec::new(alloc);
    for item in items {
        if let Some(prim) = coupling_of(item) {
            let escape = judge_in_word(march, memory, prim);
            let coupling = JudgedCoupling {
                prim: *prim,
                escape,
            };
            if judged.push(coupling).is_err() {
                return Err(NoMemory);
            }
        }
    }
    Ok(judged)
}

/// The couplings of a list with their verdicts, in their order; none where a word has no two bits. The only refusal is want of memory.
pub(crate) fn judge_couplings(
    alloc: Global,
    march: &March,
    memory: &Memory,
    items: &[Item],
) -> Result<Vec<JudgedCoupling>, NoMemory>
    ensures { IfOk result (λ judged. AreJudgedInWord march.now memory.now items.now judged.items) }
{
    if memory.bits() == 1 {
        return Ok(Vec::new(alloc));
    }
    judge_each(alloc, march, memory, items)
}

/// How many couplings are covered.
pub(crate) fn count_covered(judged: &[JudgedCoupling]) -> usize
    ensures value { result ≡ count_by is_covered judged.now }
    ensures within { result ≤ length judged.now }
{
    let mut count = 0;
    for coupling in judged {
        count += usize::from(coupling.escape.is_none());
    }
    count
}
