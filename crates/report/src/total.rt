ghost use Rattle.std.specs.Prelude.{◌≡◌, ◌≤◌, length};
ghost use Rattle.report.specs.Items.{covered_count, is_covered};

use crate::judged::JudgedItem;
use coverage::Verdict;
use dynamic_prover::DynVerdict;

/// Whether a judged item is covered.
#[tactic(auto, unfolding(crate::specs::Items::is_covered))]
pub(crate) fn is_item_covered(judged: &JudgedItem) -> bool
    ensures { result ≡ is_covered judged.now }
{
    match judged {
        JudgedItem::Plain(_, Verdict::Covered) | JudgedItem::Dyn(_, DynVerdict::Covered) => true,
        JudgedItem::Plain(_, Verdict::Escape(_)) | JudgedItem::Dyn(_, DynVerdict::Escape(_)) =>
            false,
    }
}

/// How many judged items are covered.
pub fn count_covered(judged: &[JudgedItem]) -> usize
    ensures value { result ≡ covered_count judged.now }
    ensures within { result ≤ length judged.now }
{
    let mut count = 0;
    for item in judged {
        count += usize::from(is_item_covered(item));
    }
    count
}
