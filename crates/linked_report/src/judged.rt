//! Links with their verdicts.

ghost use Rattle.std.specs.Prelude.{◌≡◌, ◌≤◌, IfOk, length, count_by};
ghost use Rattle.linked_report.specs.Links.{AreJudgedLinks, is_link_covered};

use bist_bits::NoMemory;
use linked_faults::{Link, LinkEscape, least_linked_escape};
use march_core::March;
use std::alloc::Global;

/// A linked fault, and the least array in which the march passes in spite of it, where there is one.
#[derive(Clone, Copy)]
pub struct JudgedLink {
    pub link: Link,
    pub escape: Option<LinkEscape>,
}

/// Links with their verdicts, in their order. The only refusal is want of memory.
pub(crate) fn judge_links(
    alloc: Global,
    march: &March,
    links: &[Link],
) -> Result<Vec<JudgedLink>, NoMemory>
    ensures { IfOk result (λ judged. AreJudgedLinks march.now links.now judged.items) }
{
    let mut judged = Vec::new(alloc);
    for link in links {
        let next = JudgedLink {
            link: *link,
            escape: least_linked_escape(march, link),
        };
        if judged.push(next).is_err() {
            return Err(NoMemory);
        }
    }
    Ok(judged)
}

/// Whether a link is covered.
pub(crate) fn is_covered(judged: &JudgedLink) -> bool
    ensures { result ≡ is_link_covered judged.now }
{
    judged.escape.is_none()
}

/// How many links are covered.
pub(crate) fn count_covered(judged: &[JudgedLink]) -> usize
    ensures value { result ≡ count_by is_link_covered judged.now }
    ensures within { result ≤ length judged.now }
{
    let mut count = 0;
    for link in judged {
        count += usize::from(is_covered(link));
    }
    count
}
