//! The line of the different devices.

ghost use Rattle.std.specs.Prelude.{◌≡◌, ◌≤◌, ◌++◌, ◌&&◌, not, OnOk, length, count_by};
ghost use Rattle.linked_faults.specs.Devices.{exchanged};
ghost use Rattle.linked_report.specs.Links.{is_link_covered};
ghost use Rattle.linked_report.specs.Report.{devices_line};
ghost use Rattle.linked_report.specs.inner.Counted.{stands_in, devices_of};

use crate::judged::{JudgedLink, is_covered};
use bist_bits::NoMemory;
use bist_text::put;
use linked_faults::{Link, exchanged, is_same_link};
use report_lines::write_total;

/// Whether a link stands among these.
fn stands_in(judged: &[JudgedLink], link: &Link) -> bool
    ensures { result ≡ stands_in judged.now link.now }
{
    for other in judged {
        if is_same_link(&other.link, link) {
            return true;
        }
    }
    false
}

/// Whether no earlier link is this one with its two primitives exchanged.
fn is_first(earlier: &[JudgedLink], judged: &JudgedLink) -> bool
    ensures { result ≡ not (stands_in earlier.now (exchanged judged.now.link)) }
{
    !stands_in(earlier, &exchanged(&judged.link))
}

fn is_first_covered(is_first: bool, judged: &JudgedLink) -> bool
    ensures { result ≡ (is_first && is_link_covered judged.now) }
{
    is_first && is_covered(judged)
}

/// How many different devices these are, and how many of them are covered.
#[derive(Clone, Copy)]
struct DeviceCounts {
    count: usize,
    covered: usize,
}

fn count_devices(judged: &[JudgedLink]) -> DeviceCounts
    ensures count { result.count ≡ length (devices_of judged.now) }
    ensures covered { result.covered ≡ count_by is_link_covered (devices_of judged.now) }
    ensures within { result.covered ≤ result.count }
{
    let mut count = 0;
    let mut covered = 0;
    for index in 0..judged.len() {
        let next = &judged[index];
        let is_first = is_first(&judged[..index], next);
        count += usize::from(is_first);
        covered += usize::from(is_first_covered(is_first, next));
    }
    DeviceCounts { count, covered }
}

/// Appends the line of the different devices.
pub(crate) fn write_devices(out: &mut Vec<u8>, judged: &[JudgedLink]) -> Result<(), NoMemory>
    ensures { OnOk result (out.new.items ≡ out.old.items ++ devices_line (length (devices_of judged.now)) (count_by is_link_covered (devices_of judged.now))) }
{
    let counts = count_devices(judged);
    put(out, b"devices ")?;
    write_total(out, counts.count, counts.covered)
}
