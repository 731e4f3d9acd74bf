//! The report.

ghost use Rattle.std.specs.Prelude.{◌≡◌, ◌++◌, OnOk, IfOk};
ghost use Rattle.linked_report.specs.Report.{ReportsLinks};
ghost use Rattle.linked_report.specs.inner.Counted.{linked_text};

use crate::devices::write_devices;
use crate::judged::{JudgedLink, count_covered, judge_links};
use crate::kinds::write_kinds;
use crate::lines::write_lines;
use bist_bits::NoMemory;
use linked_faults::links;
use march_core::March;
use report_lines::{total_text, write_march, write_total};
use std::alloc::Global;

/// A report, its last line, and whether some link escapes.
#[derive(Drop)]
pub struct LinkedReport {
    pub escapes: bool,
    pub bytes: Vec<u8>,
    pub line: Vec<u8>,
}

/// The march, a line for each judged link, one for each kind, one for the different devices, and the total.
fn write_judged(alloc: Global, march: &March, judged: &[JudgedLink]) -> Result<Vec<u8>, NoMemory>
    ensures { IfOk result (λ text. text.items ≡ linked_text march.now judged.now) }
{
    let mut out = Vec::new(alloc);
    write_march(alloc, &mut out, march)?;
    write_lines(&mut out, judged, march.len())?;
    write_kinds(&mut out, judged)?;
    write_devices(&mut out, judged)?;
    write_total(&mut out, judged.len(), count_covered(judged))?;
    Ok(out)
}

/// The report of a march on the linked faults of the static primitives. The only refusal is want of memory.
pub fn report_links(alloc: Global, march: &March) -> Result<LinkedReport, NoMemory>
    ensures { IfOk result (λ r. ReportsLinks march.now r.escapes r.bytes.items r.line.items) }
{
    let links = links(alloc)?;
    let judged = judge_links(alloc, march, links.as_slice())?;
    let verdicts = judged.as_slice();
    let covered = count_covered(verdicts);
    let bytes = write_judged(alloc, march, verdicts)?;
    let line = total_text(alloc, verdicts.len(), covered)?;
    Ok(LinkedReport {
        escapes: covered < verdicts.len(),
        bytes,
        line,
    })
}
