//! The verdicts on a list as a report and its last line, which `judge` and `compile` share.

ghost use Rattle.std.specs.Prelude.{IfOk};
ghost use Rattle.std.specs.Option.{option_copied};
ghost use Rattle.report.specs.Report.{DetectsOf};
ghost use Rattle.bist_app.specs.Reported.{Reports};

use bist_bits::NoMemory;
use dynamic_core::Item;
use march_core::March;
use memory_desc::Memory;
use report::{count_covered, judge_items, write_judged};
use report_lines::total_text;
use std::alloc::Global;

/// A report, its last line, how many items are covered, and whether some escapes.
#[derive(Drop)]
pub struct Reported {
    pub found: bool,
    pub bytes: Vec<u8>,
    pub line: Vec<u8>,
    pub covered: usize,
}

/// Judges the items of a list.
pub fn report_list(
    alloc: Global,
    march: &March,
    memory: Option<&Memory>,
    items: &[Item],
) -> Result<Reported, NoMemory>
    ensures reports { IfOk result (λ r. Reports march.now (option_copied memory.entry) items.now r.found r.bytes.items r.line.items) }
    ensures covered { IfOk result (λ r. DetectsOf march.now items.now r.covered) }
{
    let judged = judge_items(alloc, march, items)?;
    let verdicts = judged.as_slice();
    let covered = count_covered(verdicts);
    let bytes = write_judged(alloc, march, memory, verdicts)?;
    let line = total_text(alloc, verdicts.len(), covered)?;
    Ok(Reported {
        found: covered < verdicts.len(),
        bytes,
        line,
        covered,
    })
}
