ghost use Rattle.std.specs.Prelude.{◌≡◌, IfOk, map};
ghost use Rattle.std.specs.List.{AllByRecursion};
ghost use Rattle.std.specs.Option.{option_copied};
ghost use Rattle.report.specs.Items.{IsJudged, item_of};
ghost use Rattle.report.specs.Report.{report_text, IsMixedReport};

use crate::class_lines::write_classes;
use crate::judged::{JudgedItem, judge_items};
use crate::judged_lines::write_lines;
use crate::total::count_covered;
use bist_bits::NoMemory;
use dynamic_core::Item;
use march_core::March;
use memory_desc::Memory;
use report_lines::{write_march, write_memory, write_total};
use std::alloc::Global;

/// The report: the march, the memory where one is given, one line for each judged item in their order, one for each
/// class that occurs, and the total. Every line ends with a line feed. The only refusal is want of memory.
pub fn write_judged(
    alloc: Global,
    march: &March,
    memory: Option<&Memory>,
    judged: &[JudgedItem],
) -> Result<Vec<u8>, NoMemory>
    ensures text { IfOk result (λ text. text.items ≡ report_text march.now (option_copied memory.entry) judged.now) }

    // Where each verdict is right, the lines and the counts say what the march detects.
    ensures report { IfOk result (λ text. AllByRecursion (IsJudged march.now) judged.now
        → IsMixedReport text.items march.now (option_copied memory.entry) (map item_of judged.now)) }
{
    let mut out = Vec::new(alloc);
    write_march(alloc, &mut out, march)?;
    write_memory(&mut out, march, memory)?;
    write_lines(&mut out, judged, march.len())?;
    write_classes(&mut out, judged)?;
    write_total(&mut out, judged.len(), count_covered(judged))?;
    Ok(out)
}

/// The report of these items: each is judged once. The only refusal is want of memory.
pub fn write_mixed(
    alloc: Global,
    march: &March,
    memory: Option<&Memory>,
    items: &[Item],
) -> Result<Vec<u8>, NoMemory>
    ensures { IfOk result (λ text. IsMixedReport text.items march.now (option_copied memory.entry) items.now) }
{
    let judged = judge_items(alloc, march, items)?;
    write_judged(alloc, march, memory, judged.as_slice())
}
