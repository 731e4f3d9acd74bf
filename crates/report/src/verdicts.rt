ghost use Rattle.std.specs.Prelude.{◌≡◌, IfOk, length, map};
ghost use Rattle.std.specs.Option.{option_copied};
ghost use Rattle.coverage.specs.Verdicts.{AreVerdicts};
ghost use Rattle.dynamic_core.specs.declared.item.Item.TheVariants.{Plain};
ghost use Rattle.report.specs.Items.{plain_items};
ghost use Rattle.report.specs.Report.{report_text, IsMixedReport};

use crate::judged::JudgedItem;
use crate::write::write_judged;
use bist_bits::NoMemory;
use coverage::Verdict;
use dynamic_prover::DynVerdict;
use fault_core::Prim;
use march_core::March;
use memory_desc::Memory;
use std::alloc::Global;

/// Static primitives with their verdicts, as judged items.
fn with_verdicts(
    alloc: Global,
    prims: &[Prim],
    verdicts: &[Verdict],
) -> Result<Vec<JudgedItem>, NoMemory>
    requires { length prims.now ≡ length verdicts.now }
    ensures { IfOk result (λ judged. judged.items ≡ plain_items prims.now verdicts.now) }
{
    // A judged item can hold a verdict of the other kind too: this names its type to the prover.
    let _other: Option<DynVerdict> = None;
    let mut judged = Vec::new(alloc);
    for (i, prim) in prims.iter().enumerate() {
        if judged.push(JudgedItem::Plain(*prim, verdicts[i])).is_err() {
            return Err(NoMemory);
        }
    }
    Ok(judged)
}

/// The report of static primitives with a verdict for each. The only refusal is want of memory.
pub fn write_report(
    alloc: Global,
    march: &March,
    memory: Option<&Memory>,
    prims: &[Prim],
    verdicts: &[Verdict],
) -> Result<Vec<u8>, NoMemory>
    requires { length prims.now ≡ length verdicts.now }
    ensures text { IfOk result (λ text. text.items
        ≡ report_text march.now (option_copied memory.entry) (plain_items prims.now verdicts.now)) }

    // Where each verdict is that of its primitive, the lines and the counts say what the march detects.
    ensures report { IfOk result (λ text. AreVerdicts march.now prims.now verdicts.now
        → IsMixedReport text.items march.now (option_copied memory.entry) (map Plain prims.now)) }
{
    let judged = with_verdicts(alloc, prims, verdicts)?;
    write_judged(alloc, march, memory, judged.as_slice())
}
