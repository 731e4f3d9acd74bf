ghost use Rattle.std.specs.Prelude.{◌≡◌, ◌≤◌, IfOk, length};
ghost use Rattle.decoder_report.specs.Report.{DetectsOfSix, IsDecoderReport};
ghost use Rattle.decoder_report.specs.inner.Judged.{report_text};

use crate::judged::{JudgedFault, count_covered, judge_faults};
use crate::lines::write_lines;
use bist_bits::NoMemory;
use march_core::March;
use report_lines::{write_march, write_total};
use std::alloc::Global;

/// A report, and how many of its six faults are covered.
#[derive(Drop)]
pub struct DecoderReport {
    pub bytes: Vec<u8>,
    pub covered: usize,
}

/// The text of the six judged faults.
fn write_judged(alloc: Global, march: &March, judged: &[JudgedFault]) -> Result<Vec<u8>, NoMemory>
    requires { length judged.now ≡ 6 }
    ensures { IfOk result (λ text. text.items ≡ report_text march.now judged.now) }
{
    let mut out = Vec::new(alloc);
    write_march(alloc, &mut out, march)?;
    write_lines(&mut out, judged, march.len())?;
    write_total(&mut out, 6, count_covered(judged))?;
    Ok(out)
}

/// The report of a march: the march, a line for each fault of the address decoder, and the total. Every line ends with a
/// line feed. The only refusal is want of memory.
pub fn report_decoder(alloc: Global, march: &March) -> Result<DecoderReport, NoMemory>
    ensures report { IfOk result (λ r. IsDecoderReport r.bytes.items march.now) }
    ensures covered { IfOk result (λ r. DetectsOfSix march.now r.covered) }
    ensures within { IfOk result (λ r. r.covered ≤ 6) }
{
    let judged = judge_faults(march);
    let bytes = write_judged(alloc, march, &judged[..])?;
    Ok(DecoderReport {
        bytes,
        covered: count_covered(&judged[..]),
    })
}
