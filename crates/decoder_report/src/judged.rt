ghost use Rattle.std.specs.Prelude.{◌≡◌, ◌≤◌, length};
ghost use Rattle.decoder_report.specs.inner.Judged.{AreJudged, IsJudged, covered_count, is_covered};

use decoder_faults::{DecoderEscape, DecoderFault, WiredRead, least_decoder_escape};
use march_core::March;

/// A fault of the address decoder with the least array of two cells that passes a march, or none where it is detected.
#[derive(Clone, Copy)]
pub(crate) struct JudgedFault {
    pub(crate) fault: DecoderFault,
    pub(crate) escape: Option<DecoderEscape>,
}

fn judge_one(march: &March, fault: DecoderFault) -> JudgedFault
    ensures judged { IsJudged march.now result }
    ensures fault { result.fault ≡ fault }
{
    JudgedFault {
        fault,
        escape: least_decoder_escape(march, fault),
    }
}

/// The six faults of a report with their verdicts, in their order.
#[tactic(auto, unfolding(crate::specs::Report::fault_order))]
pub(crate) fn judge_faults(march: &March) -> [JudgedFault; 6]
    ensures judged { AreJudged march.now result }
    ensures count { length result ≡ 6 }
{
    [
        judge_one(march, DecoderFault::NoCell(false)),
        judge_one(march, DecoderFault::NoCell(true)),
        judge_one(march, DecoderFault::OtherCell),
        judge_one(march, DecoderFault::BothCells(WiredRead::And)),
        judge_one(march, DecoderFault::BothCells(WiredRead::Or)),
        judge_one(march, DecoderFault::BothCells(WiredRead::Own)),
    ]
}

#[tactic(auto, unfolding(crate::specs::inner::Judged::is_covered))]
fn is_fault_covered(judged: &JudgedFault) -> bool
    ensures { result ≡ is_covered judged.now }
{
    judged.escape.is_none()
}

/// How many of these faults are covered.
pub(crate) fn count_covered(judged: &[JudgedFault]) -> usize
    ensures value { result ≡ covered_count judged.now }
    ensures within { result ≤ length judged.now }
{
    let mut count = 0;
    for fault in judged {
        count += usize::from(is_fault_covered(fault));
    }
    count
}
