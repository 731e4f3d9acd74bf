//! The command `decoder`: the verdicts on the faults of the address decoder, a line each.

ghost use Rattle.std.specs.Prelude.{IfOk, IfErr};
ghost use Rattle.bist_host.specs.Files.{OnlyReads};
ghost use Rattle.bist_endings.specs.Ending.{plain, done_of};
ghost use Rattle.bist_inputs.specs.Inputs.{HasCause, IsOwnRefusal};
ghost use Rattle.bist_endings.specs.Conclude.{NamesWords};
ghost use Rattle.bist_app.specs.Forms.{HasForm};
ghost use Rattle.bist_app.specs.Decoder.{IsDecoderDone, LeavesDecoder, DecidesDecoder, decoder_form};

use crate::parts::one_output;
use bist_endings::{Effects, Refusal};
use bist_host::Host;
use bist_inputs::read_march_input;
use decoder_report::report_decoder;
use march_core::March;
use report_lines::total_text;
use std::alloc::Global;

// The places of the words.
const MARCH: usize = 1;
/// The word that names the report's file.
const REPORT: usize = 2;

/// The report as a plan.
#[tactic(auto, unfolding(crate::specs::Decoder::LeavesDecoder))]
fn plan_decoder(alloc: Global, march: &March) -> Result<Effects, Refusal>
    ensures own { IfErr result IsOwnRefusal }
    ensures answer { LeavesDecoder march.now (plain result) }
    ensures outputs { IfOk result (λ plan. IsDecoderDone march.now (done_of plan)) }
{
    let report = report_decoder(alloc, march)?;
    let line = total_text(alloc, 6, report.covered)?;
    let outputs = one_output(alloc, REPORT, report.bytes)?;
    Ok(Effects {
        found: report.covered < 6,
        outputs,
        line,
    })
}

/// Judges the faults of the address decoder.
pub fn decide_decoder<H: Host>(
    alloc: Global,
    words: &[&str],
    host: &mut H,
) -> Result<Effects, Refusal>
    requires { HasForm decoder_form words.now }
    ensures kept { OnlyReads (H.state host.old) (H.state host.new) }
    ensures outputs { IfOk result (λ plan. NamesWords words.now (done_of plan).outputs) }
    ensures answer { DecidesDecoder (H.state host.old).files words.now (plain result) }
    ensures cause { HasCause (H.state host.old) (H.state host.new) result }
{
    let march = read_march_input(host, words, MARCH)?;
    plan_decoder(alloc, &march)
}
