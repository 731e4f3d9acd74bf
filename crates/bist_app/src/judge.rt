ghost use Rattle.std.specs.Prelude.{IfOk, IfErr};
ghost use Rattle.bist_host.specs.Files.{OnlyReads};
ghost use Rattle.bist_endings.specs.Ending.{plain, done_of};
ghost use Rattle.bist_inputs.specs.Inputs.{HasCause, IsOwnRefusal};
ghost use Rattle.bist_endings.specs.Conclude.{NamesWords};
ghost use Rattle.bist_app.specs.Forms.{HasForm};
ghost use Rattle.bist_app.specs.Judge.{IsJudged, LeavesJudge, DecidesJudge, judge_form};

use crate::parts::one_output;
use crate::reporting::report_list;
use bist_endings::{Effects, Refusal};
use bist_host::Host;
use bist_inputs::{read_list_input, read_march_input};
use dynamic_core::Item;
use march_core::March;
use std::alloc::Global;

// The places of the words.
const MARCH: usize = 1;

const FAULTS: usize = 2;
/// The word that names the report's file.
const REPORT: usize = 3;

/// The report as a plan.
#[tactic(auto, unfolding(crate::specs::Judge::LeavesJudge))]
fn plan_judge(alloc: Global, march: &March, items: &[Item]) -> Result<Effects, Refusal>
    ensures own { IfErr result IsOwnRefusal }
    ensures answer { LeavesJudge march.now items.now (plain result) }
    ensures outputs { IfOk result (λ plan. IsJudged march.now items.now (done_of plan)) }
{
    let reported = report_list(alloc, march, None, items)?;
    let outputs = one_output(alloc, REPORT, reported.bytes)?;
    Ok(Effects {
        found: reported.found,
        outputs,
        line: reported.line,
    })
}

/// Judges the items of a list.
pub fn decide_judge<H: Host>(
    alloc: Global,
    words: &[&str],
    host: &mut H,
) -> Result<Effects, Refusal>
    requires { HasForm judge_form words.now }
    ensures kept { OnlyReads (H.state host.old) (H.state host.new) }
    ensures outputs { IfOk result (λ plan. NamesWords words.now (done_of plan).outputs) }
    ensures answer { DecidesJudge (H.state host.old).files words.now (plain result) }
    ensures cause { HasCause (H.state host.old) (H.state host.new) result }
{
    let march = read_march_input(host, words, MARCH)?;
    let items = read_list_input(alloc, host, words, FAULTS)?;
    plan_judge(alloc, &march, &items)
}
