//! The command `linked`: the verdicts on the linked faults.

ghost use Rattle.std.specs.Prelude.{IfOk, IfErr};
ghost use Rattle.bist_host.specs.Files.{OnlyReads};
ghost use Rattle.bist_endings.specs.Ending.{plain, done_of};
ghost use Rattle.bist_endings.specs.Conclude.{NamesWords};
ghost use Rattle.bist_inputs.specs.Inputs.{HasCause, IsOwnRefusal};
ghost use Rattle.bist_app.specs.Forms.{HasForm};
ghost use Rattle.bist_app.specs.Linked.{IsLinkedDone, LeavesLinked, DecidesLinked, linked_form};

use crate::parts::one_output;
use bist_endings::{Effects, Refusal};
use bist_host::Host;
use bist_inputs::read_march_input;
use linked_report::report_links;
use march_core::March;
use std::alloc::Global;

// The places of the words.
const MARCH: usize = 1;
/// The word that names the report's file.
const REPORT: usize = 2;

/// The report as a plan.
#[tactic(auto, unfolding(crate::specs::Linked::LeavesLinked))]
fn plan_linked(alloc: Global, march: &March) -> Result<Effects, Refusal>
    ensures own { IfErr result IsOwnRefusal }
    ensures answer { LeavesLinked march.now (plain result) }
    ensures outputs { IfOk result (λ plan. IsLinkedDone march.now (done_of plan)) }
{
    let reported = report_links(alloc, march)?;
    let outputs = one_output(alloc, REPORT, reported.bytes)?;
    Ok(Effects {
        found: reported.escapes,
        outputs,
        line: reported.line,
    })
}

/// Judges a march on the linked faults.
pub fn decide_linked<H: Host>(
    alloc: Global,
    words: &[&str],
    host: &mut H,
) -> Result<Effects, Refusal>
    requires { HasForm linked_form words.now }
    ensures kept { OnlyReads (H.state host.old) (H.state host.new) }
    ensures outputs { IfOk result (λ plan. NamesWords words.now (done_of plan).outputs) }
    ensures answer { DecidesLinked (H.state host.old).files words.now (plain result) }
    ensures cause { HasCause (H.state host.old) (H.state host.new) result }
{
    let march = read_march_input(host, words, MARCH)?;
    plan_linked(alloc, &march)
}
