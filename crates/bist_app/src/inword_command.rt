//! The command `inword`: the report of what a test detects between two bits of one word.

ghost use Rattle.std.specs.Prelude.{IfOk, IfErr};
ghost use Rattle.bist_host.specs.Files.{OnlyReads};
ghost use Rattle.bist_endings.specs.Ending.{plain, done_of};
ghost use Rattle.bist_endings.specs.Conclude.{NamesWords};
ghost use Rattle.bist_inputs.specs.Inputs.{HasCause, IsOwnRefusal};
ghost use Rattle.bist_app.specs.Forms.{HasForm};
ghost use Rattle.bist_app.specs.InWord.{IsJudgedInWord, LeavesInWord, DecidesInWord, in_word_form};

use crate::parts::one_output;
use bist_endings::{Effects, Refusal};
use bist_host::Host;
use bist_inputs::{read_list_input, read_march_input, read_memory_input};
use dynamic_core::Item;
use march_core::March;
use memory_desc::Memory;
use std::alloc::Global;
use word_coupling::report_in_word;

// The places of the words.
const MARCH: usize = 1;

const MEMORY: usize = 2;

const FAULTS: usize = 3;
/// The word that names the report's file.
const REPORT: usize = 4;

/// The report as a plan.
#[tactic(auto, unfolding(crate::specs::InWord::LeavesInWord))]
fn plan_in_word(
    alloc: Global,
    march: &March,
    memory: &Memory,
    items: &[Item],
) -> Result<Effects, Refusal>
    ensures own { IfErr result IsOwnRefusal }
    ensures answer { LeavesInWord march.now memory.now items.now (plain result) }
    ensures outputs { IfOk result (λ plan. IsJudgedInWord march.now memory.now items.now (done_of plan)) }
{
    let reported = report_in_word(alloc, march, memory, items)?;
    let outputs = one_output(alloc, REPORT, reported.bytes)?;
    Ok(Effects {
        found: reported.found,
        outputs,
        line: reported.line,
    })
}

/// Judges the couplings of a list inside a word of a memory.
pub fn decide_in_word<H: Host>(
    alloc: Global,
    words: &[&str],
    host: &mut H,
) -> Result<Effects, Refusal>
    requires { HasForm in_word_form words.now }
    ensures kept { OnlyReads (H.state host.old) (H.state host.new) }
    ensures outputs { IfOk result (λ plan. NamesWords words.now (done_of plan).outputs) }
    ensures answer { DecidesInWord (H.state host.old).files words.now (plain result) }
    ensures cause { HasCause (H.state host.old) (H.state host.new) result }
{
    let march = read_march_input(host, words, MARCH)?;
    let memory = read_memory_input(host, words, MEMORY)?;
    let items = read_list_input(alloc, host, words, FAULTS)?;
    plan_in_word(alloc, &march, &memory, &items)
}
