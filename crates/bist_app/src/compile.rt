//! The command `compile`: a self-test module for a march and a memory, and the report of what the march detects.

ghost use Rattle.std.specs.Prelude.{◌≡◌, ◌≤◌, IfOk, IfErr, true};
ghost use Rattle.bist_host.specs.Files.{OnlyReads};
ghost use Rattle.verilog_tree.specs.Plain.{plain_module};
ghost use Rattle.self_test.specs.SelfTest.{SelfTest};
ghost use Rattle.bist_endings.specs.Ending.{plain, done_of};
ghost use Rattle.bist_endings.specs.Conclude.{NamesWords};
ghost use Rattle.bist_inputs.specs.Inputs.{HasCause, IsOwnRefusal};
ghost use Rattle.bist_app.specs.Forms.{HasForm};
ghost use Rattle.bist_app.specs.Compile.{IsSelfTestText, LeavesCompile, DecidesCompile, compile_form};

use crate::parts::listed;
use crate::reporting::report_list;
use bist_bits::NoMemory;
use bist_endings::{Effects, Output, Refusal};
use bist_host::Host;
use bist_inputs::{read_list_input, read_march_input, read_memory_input};
use dynamic_core::Item;
use march_core::March;
use memory_desc::Memory;
use rtl_gen::generate;
use std::alloc::Global;
use verilog_emit::emit;

// The places of the words.
const MARCH: usize = 1;

const MEMORY: usize = 2;

const FAULTS: usize = 3;
/// The word that names the module's file.
const VERILOG: usize = 4;

/// The word that names the report's file.
const REPORT: usize = 5;

/// The text of the self-test module.
pub fn module_text(alloc: Global, march: &March, memory: &Memory) -> Result<Vec<u8>, NoMemory>
    ensures { IfOk result (λ text. IsSelfTestText march.now memory.now text.items) }
{
    let tree = generate(alloc, march, memory)?;
    emit(alloc, &tree)
}

/// The module and the report as a plan.
#[tactic(auto, unfolding(crate::specs::Compile::LeavesCompile))]
fn plan_compile(
    alloc: Global,
    march: &March,
    memory: &Memory,
    items: &[Item],
) -> Result<Effects, Refusal>
    ensures own { IfErr result IsOwnRefusal }
    ensures answer { LeavesCompile march.now memory.now items.now (plain result) }
{
    let text = module_text(alloc, march, memory)?;
    let reported = report_list(alloc, march, Some(memory), items)?;
    let module = Output {
        position: VERILOG,
        bytes: text,
    };
    let report = Output {
        position: REPORT,
        bytes: reported.bytes,
    };
    let outputs = listed(alloc, [module, report])?;
    Ok(Effects {
        found: reported.found,
        outputs,
        line: reported.line,
    })
}

/// Compiles a self-test and judges the items of a list.
#[tactic(auto, unfolding(crate::specs::Compile::LeavesCompile))]
pub fn decide_compile<H: Host>(
    alloc: Global,
    words: &[&str],
    host: &mut H,
) -> Result<Effects, Refusal>
    requires { HasForm compile_form words.now }
    ensures kept { OnlyReads (H.state host.old) (H.state host.new) }
    ensures outputs { IfOk result (λ plan. NamesWords words.now (done_of plan).outputs) }
    ensures answer { DecidesCompile (H.state host.old).files words.now (plain result) }
    ensures cause { HasCause (H.state host.old) (H.state host.new) result }
{
    let march = read_march_input(host, words, MARCH)?;
    let memory = read_memory_input(host, words, MEMORY)?;
    let items = read_list_input(alloc, host, words, FAULTS)?;
    plan_compile(alloc, &march, &memory, &items)
}
