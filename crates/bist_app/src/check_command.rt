//! The command `check`: whether the module of a file issues the commands of a march, whatever its registers hold at first and whatever
//! words return.

ghost use Rattle.std.specs.Prelude.{◌≡◌, ◌++◌, List, [], Some, Err, IfOk, IfErr, OnOk};
ghost use Rattle.bist_host.specs.Files.{OnlyReads};
ghost use Rattle.verilog_tree.specs.Plain.{ModuleTree};
ghost use Rattle.march_core.specs.March.{MarchElement};
ghost use Rattle.memory_desc.specs.Descriptions.{Description};
ghost use Rattle.port_check.specs.Refusals.{Refuses};
ghost use Rattle.bist_endings.specs.Ending.{plain, done_of};
ghost use Rattle.bist_endings.specs.Conclude.{NamesWords};
ghost use Rattle.bist_inputs.specs.Inputs.{HasCause, IsOwnRefusal};
ghost use Rattle.bist_app.specs.Forms.{HasForm};
ghost use Rattle.bist_app.specs.Check.{at_text, check_line, check_done, ChecksRun, DecidesRun, DecidesCheck, check_form};

use bist_bits::NoMemory;
use bist_endings::{Effects, Refusal, VerilogRefusal, put_number};
use bist_host::Host;
use bist_inputs::{read_design_input, read_march_input, read_memory_input};
use bist_text::{put, put_number_between};
use march_core::March;
use memory_desc::Memory;
use port_check::{CheckFault, PortAnswer, check_run};
use std::alloc::Global;
use verilog_cycle::Design;
use verilog_read::Style;
use verilog_tree::Name;

// The places of the words.
const MODULE: usize = 1;

const MARCH: usize = 2;

const MEMORY: usize = 3;

/// Appends a text, a cycle and a port.
fn put_place(line: &mut Vec<u8>, text: &[u8], cycle: u64, port: &Name) -> Result<(), NoMemory>
    ensures { OnOk result (line.new.items ≡ line.old.items ++ text.now ++ at_text cycle port.now.bytes) }
{
    put_number_between(line, text, cycle, b" port ")?;
    put(line, port.as_str().as_bytes())
}

/// The line of an answer.
fn answer_line(alloc: Global, answer: &PortAnswer) -> Result<Vec<u8>, NoMemory>
    ensures { IfOk result (λ line. line.items ≡ check_line answer.now) }
{
    let mut line = Vec::new(alloc);
    match answer {
        PortAnswer::Conforms { cycles } => {
            put_number_between(&mut line, b"conforms ", *cycles, b"\n")?;
        }
        PortAnswer::Differs {
            cycle,
            port,
            expected,
            got,
        } => {
            put_place(&mut line, b"differs cycle ", *cycle, port)?;
            put_number(&mut line, b" expected ", *expected as usize)?;
            put_number_between(&mut line, b" got ", *got, b"\n")?;
        }
        PortAnswer::Unknown { cycle, port } => {
            put_place(&mut line, b"unknown cycle ", *cycle, port)?;
            put(&mut line, b"\n")?;
        }
    }
    Ok(line)
}

/// Why nothing was run, as a refusal of the command.
fn run_refusal(fault: CheckFault) -> Refusal
    ensures answer { (mo : ModuleTree) (march : List MarchElement) (d : Description)
        → Refuses march d mo.ports (Some fault) → ChecksRun mo march d (Err result) }
    ensures own { IsOwnRefusal result }
{
    match fault {
        CheckFault::TooLong { cycles } => Refusal::TooLong { cycles },
        CheckFault::WrongPorts { name } => Refusal::Verilog(VerilogRefusal::WrongPort { name }),
        CheckFault::NoMemory => Refusal::NoMemory,
    }
}

/// The plan of an answer, or want of memory.
fn plan_answer(alloc: Global, answer: &PortAnswer) -> Result<Effects, Refusal>
    ensures done { IfOk result (λ plan. done_of plan ≡ check_done answer.now) }
    ensures wants { IfErr result (λ refusal. refusal ≡ Refusal.NoMemory) }
{
    let line = answer_line(alloc, answer)?;
    Ok(Effects {
        found: answer.is_amiss(),
        outputs: Vec::new(alloc),
        line,
    })
}

/// Runs a design with all that is not known left open.
fn check_design(
    alloc: Global,
    design: &Design,
    march: &March,
    memory: &Memory,
) -> Result<Effects, Refusal>
    ensures own { IfErr result IsOwnRefusal }
    ensures answer { ChecksRun design.now.tree march.now memory.now (plain result) }
    ensures outputs { IfOk result (λ plan. (done_of plan).outputs ≡ []) }
{
    match check_run(alloc, design, march, memory) {
        Ok(answer) => plan_answer(alloc, &answer),
        Err(fault) => Err(run_refusal(fault)),
    }
}

/// Decides the rest behind the module.
fn decide_run<H: Host>(
    alloc: Global,
    words: &[&str],
    host: &mut H,
    design: &Design,
) -> Result<Effects, Refusal>
    requires { HasForm check_form words.now }
    ensures kept { OnlyReads (H.state host.old) (H.state host.new) }
    ensures outputs { IfOk result (λ plan. NamesWords words.now (done_of plan).outputs) }
    ensures answer { DecidesRun (H.state host.old).files words.now design.now.tree (plain result) }
    ensures cause { HasCause (H.state host.old) (H.state host.new) result }
{
    let march = read_march_input(host, words, MARCH)?;
    let memory = read_memory_input(host, words, MEMORY)?;
    check_design(alloc, design, &march, &memory)
}

/// Checks whether the module of a file, which may be any with the ports of a self-test, issues the commands of the march.
pub fn decide_check<H: Host>(
    alloc: Global,
    words: &[&str],
    host: &mut H,
) -> Result<Effects, Refusal>
    requires { HasForm check_form words.now }
    ensures kept { OnlyReads (H.state host.old) (H.state host.new) }
    ensures outputs { IfOk result (λ plan. NamesWords words.now (done_of plan).outputs) }
    ensures answer { DecidesCheck (H.state host.old).files words.now (plain result) }
    ensures cause { HasCause (H.state host.old) (H.state host.new) result }
{
    let design = read_design_input(alloc, host, words, MODULE, Style::ByPrecedence)?;
    let plan = decide_run(alloc, words, host, &design);
    drop(design);
    plan
}
