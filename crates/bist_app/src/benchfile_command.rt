//! The command `benchfile`: the module of a file against the first box.

ghost use Rattle.std.specs.Prelude.{◌≡◌, ◌≤◌, ◌<◌, [], Some, None, IfOk, IfErr, map, vec_len};
ghost use Rattle.bist_host.specs.Files.{OnlyReads};
ghost use Rattle.verilog_cycle.specs.Design.{IsNew};
ghost use Rattle.bist_endings.specs.Ending.{plain, done_of};
ghost use Rattle.bist_endings.specs.Conclude.{NamesWords};
ghost use Rattle.bist_inputs.specs.Inputs.{HasCause, IsOwnRefusal};
ghost use Rattle.self_test.specs.WrongPort.{wrong_port};
ghost use Rattle.bist_app.specs.Shared.{HasPorts, LeavesFirst};
ghost use Rattle.bist_app.specs.inner.RunsBeside.{FirstHasRoom};
ghost use Rattle.bist_app.specs.Forms.{HasForm};
ghost use Rattle.self_test.specs.Refusals.{IsShort};
ghost use Rattle.bist_app.specs.BenchFile.{LeavesBenchFile, TestsFile, DecidesFileRun, DecidesBenchFile, zero_registers, bench_file_form};

use crate::benching::run_beside;
use crate::boxes::{fit_room, want_box};
use crate::shared::fit_length;
use bist_endings::{Effects, Refusal, VerilogRefusal};
use bist_host::Host;
use bist_inputs::{read_design_input, read_march_input, read_memory_input};
use march_core::March;
use memory_desc::Memory;
use self_test::wrong_port;
use std::alloc::Global;
use verilog_cycle::Design;
use verilog_read::Style;
use word_device::Device;

// The places of the words.
const MODULE: usize = 1;

const MARCH: usize = 2;

const MEMORY: usize = 3;

/// Refuses ports that aren't those of a self-test of the memory.
#[tactic(auto, unfolding(crate::specs::Shared::HasPorts))]
fn fit_ports(design: &Design, memory: &Memory) -> Result<(), Refusal>
    ensures answer { HasPorts memory.now design.now.tree result }
    ensures own { IfErr result IsOwnRefusal }
    ensures ports { IfOk result (λ _. wrong_port memory.now design.now.tree.ports ≡ None) }
{
    match wrong_port(design.ports(), memory) {
        Some(name) => Err(Refusal::Verilog(VerilogRefusal::WrongPort { name })),
        None => Ok(()),
    }
}

/// The plan of the run, or want of memory.
fn plan_benchfile(
    alloc: Global,
    design: &mut Design,
    march: &March,
    memory: &Memory,
    devices: &mut Vec<Box<dyn Device>>,
) -> Result<Effects, Refusal>
    requires zero { design.old.registers ≡ zero_registers design.old.tree }
    requires short { IsShort march.now memory.now }
    requires ports { wrong_port memory.now design.old.tree.ports ≡ None }
    requires some { 0 < vec_len devices.old }
    requires room { FirstHasRoom memory.now.words (map (λ b. told b) devices.old.items) }
    ensures own { IfErr result IsOwnRefusal }
    ensures answer { LeavesBenchFile design.old.tree march.now memory.now (map (λ b. told b) devices.old.items) (plain result) }
    ensures left { LeavesFirst (map (λ b. told b) devices.old.items) (map (λ b. told b) devices.new.items) (plain result) }
    ensures outputs { IfOk result (λ plan. (done_of plan).outputs ≡ []) }
{
    run_beside(alloc, design, march, memory, &None, devices)
}

/// The checks behind the inputs, and the run.
fn test_design(
    alloc: Global,
    design: &mut Design,
    march: &March,
    memory: &Memory,
    devices: &mut Vec<Box<dyn Device>>,
) -> Result<Effects, Refusal>
    requires zero { design.old.registers ≡ zero_registers design.old.tree }
    ensures own { IfErr result IsOwnRefusal }
    ensures answer { TestsFile design.old.tree march.now memory.now (map (λ b. told b) devices.old.items)
        (map (λ b. told b) devices.new.items) (plain result) }
    ensures outputs { IfOk result (λ plan. (done_of plan).outputs ≡ []) }
{
    fit_length(march, memory)?;
    fit_ports(design, memory)?;
    want_box(devices)?;
    fit_room(devices, memory)?;
    plan_benchfile(alloc, design, march, memory, devices)
}

/// Decides the rest behind the module.
fn decide_design<H: Host>(
    alloc: Global,
    words: &[&str],
    host: &mut H,
    design: &mut Design,
    devices: &mut Vec<Box<dyn Device>>,
) -> Result<Effects, Refusal>
    requires shape { HasForm bench_file_form words.now }
    requires zero { design.old.registers ≡ zero_registers design.old.tree }
    ensures kept { OnlyReads (H.state host.old) (H.state host.new) }
    ensures outputs { IfOk result (λ plan. NamesWords words.now (done_of plan).outputs) }
    ensures answer { DecidesFileRun (H.state host.old).files (map (λ b. told b) devices.old.items)
        (map (λ b. told b) devices.new.items) words.now design.old.tree (plain result) }
    ensures cause { HasCause (H.state host.old) (H.state host.new) result }
{
    let march = read_march_input(host, words, MARCH)?;
    let memory = read_memory_input(host, words, MEMORY)?;
    test_design(alloc, design, &march, &memory, devices)
}

/// Runs the module of a file, which may be any with the ports of a self-test, against the first box.
pub fn decide_benchfile<H: Host>(
    alloc: Global,
    words: &[&str],
    host: &mut H,
    devices: &mut Vec<Box<dyn Device>>,
) -> Result<Effects, Refusal>
    requires { HasForm bench_file_form words.now }
    ensures kept { OnlyReads (H.state host.old) (H.state host.new) }
    ensures outputs { IfOk result (λ plan. NamesWords words.now (done_of plan).outputs) }
    ensures answer { DecidesBenchFile (H.state host.old).files (map (λ b. told b) devices.old.items)
        (map (λ b. told b) devices.new.items) words.now (plain result) }
    ensures cause { HasCause (H.state host.old) (H.state host.new) result }
{
    let mut design = read_design_input(alloc, host, words, MODULE, Style::Parenthesised)?;
    let plan = decide_design(alloc, words, host, &mut design, devices);
    drop(design);
    plan
}
