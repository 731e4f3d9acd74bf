//! The self-test module against each box of a list: the module is made, written and read back once, and the line counts the boxes that fail.

ghost use Rattle.std.specs.Prelude.{◌≡◌, ◌<◌, ◌++◌, [], None, Some, IfErr, IfOk, OnOk, OnErr, length, map, replicate};
ghost use Rattle.verilog_cycle.specs.Design.{Fit, registers_of};
ghost use Rattle.self_test.specs.SelfTest.{SelfTest};
ghost use Rattle.word_device.specs.Ports.{shape_of as memory_shape};
ghost use Rattle.bist_endings.specs.Ending.{done_of, plain};
ghost use Rattle.bist_inputs.specs.Inputs.{IsOwnRefusal};
ghost use Rattle.self_test.specs.Refusals.{IsShort};
ghost use Rattle.bist_app.specs.BenchAll.{HaveRoom, LeavesAll, LeavesNone, all_line, AreGone};
ghost use Rattle.bist_app.specs.inner.BenchedBoxes.{IsEnd, CountsFailing};

use crate::benching::{run_design, self_test_design};
use crate::boxes::take_fitted;
use bist_bits::NoMemory;
use bist_endings::{Effects, Refusal, put_number};
use bist_text::put_number_between;
use march_core::March;
use memory_desc::Memory;
use std::alloc::Global;
use verilog_cycle::Design;
use word_device::{Device, unplanted_passes};

/// Appends the line that tells how many boxes failed.
fn put_failing(line: &mut Vec<u8>, count: usize, failing: usize) -> Result<(), NoMemory>
    ensures { OnOk result (line.new.items ≡ line.old.items ++ all_line count failing) }
{
    put_number(line, b"boxes ", count)?;
    put_number_between(line, b" failing ", failing as u64, b"\n")
}

/// Runs the self-test from registers 0 against a box that is fitted. The answer tells whether it ended with `fail`.
fn does_fail(
    design: &mut Design,
    zeros: &[u64],
    march: &March,
    memory: &Memory,
    device: Box<dyn Device>,
) -> bool
    requires test { SelfTest design.old.tree march.now memory.now }
    requires short { IsShort march.now memory.now }
    requires zeros { Fit (registers_of design.old.tree) zeros.now }
    requires fitted { (told device).shape ≡ Some (memory_shape memory.now) }
    ensures kept { design.new.tree ≡ design.old.tree }
    ensures end { IsEnd march.now memory.now (told device).tells result }
{
    design.set_registers(zeros);
    run_design(design, march, memory, device).fail
}

/// Runs the self-test against each box, which is fitted and taken. The answer is beside how many it ended with `fail`. Where a box finds
/// no memory to be fitted, it and those behind it stay.
fn bench_boxes(
    alloc: Global,
    design: &mut Design,
    march: &March,
    memory: &Memory,
    devices: &mut Vec<Box<dyn Device>>,
) -> Result<usize, NoMemory>
    requires test { SelfTest design.old.tree march.now memory.now }
    requires short { IsShort march.now memory.now }
    requires zero { design.old.registers ≡ map (λ _. 0) (registers_of design.old.tree) }
    requires some { 0 < length devices.old.items }
    requires rooms { HaveRoom memory.now.words (map (λ b. told b) devices.old.items) }
    ensures none_left { OnOk result (devices.new.items ≡ []) }
    ensures gone { OnErr result (AreGone (map (λ b. told b) devices.old.items) (map (λ b. told b) devices.new.items)) }
    ensures stays { OnErr result (0 < length devices.new.items) }
    ensures counts { IfOk result (λ failing. CountsFailing march.now memory.now (map (λ b. told b) devices.old.items) failing) }
{
    // a chip with nothing planted answers every read of the march right
    unplanted_passes(march, memory);
    let zeros = zeros_for(alloc, design)?;
    let mut failing = 0;
    while !devices.is_empty() {
        let device = take_fitted(devices, memory, &None)?;
        failing += usize::from(does_fail(design, &zeros, march, memory, device));
    }
    Ok(failing)
}

/// As many zeros as the design has registers, which hold 0.
fn zeros_for(alloc: Global, design: &Design) -> Result<Vec<u64>, NoMemory>
    ensures { IfOk result (λ zeros. zeros.items ≡ replicate (length design.now.registers) 0) }
{
    match Vec::from_elem(alloc, 0, design.register_count()) {
        Ok(zeros) => Ok(zeros),
        Err(_) => Err(NoMemory),
    }
}

/// Makes the self-test and runs it against each box, which is fitted and taken. The answer is beside how many it ended with `fail`. Where
/// memory runs out, some box stays.
fn failing_boxes(
    alloc: Global,
    march: &March,
    memory: &Memory,
    devices: &mut Vec<Box<dyn Device>>,
) -> Result<usize, NoMemory>
    requires short { IsShort march.now memory.now }
    requires some { 0 < length devices.old.items }
    requires rooms { HaveRoom memory.now.words (map (λ b. told b) devices.old.items) }
    ensures none_left { OnOk result (devices.new.items ≡ []) }
    ensures gone { OnErr result (AreGone (map (λ b. told b) devices.old.items) (map (λ b. told b) devices.new.items)) }
    ensures stays { OnErr result (0 < length devices.new.items) }
    ensures counts { IfOk result (λ failing. CountsFailing march.now memory.now (map (λ b. told b) devices.old.items) failing) }
{
    let mut design = self_test_design(alloc, march, memory)?;
    bench_boxes(alloc, &mut design, march, memory, devices)
}

/// The plan of the runs of the self-test against each box, which is fitted and taken.
#[tactic(auto, unfolding(crate::specs::BenchAll::LeavesAll))]
pub fn bench_all(
    alloc: Global,
    march: &March,
    memory: &Memory,
    devices: &mut Vec<Box<dyn Device>>,
) -> Result<Effects, Refusal>
    requires short { IsShort march.now memory.now }
    requires some { 0 < length devices.old.items }
    requires rooms { HaveRoom memory.now.words (map (λ b. told b) devices.old.items) }
    ensures own { IfErr result IsOwnRefusal }
    ensures answer { LeavesAll march.now memory.now (map (λ b. told b) devices.old.items) (plain result) }
    ensures left { LeavesNone (map (λ b. told b) devices.old.items) (map (λ b. told b) devices.new.items) (plain result) }
    ensures outputs { IfOk result (λ plan. (done_of plan).outputs ≡ []) }
{
    let count = devices.len();
    let failing = failing_boxes(alloc, march, memory, devices)?;
    let mut line = Vec::new(alloc);
    put_failing(&mut line, count, failing)?;
    Ok(Effects {
        found: failing > 0,
        outputs: Vec::new(alloc),
        line,
    })
}
