//! The command `bench`: the self-test of a march and a memory against the first box.

ghost use Rattle.std.specs.Prelude.{◌≡◌, ◌≤◌, ◌<◌, [], IfOk, IfErr, length, map, vec_len};
ghost use Rattle.bist_host.specs.Files.{OnlyReads};
ghost use Rattle.bist_endings.specs.Ending.{plain, done_of};
ghost use Rattle.bist_endings.specs.Conclude.{NamesWords};
ghost use Rattle.bist_inputs.specs.Inputs.{HasCause, IsOwnRefusal};
ghost use Rattle.bist_app.specs.Shared.{LeavesFirst};
ghost use Rattle.bist_app.specs.inner.RunsBeside.{FirstHasRoom};
ghost use Rattle.bist_app.specs.Forms.{HasForm};
ghost use Rattle.self_test.specs.Refusals.{IsShort};
ghost use Rattle.bist_app.specs.Bench.{LeavesBench, TestsBench, DecidesBench, bench_form};

use crate::benching::test_beside;
use crate::boxes::{fit_room, want_box};
use crate::shared::fit_length;
use bist_endings::{Effects, Refusal};
use bist_host::Host;
use bist_inputs::{read_march_input, read_memory_input};
use march_core::March;
use memory_desc::Memory;
use std::alloc::Global;
use word_device::{Device, unplanted_passes};

// The places of the words.
const MARCH: usize = 1;

const MEMORY: usize = 2;

/// The plan of the run, or want of memory.
fn plan_bench(
    alloc: Global,
    march: &March,
    memory: &Memory,
    devices: &mut Vec<Box<dyn Device>>,
) -> Result<Effects, Refusal>
    requires short { IsShort march.now memory.now }
    requires some { 0 < vec_len devices.old }
    requires room { FirstHasRoom memory.now.words (map (λ b. told b) devices.old.items) }
    ensures own { IfErr result IsOwnRefusal }
    ensures answer { LeavesBench march.now memory.now (map (λ b. told b) devices.old.items) (plain result) }
    ensures left { LeavesFirst (map (λ b. told b) devices.old.items) (map (λ b. told b) devices.new.items) (plain result) }
    ensures outputs { IfOk result (λ plan. (done_of plan).outputs ≡ []) }
{
    unplanted_passes(march, memory);
    test_beside(alloc, march, memory, &None, devices)
}

/// The checks behind the inputs, and the run.
fn test_bench(
    alloc: Global,
    march: &March,
    memory: &Memory,
    devices: &mut Vec<Box<dyn Device>>,
) -> Result<Effects, Refusal>
    ensures own { IfErr result IsOwnRefusal }
    ensures answer { TestsBench march.now memory.now (map (λ b. told b) devices.old.items)
        (map (λ b. told b) devices.new.items) (plain result) }
    ensures outputs { IfOk result (λ plan. (done_of plan).outputs ≡ []) }
{
    fit_length(march, memory)?;
    want_box(devices)?;
    fit_room(devices, memory)?;
    plan_bench(alloc, march, memory, devices)
}

/// Runs the self-test of a memory by a march against the first box.
pub fn decide_bench<H: Host>(
    alloc: Global,
    words: &[&str],
    host: &mut H,
    devices: &mut Vec<Box<dyn Device>>,
) -> Result<Effects, Refusal>
    requires { HasForm bench_form words.now }
    ensures kept { OnlyReads (H.state host.old) (H.state host.new) }
    ensures outputs { IfOk result (λ plan. NamesWords words.now (done_of plan).outputs) }
    ensures answer { DecidesBench (H.state host.old).files (map (λ b. told b) devices.old.items)
        (map (λ b. told b) devices.new.items) words.now (plain result) }
    ensures cause { HasCause (H.state host.old) (H.state host.new) result }
{
    let march = read_march_input(host, words, MARCH)?;
    let memory = read_memory_input(host, words, MEMORY)?;
    test_bench(alloc, &march, &memory, devices)
}
