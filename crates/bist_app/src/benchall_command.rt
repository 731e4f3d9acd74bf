//! The command `benchall`: the self-test of a march and a memory against each box.

ghost use Rattle.std.specs.Prelude.{◌≡◌, ◌≤◌, ◌<◌, [], IfOk, IfErr, MatchOption, map};
ghost use Rattle.bist_host.specs.Files.{OnlyReads};
ghost use Rattle.bist_endings.specs.Ending.{plain, done_of};
ghost use Rattle.bist_endings.specs.Conclude.{NamesWords};
ghost use Rattle.bist_inputs.specs.Inputs.{HasCause, IsOwnRefusal};
ghost use Rattle.bist_app.specs.Forms.{HasForm};
ghost use Rattle.bist_app.specs.BenchAll.{HaveRoom, FitsRooms, TestsAll, DecidesBenchAll, bench_all_form};
ghost use Rattle.bist_app.specs.inner.BenchedBoxes.{SmallRoom};

use crate::benching_all::bench_all;
use crate::boxes::{room_of_box, want_box};
use crate::shared::fit_length;
use bist_endings::{DeviceRefusal, Effects, Refusal};
use bist_host::Host;
use bist_inputs::{read_march_input, read_memory_input};
use march_core::March;
use memory_desc::Memory;
use std::alloc::Global;
use word_device::Device;

// The places of the words.
const MARCH: usize = 1;

const MEMORY: usize = 2;

/// The room of the first box that has none for so many words, if there is one.
fn small_room(devices: &[Box<dyn Device>], words: u32) -> Option<u32>
    ensures { MatchOption result (HaveRoom words (map (λ b. told b) devices.now))
        (λ room. SmallRoom words (map (λ b. told b) devices.now) room) }
{
    match devices {
        [] => None,
        [first, rest @ ..] => {
            let room = room_of_box(first);
            if room < words {
                Some(room)
            } else {
                small_room(rest, words)
            }
        }
    }
}

/// Refuses a box with room for fewer words than the memory has.
#[tactic(auto, using(crate::proofs::SmallRooms::first_small), unfolding(crate::specs::BenchAll::FitsRooms))]
fn fit_rooms(devices: &[Box<dyn Device>], memory: &Memory) -> Result<(), Refusal>
    ensures answer { FitsRooms memory.now (map (λ b. told b) devices.now) result }
    ensures own { IfErr result IsOwnRefusal }
    ensures rooms { IfOk result (λ _. HaveRoom memory.now.words (map (λ b. told b) devices.now)) }
{
    let words = memory.words();
    match small_room(devices, words) {
        None => Ok(()),
        Some(room) => Err(Refusal::Device(DeviceRefusal::TooSmall { words, room })),
    }
}

/// The checks behind the inputs, and the runs.
fn test_all(
    alloc: Global,
    march: &March,
    memory: &Memory,
    devices: &mut Vec<Box<dyn Device>>,
) -> Result<Effects, Refusal>
    ensures own { IfErr result IsOwnRefusal }
    ensures answer { TestsAll march.now memory.now (map (λ b. told b) devices.old.items)
        (map (λ b. told b) devices.new.items) (plain result) }
    ensures outputs { IfOk result (λ plan. (done_of plan).outputs ≡ []) }
{
    fit_length(march, memory)?;
    want_box(devices)?;
    fit_rooms(devices, memory)?;
    bench_all(alloc, march, memory, devices)
}

/// Runs the self-test of a memory by a march against each box.
pub fn decide_bench_all<H: Host>(
    alloc: Global,
    words: &[&str],
    host: &mut H,
    devices: &mut Vec<Box<dyn Device>>,
) -> Result<Effects, Refusal>
    requires { HasForm bench_all_form words.now }
    ensures kept { OnlyReads (H.state host.old) (H.state host.new) }
    ensures outputs { IfOk result (λ plan. NamesWords words.now (done_of plan).outputs) }
    ensures answer { DecidesBenchAll (H.state host.old).files (map (λ b. told b) devices.old.items)
        (map (λ b. told b) devices.new.items) words.now (plain result) }
    ensures cause { HasCause (H.state host.old) (H.state host.new) result }
{
    let march = read_march_input(host, words, MARCH)?;
    let memory = read_memory_input(host, words, MEMORY)?;
    test_all(alloc, &march, &memory, devices)
}
