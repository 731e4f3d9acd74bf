ghost use Rattle.std.specs.Prelude.{◌≡◌, ◌≤◌, ◌⊎◌, IfOk, None, codes, map};
ghost use Rattle.bist_host.specs.Files.{ReadsRose, WritesRose};
ghost use Rattle.bist_endings.specs.Words.{word};
ghost use Rattle.bist_app.specs.Answer.{IsComplete, RunHasOneAnswer, HaveSameFiles};
ghost use Rattle.bist_app.specs.Conformance.{LeavesConformance};
ghost use Rattle.bist_app.specs.Headline.{LeavesCompilation};
ghost use Rattle.bist_app.specs.Run.{Runs, HasNoShape};
ghost use Rattle.bist_app.specs.TestedChip.{LeavesTestedChip};

use crate::commands::decide;
use bist_endings::{Ended, conclude};
use bist_host::Host;
use std::alloc::Global;
use word_device::Device;

/// Decides the command and ends it.
fn decide_and_end<H: Host>(
    alloc: Global,
    words: &[&str],
    host: &mut H,
    devices: &mut Vec<Box<dyn Device>>,
) -> Ended
    ensures reads { (H.state host.old).read_faults ≤ (H.state host.new).read_faults }
    ensures make { word words.now 0 ≡ codes "make" → (H.state host.new).read_faults ≡ (H.state host.old).read_faults }
    ensures writes { (H.state host.old).write_faults ≤ (H.state host.new).write_faults }
    ensures answer { Runs words.now (map (λ b. told b) devices.old.items) (map (λ b. told b) devices.new.items)
        (H.state host.old) (H.state host.new) result.status }
{
    let outcome = decide(alloc, words, host, devices);
    conclude(alloc, words, host, outcome)
}

/// Runs the command that the words give: reads its files, writes its outputs, says its line, and ends with a status.
pub fn run<H: Host>(
    alloc: Global,
    words: &[&str],
    host: &mut H,
    devices: &mut Vec<Box<dyn Device>>,
) -> Ended
    ensures reads { (H.state host.old).read_faults ≤ (H.state host.new).read_faults }
    ensures make { word words.now 0 ≡ codes "make" → (H.state host.new).read_faults ≡ (H.state host.old).read_faults }
    ensures writes { (H.state host.old).write_faults ≤ (H.state host.new).write_faults }
    ensures answer { Runs words.now (map (λ b. told b) devices.old.items) (map (λ b. told b) devices.new.items)
        (H.state host.old) (H.state host.new) result.status }
    ensures complete { IsComplete words.now (map (λ b. told b) devices.old.items) (map (λ b. told b) devices.new.items)
        (H.state host.old) (H.state host.new) result.status }

    // What `compile` leaves where it ends with 0 or 1.
    ensures compilation { LeavesCompilation words.now (H.state host.old) (H.state host.new) result.status }

    // What `check` tells where it ends with 0 or 1.
    ensures conformance { LeavesConformance words.now (H.state host.old) (H.state host.new) result.status }

    // What `chip` leaves where it ends with 0.
    ensures tested_chip { LeavesTestedChip words.now (H.state host.old) (H.state host.new) result.status }

    ensures one_answer { RunHasOneAnswer (H.state host.old).files (map (λ b. told b) devices.old.items) words.now }
    ensures one_files { HaveSameFiles (H.state host.old).files (map (λ b. told b) devices.old.items) words.now }

    // When the statuses of words and of faults come.
    ensures usage { result.status ≡ 2 → HasNoShape words.now }
    ensures no_shape { HasNoShape words.now → (result.status ≡ 2) ⊎ (result.status ≡ 9) }
    ensures read_fault { result.status ≡ 7 → ReadsRose (H.state host.old) (H.state host.new) }
    ensures write_fault { result.status ≡ 8 → WritesRose (H.state host.old) (H.state host.new) }
    ensures not_told { (H.state host.old).files ≡ None → (result.status ≡ 6) ⊎ (result.status ≡ 10)
        → ReadsRose (H.state host.old) (H.state host.new) }
{
    decide_and_end(alloc, words, host, devices)
}
