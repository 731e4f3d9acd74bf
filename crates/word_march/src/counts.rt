//! How many commands a march gives, and how many cycles its run takes.

ghost use Rattle.std.specs.Prelude.{◌≡◌, ◌≤◌};
ghost use Rattle.march_core.specs.March.{IsMarch};
ghost use Rattle.memory_desc.specs.Descriptions.{IsMemory};
ghost use Rattle.word_march.specs.Commands.{command_count, cycle_count, span};
ghost use Rattle.word_march.specs.inner.Standing.{pause_count};

use march_core::March;
use memory_desc::Memory;

/// How many commands there are: the operations of the march, times the words, times the backgrounds.
#[tactic(auto, using(crate::proofs::Count::command_count_is))]
pub fn length(march: &March, memory: &Memory) -> u64
    ensures count { result ≡ command_count march.now memory.now }
    ensures at_most { result ≤ 134217728 }
{
    march.known();
    let operations = march.total_ops() as u64;
    let words = u64::from(memory.words());
    let backgrounds = memory.backgrounds().len() as u64;
    backgrounds * (operations * words)
}

/// How many elements are pauses.
fn pause_count(march: &March) -> usize
    ensures count { result ≡ pause_count march.now }
    ensures few { result ≤ 64 }
{
    let mut count = 0;
    for element in 0..march.len() {
        if march.is_pause(element) {
            count += 1;
        }
    }
    count
}

/// How many cycles the run takes: one for each command, and those of each pause in each background.
pub fn span(march: &March, memory: &Memory) -> u64
    ensures count { result ≡ span march.now memory.now }
    ensures at_most { result ≤ 167771648 }
{
    let pauses = memory.backgrounds().len() as u64 * pause_count(march) as u64;
    length(march, memory) + u64::from(memory.pause()) * pauses
}

/// How many cycles a self-test takes: one for the reset, those of the run, those in which the last answer comes, and one in which its
/// comparison shows.
pub fn cycle_count(march: &March, memory: &Memory) -> u64
    ensures count { result ≡ cycle_count march.now memory.now }
    ensures some { 1 ≤ result }
    ensures march { IsMarch march.now }
    ensures memory { IsMemory memory.now }
{
    march.known();
    span(march, memory) + u64::from(memory.latency()) + 2
}
