//! The command `vectors`: the commands at a memory's port, a line each.

ghost use Rattle.std.specs.Prelude.{◌≡◌, ◌≤◌, ◌<◌, ◌^◌, ◌++◌, IfOk, IfErr, OnOk};
ghost use Rattle.bist_host.specs.Files.{OnlyReads};
ghost use Rattle.word_march.specs.Commands.{port_ops};
ghost use Rattle.bist_endings.specs.Ending.{plain, done_of};
ghost use Rattle.bist_inputs.specs.Inputs.{HasCause, IsOwnRefusal};
ghost use Rattle.bist_endings.specs.Conclude.{NamesWords};
ghost use Rattle.bist_app.specs.Forms.{HasForm};
ghost use Rattle.bist_app.specs.Vectors.{command_line, command_lines, vectors_done, LeavesVectors, DecidesVectors, vectors_form};

use crate::parts::one_output;
use crate::shared::fit_length;
use bist_bits::NoMemory;
use bist_endings::{Effects, Refusal, numbered};
use bist_host::Host;
use bist_inputs::{read_march_input, read_memory_input};
use bist_text::{put, put_number_between, put_word};
use march_core::March;
use memory_desc::Memory;
use std::alloc::Global;
use word_march::{PortOp, port_ops};

// The places of the words.
const MARCH: usize = 1;

const MEMORY: usize = 2;
/// The word that names the file of the commands.
const OUT: usize = 3;

/// Appends a command's line.
fn put_command(out: &mut Vec<u8>, command: PortOp, bits: u8) -> Result<(), NoMemory>
    requires bits { bits ≤ 64 }
    requires fits { command.word < 2 ^ bits }
    ensures { OnOk result (out.new.items ≡ out.old.items ++ command_line bits command) }
{
    let kind: &[u8] = if command.write { b"w " } else { b"r " };
    put_number_between(out, kind, u64::from(command.addr), b" ")?;
    put_word(out, bits, command.word)?;
    put(out, b"\n")
}

/// The commands, a line each.
fn put_commands(alloc: Global, march: &March, memory: &Memory) -> Result<Vec<u8>, NoMemory>
    ensures { IfOk result (λ text. text.items ≡ command_lines memory.now.bits (port_ops march.now memory.now)) }
{
    let mut text = Vec::new(alloc);
    let bits = memory.bits();
    for command in port_ops(march, memory) {
        put_command(&mut text, command, bits)?;
    }
    Ok(text)
}

/// The commands as a plan.
#[tactic(auto, unfolding(crate::specs::Vectors::LeavesVectors))]
fn plan_vectors(alloc: Global, march: &March, memory: &Memory) -> Result<Effects, Refusal>
    ensures own { IfErr result IsOwnRefusal }
    ensures answer { LeavesVectors march.now memory.now (plain result) }
    ensures outputs { IfOk result (λ plan. done_of plan ≡ vectors_done march.now memory.now) }
{
    let text = put_commands(alloc, march, memory)?;
    let count = word_march::length(march, memory) as usize;
    let line = numbered(alloc, b"vectors ", count)?;
    let outputs = one_output(alloc, OUT, text)?;
    Ok(Effects {
        found: false,
        outputs,
        line,
    })
}

/// Lists the commands of a march on a memory.
pub fn decide_vectors<H: Host>(
    alloc: Global,
    words: &[&str],
    host: &mut H,
) -> Result<Effects, Refusal>
    requires { HasForm vectors_form words.now }
    ensures kept { OnlyReads (H.state host.old) (H.state host.new) }
    ensures outputs { IfOk result (λ plan. NamesWords words.now (done_of plan).outputs) }
    ensures answer { DecidesVectors (H.state host.old).files words.now (plain result) }
    ensures cause { HasCause (H.state host.old) (H.state host.new) result }
{
    let march = read_march_input(host, words, MARCH)?;
    let memory = read_memory_input(host, words, MEMORY)?;
    fit_length(&march, &memory)?;
    plan_vectors(alloc, &march, &memory)
}
