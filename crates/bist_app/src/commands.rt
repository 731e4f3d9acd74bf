//! The table of the commands: which there are, the name and the form of each, and the function that decides it.

ghost use Rattle.std.specs.Prelude.{◌≡◌, ◌↔◌, IsTrue, IfOk, MatchOption, codes, map};
ghost use Rattle.bist_host.specs.Files.{OnlyReads};
ghost use Rattle.bist_endings.specs.Ending.{plain, done_of};
ghost use Rattle.bist_endings.specs.Conclude.{NamesWords};
ghost use Rattle.bist_endings.specs.Words.{word};
ghost use Rattle.bist_inputs.specs.Inputs.{HasCause};
ghost use Rattle.bist_app.specs.Run.{command_named, IsFormed, HasNoForm, Decides};

use crate::bench_command::decide_bench;
use crate::benchall_command::decide_bench_all;
use crate::benchfault_command::decide_fault;
use crate::benchfile_command::decide_benchfile;
use crate::check_command::decide_check;
use crate::chip::decide_chip;
use crate::compile::decide_compile;
use crate::decoder_command::decide_decoder;
use crate::forms::has_form;
use crate::inword_command::decide_in_word;
use crate::judge::decide_judge;
use crate::linked_command::decide_linked;
use crate::make::decide_make;
use crate::show_command::decide_show;
use crate::sim::decide_sim;
use crate::vectors::decide_vectors;
use bist_endings::{Effects, Refusal};
use bist_host::Host;
use std::alloc::Global;
use word_device::Device;

/// What the words ask for.
#[derive(Clone, Copy)]
pub enum Command {
    Sim,
    Judge,
    Decoder,
    Linked,
    Vectors,
    Compile,
    InWord,
    Make,
    Bench,
    BenchFile,
    BenchFault,
    BenchAll,
    Check,
    Chip,
    Show,
}

/// The command of a name.
fn command_named(name: &str) -> Option<Command>
    ensures { result ≡ command_named name.now }
{
    match name {
        "sim" => Some(Command::Sim),
        "judge" => Some(Command::Judge),
        "decoder" => Some(Command::Decoder),
        "linked" => Some(Command::Linked),
        "vectors" => Some(Command::Vectors),
        "compile" => Some(Command::Compile),
        "inword" => Some(Command::InWord),
        "make" => Some(Command::Make),
        "bench" => Some(Command::Bench),
        "benchfile" => Some(Command::BenchFile),
        "benchfault" => Some(Command::BenchFault),
        "benchall" => Some(Command::BenchAll),
        "check" => Some(Command::Check),
        "chip" => Some(Command::Chip),
        "show" => Some(Command::Show),
        _ => None,
    }
}

/// Whether the words have the form of a command.
fn is_formed(words: &[&str], command: Command) -> bool
    ensures { IsTrue result ↔ IsFormed words.now command }
{
    match command {
        Command::Sim => has_form(words, "sim", 8, 1, 2),
        Command::Judge => has_form(words, "judge", 4, 1, 4),
        Command::Decoder => has_form(words, "decoder", 3, 1, 3),
        Command::Linked => has_form(words, "linked", 3, 1, 3),
        Command::Vectors => has_form(words, "vectors", 4, 1, 4),
        Command::Compile => has_form(words, "compile", 6, 1, 6),
        Command::InWord => has_form(words, "inword", 5, 1, 5),
        Command::Make => has_form(words, "make", 7, 2, 7),
        Command::Bench => has_form(words, "bench", 3, 1, 3),
        Command::BenchFile => has_form(words, "benchfile", 4, 1, 4),
        Command::BenchFault => has_form(words, "benchfault", 6, 1, 3),
        Command::BenchAll => has_form(words, "benchall", 3, 1, 3),
        Command::Check => has_form(words, "check", 4, 1, 4),
        Command::Chip => has_form(words, "chip", 3, 1, 3),
        Command::Show => has_form(words, "show", 3, 2, 3),
    }
}

/// The command whose form the words have.
fn command_of(words: &[&str]) -> Option<Command>
    ensures { MatchOption result (HasNoForm words.now) (λ command. IsFormed words.now command) }
{
    if words.is_empty() {
        return None;
    }
    let command = command_named(words[0])?;
    if !is_formed(words, command) {
        return None;
    }
    Some(command)
}

/// What the command leaves, or why it is refused.
pub fn decide<H: Host>(
    alloc: Global,
    words: &[&str],
    host: &mut H,
    devices: &mut Vec<Box<dyn Device>>,
) -> Result<Effects, Refusal>
    ensures kept { OnlyReads (H.state host.old) (H.state host.new) }
    ensures outputs { IfOk result (λ plan. NamesWords words.now (done_of plan).outputs) }
    ensures answer { Decides (H.state host.old).files (map (λ b. told b) devices.old.items)
        (map (λ b. told b) devices.new.items) words.now (plain result) }
    ensures cause { HasCause (H.state host.old) (H.state host.new) result }
    ensures make { word words.now 0 ≡ codes "make" → (H.state host.new).read_faults ≡ (H.state host.old).read_faults }
{
    match command_of(words) {
        None => Err(Refusal::Usage),
        Some(Command::Sim) => decide_sim(alloc, words, host),
        Some(Command::Judge) => decide_judge(alloc, words, host),
        Some(Command::Decoder) => decide_decoder(alloc, words, host),
        Some(Command::Linked) => decide_linked(alloc, words, host),
        Some(Command::Vectors) => decide_vectors(alloc, words, host),
        Some(Command::Compile) => decide_compile(alloc, words, host),
        Some(Command::InWord) => decide_in_word(alloc, words, host),
        Some(Command::Make) => decide_make(alloc, words),
        Some(Command::Bench) => decide_bench(alloc, words, host, devices),
        Some(Command::BenchFile) => decide_benchfile(alloc, words, host, devices),
        Some(Command::BenchFault) => decide_fault(alloc, words, host, devices),
        Some(Command::BenchAll) => decide_bench_all(alloc, words, host, devices),
        Some(Command::Check) => decide_check(alloc, words, host),
        Some(Command::Chip) => decide_chip(alloc, words, host),
        Some(Command::Show) => decide_show(alloc, words, host),
    }
}
