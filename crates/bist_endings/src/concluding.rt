ghost use Rattle.std.specs.Prelude.{◌≡◌, ◌≤◌, ◌<◌, ◌++◌, map, IfOk, OnOk};
ghost use Rattle.bist_host.specs.Files.{OnlyWrites, OnlySays, WritesRose, SaysPrefix};
ghost use Rattle.bist_endings.specs.Ending.{plain, written_of, input_status, status_of, refusal_line, done_of, no_memory_line, write_failed_line};
ghost use Rattle.bist_endings.specs.Conclude.{NamesWords, WritesInOrder, HasWriteCause, SaysLine, RefusalEnds, SaysDone, DoneEnds, Ends};

use crate::chip_lines::{put_chip, put_unit};
use crate::ending::{Effects, Ended, InputRefusal, Misfit, Output, Refusal};
use crate::lines::{numbered, put_device, put_fault, put_march, put_numbered};
use crate::memory_lines::put_memory;
use crate::verilog_lines::put_verilog;
use bist_bits::NoMemory;
use bist_host::{Host, HostFault};
use bist_text::put;
use std::alloc::Global;

/// Why the writes stopped. A position is that of a word.
#[derive(Clone, Copy)]
pub enum WriteStop {
    Failed(usize),
    NoMemory,
}

/// How a say ended.
#[derive(Clone, Copy)]
pub enum SayEnd {
    Said,
    Failed,
    NoMemory,
}

/// Writes the files in their order, up to the first that can't be written.
fn write_outputs<H: Host>(host: &mut H, words: &[&str], outputs: &[Output]) -> Result<(), WriteStop>
    requires { NamesWords words.now (map written_of outputs.now) }
    ensures kept { OnlyWrites (H.state host.old) (H.state host.new) }
    ensures answer { WritesInOrder words.now (map written_of outputs.now) (H.state host.old).files (H.state host.new).files result }
    ensures cause { HasWriteCause (WritesRose (H.state host.old) (H.state host.new)) result }
{
    match outputs {
        [] => Ok(()),
        [first, rest @ ..] => match host.write_file(words[first.position], &first.bytes) {
            Ok(()) => write_outputs(host, words, rest),
            Err(HostFault::NoMemory) => Err(WriteStop::NoMemory),
            Err(_) => Err(WriteStop::Failed(first.position)),
        },
    }
}

/// Says a line.
fn say_line<H: Host>(host: &mut H, line: &[u8]) -> SayEnd
    ensures kept { OnlySays (H.state host.old) (H.state host.new) }
    ensures answer { SaysLine (H.state host.old) (H.state host.new) line.now result }
{
    match host.say(line) {
        Ok(()) => SayEnd::Said,
        Err(HostFault::NoMemory) => SayEnd::NoMemory,
        Err(_) => SayEnd::Failed,
    }
}

/// Appends the line of a refusal.
fn put_refusal(line: &mut Vec<u8>, refusal: Refusal) -> Result<(), NoMemory>
    ensures { OnOk result (line.new.items ≡ line.old.items ++ refusal_line refusal) }
{
    match refusal {
        Refusal::Usage => put(line, b"usage\n"),
        Refusal::March(fault) => put_march(line, fault),
        Refusal::Memory(fault) => put_memory(line, fault),
        Refusal::Fault(fault) => put_fault(line, fault),
        Refusal::TooLarge { position } => put_numbered(line, b"too large ", position),
        Refusal::ReadFailed { position } => put_numbered(line, b"read failed ", position),
        Refusal::Absent { position } => put_numbered(line, b"absent ", position),
        Refusal::TooLong { cycles } => put_numbered(line, b"too long ", cycles as usize),
        Refusal::Misfit(Misfit::Aggressor) => put(line, b"misfit aggressor\n"),
        Refusal::Misfit(Misfit::Directions) => put(line, b"misfit directions\n"),
        Refusal::Device(refusal) => put_device(line, refusal),
        Refusal::Verilog(refusal) => put_verilog(line, refusal),
        Refusal::Chip(refusal) => put_chip(line, refusal),
        Refusal::Unit { unit, refusal } => put_unit(line, unit, refusal),
        Refusal::NoMemory => put(line, b"no memory\n"),
    }
}

fn input_status(refusal: InputRefusal) -> u8
    ensures { result ≡ input_status refusal }
{
    match refusal {
        InputRefusal::March(_) => 3,
        InputRefusal::Memory(_) => 4,
        InputRefusal::TooLarge { .. } => 6,
        InputRefusal::ReadFailed { .. } => 7,
        InputRefusal::Absent { .. } => 10,
    }
}

fn status(refusal: &Refusal) -> u8
    ensures { result ≡ status_of refusal.now }
{
    match refusal {
        Refusal::Usage => 2,
        Refusal::March(_) => 3,
        Refusal::Memory(_) => 4,
        Refusal::Fault(_) => 5,
        Refusal::TooLarge { .. } => 6,
        Refusal::ReadFailed { .. } => 7,
        Refusal::NoMemory => 9,
        Refusal::Absent { .. } => 10,
        Refusal::Device(_) => 11,
        Refusal::TooLong { .. } => 12,
        Refusal::Misfit(_) => 13,
        Refusal::Verilog(_) => 14,
        Refusal::Chip(_) => 15,
        Refusal::Unit { refusal, .. } => input_status(*refusal),
    }
}

/// Says a refusal's line.
fn refuse<H: Host>(alloc: Global, host: &mut H, refusal: Refusal) -> Ended
    ensures kept { OnlySays (H.state host.old) (H.state host.new) }
    ensures answer { RefusalEnds refusal (H.state host.old) (H.state host.new) result.status }
{
    let status = status(&refusal);
    let mut line = Vec::new(alloc);
    match put_refusal(&mut line, refusal) {
        Ok(()) => match say_line(host, &line) {
            SayEnd::Said => Ended { status },
            SayEnd::Failed => Ended { status },
            SayEnd::NoMemory => Ended { status: 9 },
        },
        Err(NoMemory) => end_without_memory(host),
    }
}

/// Says that there was no memory.
fn end_without_memory<H: Host>(host: &mut H) -> Ended
    ensures kept { OnlySays (H.state host.old) (H.state host.new) }
    ensures said { SaysPrefix (H.state host.old).said (H.state host.new).said no_memory_line }
    ensures status { result.status ≡ 9 }
{
    say_line(host, b"no memory\n");
    Ended { status: 9 }
}

/// Says that a file couldn't be written.
fn end_failed_write<H: Host>(alloc: Global, host: &mut H, position: usize) -> Ended
    ensures kept { OnlySays (H.state host.old) (H.state host.new) }
    ensures said { SaysPrefix (H.state host.old).said (H.state host.new).said (write_failed_line position) }
    ensures status { result.status ≡ 8 }
{
    if let Ok(line) = numbered(alloc, b"write failed ", position) {
        say_line(host, &line);
    }
    Ended { status: 8 }
}

/// Says the line of a command that is done.
fn end_done<H: Host>(host: &mut H, plan: &Effects) -> Ended
    ensures kept { OnlySays (H.state host.old) (H.state host.new) }
    ensures answer { SaysDone (done_of plan.now) (H.state host.old) (H.state host.new) result.status }
{
    match say_line(host, &plan.line) {
        SayEnd::Said => Ended {
            status: if plan.found { 1 } else { 0 },
        },
        SayEnd::Failed => Ended { status: 8 },
        SayEnd::NoMemory => Ended { status: 9 },
    }
}

/// Writes the files of a command that is done, and says its line.
fn finish<H: Host>(alloc: Global, words: &[&str], host: &mut H, plan: &Effects) -> Ended
    requires { NamesWords words.now (done_of plan.now).outputs }
    ensures reads { (H.state host.new).read_faults ≡ (H.state host.old).read_faults }
    ensures writes { (H.state host.old).write_faults ≤ (H.state host.new).write_faults }
    ensures answer { DoneEnds words.now (done_of plan.now) (H.state host.old) (H.state host.new) result.status }
{
    match write_outputs(host, words, &plan.outputs) {
        Ok(()) => end_done(host, plan),
        Err(WriteStop::Failed(position)) => end_failed_write(alloc, host, position),
        Err(WriteStop::NoMemory) => end_without_memory(host),
    }
}

/// Ends a decided command.
pub fn conclude<H: Host>(
    alloc: Global,
    words: &[&str],
    host: &mut H,
    outcome: Result<Effects, Refusal>,
) -> Ended
    requires { IfOk outcome (λ plan. NamesWords words.now (done_of plan).outputs) }
    ensures reads { (H.state host.new).read_faults ≡ (H.state host.old).read_faults }
    ensures writes { (H.state host.old).write_faults ≤ (H.state host.new).write_faults }
    ensures answer { Ends words.now (plain outcome) (H.state host.old) (H.state host.new) result.status }
{
    match outcome {
        Ok(plan) => finish(alloc, words, host, &plan),
        Err(refusal) => refuse(alloc, host, refusal),
    }
}
