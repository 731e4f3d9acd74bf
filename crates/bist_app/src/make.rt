//! The command `make`: large inputs that a number makes, compiled, and a summary.

ghost use Rattle.std.specs.Prelude.{◌≡◌, ◌≤◌, Ok, IfOk, IfErr, map, length};
ghost use Rattle.march_core.specs.March.{all_ops};
ghost use Rattle.word_march.specs.Commands.{command_count};
ghost use Rattle.dynamic_core.specs.Items.{ReadsItems};
ghost use Rattle.bist_endings.specs.Ending.{plain, done_of, written_of};
ghost use Rattle.bist_endings.specs.Conclude.{NamesWords};
ghost use Rattle.bist_inputs.specs.Inputs.{IsOwnRefusal};
ghost use Rattle.bist_app.specs.Make.{IsMakeShape, made_outputs, made_line, IsMadeOf, IsMade, DecidesMake, make_form};
ghost use Rattle.bist_app.specs.Forms.{HasForm};
ghost use Rattle.bist_endings.specs.Then.{SaysOwn};

use crate::compile::module_text;
use crate::parts::listed;
use crate::reporting::report_list;
use bist_bits::NoMemory;
use bist_endings::{Effects, Output, Refusal, number_of, put_number};
use bist_text::put_number_between;
use dynamic_core::Item;
use made_inputs::{items_of_list, list_text, march_of, march_text, memory_of};
use march_core::March;
use memory_desc::{Memory, print_memory};
use std::alloc::Global;

// The places of the words.
const NUMBER: usize = 1;

const MARCH: usize = 2;

const MEMORY: usize = 3;

const FAULTS: usize = 4;

const VERILOG: usize = 5;

const REPORT: usize = 6;

/// The greatest number: a memory has at most 65,536 words, which is two more.
const MOST: usize = 65_534;

/// The number that the words say, which are refused where they don't.
fn own_words(words: &[&str]) -> Result<u16, Refusal>
    requires { HasForm make_form words.now }
    ensures answer { SaysOwn (IsMakeShape words.now) result }
    ensures own { IfErr result IsOwnRefusal }
{
    match number_of(words[NUMBER]) {
        Some(number) if number <= MOST => Ok(number as u16),
        _ => Err(Refusal::Usage),
    }
}

/// The summary.
fn summary(
    alloc: Global,
    march: &March,
    memory: &Memory,
    covered: usize,
    count: usize,
) -> Result<Vec<u8>, NoMemory>
    ensures { IfOk result (λ line. line.items
        ≡ made_line (length march.now) (length (all_ops march.now))
        (command_count march.now memory.now) covered count) }
{
    let commands = word_march::length(march, memory);
    let mut line = Vec::new(alloc);
    put_number(&mut line, b"made elements ", march.len())?;
    put_number(&mut line, b" operations ", march.total_ops())?;
    put_number(&mut line, b" commands ", commands as usize)?;
    put_number(&mut line, b" covered ", covered)?;
    put_number_between(&mut line, b" of ", count as u64, b"\n")?;
    Ok(line)
}

/// The files in their order.
fn outputs_of(
    alloc: Global,
    march: Vec<u8>,
    memory: Vec<u8>,
    list: Vec<u8>,
    verilog: Vec<u8>,
    report: Vec<u8>,
) -> Result<Vec<Output>, NoMemory>
    ensures { IfOk result (λ outputs. map written_of outputs.items
        ≡ made_outputs march.items memory.items list.items verilog.items report.items) }
{
    let outputs = [
        Output {
            position: MARCH,
            bytes: march,
        },
        Output {
            position: MEMORY,
            bytes: memory,
        },
        Output {
            position: FAULTS,
            bytes: list,
        },
        Output {
            position: VERILOG,
            bytes: verilog,
        },
        Output {
            position: REPORT,
            bytes: report,
        },
    ];
    listed(alloc, outputs)
}

/// The inputs, the module, the report and the summary as a plan.
fn made_of(
    alloc: Global,
    march: &March,
    memory: &Memory,
    items: &[Item],
    listed: Vec<u8>,
) -> Result<Effects, NoMemory>
    requires { ReadsItems listed.items (Ok items.now) }
    ensures { IfOk result (λ plan. IsMadeOf march.now memory.now items.now listed.items (done_of plan)) }
{
    let march_bytes = march_text(alloc, march)?;
    memory.known();
    let memory_bytes = print_memory(alloc, memory)?;
    let verilog = module_text(alloc, march, memory)?;
    let reported = report_list(alloc, march, Some(memory), items)?;
    let line = summary(alloc, march, memory, reported.covered, items.len())?;
    let outputs = outputs_of(
        alloc,
        march_bytes,
        memory_bytes,
        listed,
        verilog,
        reported.bytes,
    )?;
    Ok(Effects {
        found: reported.found,
        outputs,
        line,
    })
}

/// What a number makes.
fn made(alloc: Global, number: u16) -> Result<Effects, NoMemory>
    requires { number ≤ 65534 }
    ensures { IfOk result (λ plan. IsMade number (done_of plan)) }
{
    let march = march_of(number);
    let memory = memory_of(alloc, number)?;
    let listed = list_text(alloc)?;
    let items = items_of_list(alloc, &listed)?;
    made_of(alloc, &march, &memory, &items, listed)
}

/// Makes the inputs of the number that the words say, and compiles them.
#[tactic(auto, unfolding(crate::specs::Make::LeavesMake))]
pub fn decide_make(alloc: Global, words: &[&str]) -> Result<Effects, Refusal>
    requires { HasForm make_form words.now }
    ensures own { IfErr result IsOwnRefusal }
    ensures answer { DecidesMake words.now (plain result) }
    ensures outputs { IfOk result (λ plan. NamesWords words.now (done_of plan).outputs) }
{
    let number = own_words(words)?;
    match made(alloc, number) {
        Ok(plan) => Ok(plan),
        Err(NoMemory) => Err(Refusal::NoMemory),
    }
}
