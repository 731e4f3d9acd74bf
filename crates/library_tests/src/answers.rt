//! The answers of the readers as text: what is read, as it is printed or counted, or why the text is refused. What `show`
//! says of a file is asked by rows of commands instead.

use crate::module_answers::{free_answer, module_answer};
use crate::refusals::refusal_text;
use crate::rows::Text;
use bist_endings::Refusal;
use dynamic_core::read_list;
use fault_syntax::{FaultFault, print_prim, read_prim};
use memory_desc::read_memory;
use self_test::wrong_port;
use std::alloc::Global;
use verilog_read::read_module;

/// A number in decimal.
fn number_text(alloc: Global, number: u64) -> Option<Vec<u8>> {
    let mut text = Text::new(alloc);
    text.put_number(number);
    text.finish()
}

fn fault_refusal(alloc: Global, fault: FaultFault) -> Option<Vec<u8>> {
    refusal_text(alloc, Refusal::Fault(fault))
}

/// The printed form of a primitive.
fn prim_answer(alloc: Global, text: &[u8]) -> Option<Vec<u8>> {
    match read_prim(text) {
        Ok(prim) => print_prim(&prim).as_str().as_bytes().to_vec(alloc).ok(),
        Err(fault) => fault_refusal(alloc, fault),
    }
}

/// How many primitives a list of static ones has.
fn list_answer(alloc: Global, text: &[u8]) -> Option<Vec<u8>> {
    match read_list(alloc, text) {
        Ok(prims) => number_text(alloc, prims.len() as u64),
        Err(fault) => fault_refusal(alloc, fault),
    }
}

/// The latency, the polarity and the pause of a memory.
fn timed_answer(alloc: Global, text: &[u8]) -> Option<Vec<u8>> {
    let memory = read_memory(text).ok()?;
    let mut answer = Text::new(alloc);
    answer.put_number(u64::from(memory.latency()));
    answer.put(b" ");
    answer.put_number(memory.polarity());
    answer.put(b" ");
    answer.put_number(u64::from(memory.pause()));
    answer.finish()
}

static SIXTEEN: &[u8] = b"memory 1\nname buf0\nwords 16\nbits 1\n";

/// The name of the port at which a module is no self-test of sixteen words, or nothing where it may be one.
fn wrong_answer(alloc: Global, text: &[u8]) -> Option<Vec<u8>> {
    let module = read_module(alloc, text).ok()?;
    let memory = read_memory(SIXTEEN).ok()?;
    match wrong_port(&module.ports, &memory) {
        Some(name) => name.as_str().as_bytes().to_vec(alloc).ok(),
        None => Some(Vec::new(alloc)),
    }
}

/// The answer to a question about a text.
pub(crate) fn answer_of(alloc: Global, kind: &str, text: &[u8]) -> Option<Vec<u8>> {
    match kind {
        "prim" => prim_answer(alloc, text),
        "list" => list_answer(alloc, text),
        "timed" => timed_answer(alloc, text),
        "module" => module_answer(alloc, text),
        "free" => free_answer(alloc, text),
        "wrong" => wrong_answer(alloc, text),
        _ => None,
    }
}
