//! The answers to rows on modules, as text: what is read, what a module does, or why it is refused.

use crate::refusals::refusal_text;
use crate::rows::{Text, numbers};
use bist_endings::{Refusal, VerilogRefusal};
use std::alloc::Global;
use std::str;
use verilog_cycle::{Design, elaborate};
use verilog_emit::emit;
use verilog_read::{read_free, read_module};
use verilog_tree::{Module, ReadFault, fits, formed};

fn read_refusal(alloc: Global, fault: ReadFault) -> Option<Vec<u8>> {
    refusal_text(alloc, Refusal::Verilog(VerilogRefusal::Read(fault)))
}

/// What is written of a module, where it fits.
pub(crate) fn written(alloc: Global, module: &Module) -> Option<Vec<u8>> {
    if fits(module) {
        emit(alloc, module).ok()
    } else {
        None
    }
}

/// What is written of the module of a text in full parentheses.
fn whole_form(alloc: Global, text: &[u8]) -> Option<Vec<u8>> {
    written(alloc, &read_module(alloc, text).ok()?)
}

/// Whether this is written of the module of a text whose operators bind by precedence.
fn is_free_form(alloc: Global, text: &[u8], form: &[u8]) -> Option<bool> {
    Some(written(alloc, &read_free(alloc, text).ok()?)?.as_slice() == form)
}

/// What is written of a module, where that is read as it is written.
fn form(alloc: Global, module: &Module) -> Option<Vec<u8>> {
    let form = written(alloc, module)?;
    (whole_form(alloc, &form)?.as_slice() == form.as_slice()).then_some(form)
}

/// The printed form of a module.
pub(crate) fn module_answer(alloc: Global, text: &[u8]) -> Option<Vec<u8>> {
    match read_module(alloc, text) {
        Ok(module) => form(alloc, &module),
        Err(fault) => read_refusal(alloc, fault),
    }
}

/// Whether operators that bind by precedence give a module.
pub(crate) fn free_answer(alloc: Global, text: &[u8]) -> Option<Vec<u8>> {
    match read_free(alloc, text) {
        Ok(_) => b"yes".to_vec(alloc).ok(),
        Err(fault) => read_refusal(alloc, fault),
    }
}

/// The design of a module whose operators may bind by precedence.
pub(crate) fn designed(alloc: Global, text: &[u8]) -> Option<Design> {
    let module = read_free(alloc, text).ok()?;
    if !formed(&module) {
        return None;
    }
    elaborate(alloc, module).ok()
}

/// The text that has an expression in each of the four places where one may stand.
fn around(alloc: Global, x: &[u8]) -> Option<Vec<u8>> {
    let mut text = Text::new(alloc);
    text.put(
        b"module m(input clk,input a,input b,input c,input [3:0] d,output y,output reg q);assign y=",
    );
    text.put(x);
    text.put(b";always@(posedge clk)begin if(");
    text.put(x);
    text.put(b")q<=");
    text.put(x);
    text.put(b";case(");
    text.put(x);
    text.put(b")1'b1:q<=a;default q<=b;endcase end endmodule");
    text.finish()
}

/// Whether the reader makes the same of both, and of the second what the reader of full parentheses makes of it.
pub(crate) fn are_alike(alloc: Global, free: &[u8], whole: &[u8]) -> Option<bool> {
    let text = around(alloc, free)?;
    let same = around(alloc, whole)?;
    let form = whole_form(alloc, &same)?;
    Some(is_free_form(alloc, &text, &form)? && is_free_form(alloc, &same, &form)?)
}

/// Whether a cycle with these inputs shows these outputs.
fn shows(design: &mut Design, inputs: &[u64], outputs: &[u64]) -> Option<bool> {
    if !design.inputs_fit(inputs) {
        return None;
    }
    if design.outputs(inputs) != outputs {
        return None;
    }
    Some(design.clock(inputs) == outputs)
}

/// Whether a cycle with the inputs before the mark shows the outputs behind it.
fn shows_cycle(alloc: Global, design: &mut Design, cycle: &str) -> Option<bool> {
    let (inputs, outputs) = cycle.split_once('>')?;
    let inputs = numbers(alloc, inputs)?;
    let outputs = numbers(alloc, outputs)?;
    shows(design, &inputs, &outputs)
}

/// Gives the registers these values.
fn set_registers(alloc: Global, design: &mut Design, registers: &str) -> Option<()> {
    let registers = numbers(alloc, registers)?;
    if !design.registers_fit(&registers) {
        return None;
    }
    design.set_registers(&registers);
    Some(())
}

/// Whether a design shows these cycles, with `;` between them.
fn shows_all(alloc: Global, design: &mut Design, cycles: &str) -> Option<bool> {
    for cycle in cycles.split(';') {
        if !shows_cycle(alloc, design, cycle)? {
            return Some(false);
        }
    }
    Some(true)
}

/// Whether a module runs so: the values of its registers, and in each cycle the inputs, in port order without the
/// clock, and then the values of the output ports.
pub(crate) fn runs_so(alloc: Global, text: &[u8], run: &[u8]) -> Option<bool> {
    let (registers, cycles) = str::from_utf8(run).ok()?.split_once(';')?;
    let mut design = designed(alloc, text)?;
    set_registers(alloc, &mut design, registers)?;
    shows_all(alloc, &mut design, cycles)
}
