//! The report of the couplings of a list.

ghost use Rattle.std.specs.Prelude.{◌≡◌, ◌++◌, IfOk, OnOk, codes};
ghost use Rattle.std.specs.List.{flat_map};
ghost use Rattle.word_coupling.specs.Report.{word_escape_text, readings_text, apart_line, unpaired_line, ReportsInWord};
ghost use Rattle.word_coupling.specs.inner.Judged.{judged_line, in_word_text};

use crate::judged::{JudgedCoupling, count_couplings, count_covered, judge_couplings};
use crate::judging::WordEscape;
use crate::reading::Readings;
use bist_bits::NoMemory;
use bist_text::{put, put_number_between};
use dynamic_core::Item;
use march_core::March;
use memory_desc::Memory;
use report_lines::{
    total_text, write_content, write_march, write_memory, write_places, write_prim, write_total,
};
use std::alloc::Global;

/// A report, its last line, and whether some coupling escapes.
#[derive(Drop)]
pub struct InWordReport {
    pub found: bool,
    pub bytes: Vec<u8>,
    pub line: Vec<u8>,
}

/// Appends the two bits of an escape, and what they hold.
fn write_escape(out: &mut Vec<u8>, escape: &WordEscape) -> Result<(), NoMemory>
    ensures { OnOk result (out.new.items ≡ out.old.items ++ word_escape_text escape.now) }
{
    write_places(out, Some(escape.agg), escape.vic)?;
    write_content(out, &[escape.content.a, escape.content.v])
}

/// What an escape's line ends with.
fn readings_words(readings: Readings) -> &'static [u8]
    ensures { result.now ≡ readings_text readings }
{
    match readings {
        Readings::BeforeAlone => b" reading before",
        Readings::BehindAlone => b" reading behind",
        Readings::Both => b" reading both",
    }
}

/// Appends the line of a coupling, without its end.
fn write_coupling(out: &mut Vec<u8>, judged: &JudgedCoupling) -> Result<(), NoMemory>
    ensures { OnOk result (out.new.items ++ codes "\n" ≡ out.old.items ++ judged_line judged.now) }
{
    match &judged.escape {
        None => write_prim(out, b"covered ", &judged.prim),
        Some(found) => {
            write_prim(out, b"escape ", &judged.prim)?;
            write_escape(out, &found.at)?;
            put(out, readings_words(found.readings))
        }
    }
}

/// Appends the lines of couplings.
fn write_couplings(out: &mut Vec<u8>, judged: &[JudgedCoupling]) -> Result<(), NoMemory>
    ensures { OnOk result (out.new.items ≡ out.old.items ++ flat_map judged_line judged.now) }
{
    for coupling in judged {
        write_coupling(out, coupling)?;
        put(out, b"\n")?;
    }
    Ok(())
}

/// Appends how many primitives of the list are no couplings.
fn write_apart(out: &mut Vec<u8>, count: usize) -> Result<(), NoMemory>
    ensures { OnOk result (out.new.items ≡ out.old.items ++ apart_line count) }
{
    put_number_between(out, b"apart ", count as u64, b"\n")
}

/// Appends how many couplings there are, where a word has no two bits.
fn write_unpaired(out: &mut Vec<u8>, memory: &Memory, count: usize) -> Result<(), NoMemory>
    ensures { OnOk result (out.new.items ≡ out.old.items ++ unpaired_line memory.now count) }
{
    if memory.bits() != 1 {
        return Ok(());
    }
    put_number_between(out, b"no two bits ", count as u64, b"\n")
}

/// The report of judged couplings, of a list with so many other primitives, and so many couplings.
fn write_judged(
    alloc: Global,
    march: &March,
    memory: &Memory,
    apart: usize,
    couplings: usize,
    judged: &[JudgedCoupling],
) -> Result<Vec<u8>, NoMemory>
    ensures { IfOk result (λ text. text.items ≡ in_word_text march.now memory.now apart couplings judged.now) }
{
    let mut out = Vec::new(alloc);
    write_march(alloc, &mut out, march)?;
    write_memory(&mut out, march, Some(memory))?;
    write_couplings(&mut out, judged)?;
    write_apart(&mut out, apart)?;
    write_unpaired(&mut out, memory, couplings)?;
    write_total(&mut out, judged.len(), count_covered(judged))?;
    Ok(out)
}

/// Judges the couplings of a list inside a word of a memory. The only refusal is want of memory.
pub fn report_in_word(
    alloc: Global,
    march: &March,
    memory: &Memory,
    items: &[Item],
) -> Result<InWordReport, NoMemory>
    ensures { IfOk result (λ r. ReportsInWord march.now memory.now items.now r.found r.bytes.items r.line.items) }
{
    let judged = judge_couplings(alloc, march, memory, items)?;
    let verdicts = judged.as_slice();
    let covered = count_covered(verdicts);
    let couplings = count_couplings(items);
    let apart = items.len() - couplings;
    Ok(InWordReport {
        found: covered < verdicts.len(),
        bytes: write_judged(alloc, march, memory, apart, couplings, verdicts)?,
        line: total_text(alloc, verdicts.len(), covered)?,
    })
}
