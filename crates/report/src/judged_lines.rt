ghost use Rattle.std.specs.Prelude.{◌≡◌, ◌≤◌, ◌++◌, OnOk, codes, length, take};
ghost use Rattle.dynamic_core.specs.declared.item.Item.TheVariants.{Dyn};
ghost use Rattle.report.specs.Report.{item_text, escape_text, dyn_escape_text, judged_line, judged_lines};

use crate::class_lines::{class_name, dyn_class};
use crate::judged::JudgedItem;
use bist_bits::NoMemory;
use bist_text::{put, put_between, put_number_between};
use coverage::Verdict;
use dynamic_core::{DynPrim, print_dyn};
use dynamic_prover::{DynEscape, DynVerdict};
use escape_array::EscapeArray;
use fault_core::Prim;
use report_lines::{write_passing, write_places, write_prim};

/// Appends a verdict, a dynamic primitive and its class.
fn write_dyn(out: &mut Vec<u8>, verdict: &[u8], prim: &DynPrim) -> Result<(), NoMemory>
    ensures { OnOk result (out.new.items ≡ out.old.items ++ (verdict.now ++ item_text (Dyn prim.now))) }
{
    put_between(out, verdict, print_dyn(prim).as_str().as_bytes(), b" ")?;
    put(out, class_name(dyn_class(prim)))
}

/// Appends an escape of a march with so many elements.
fn write_escape(out: &mut Vec<u8>, escape: &EscapeArray, size: usize) -> Result<(), NoMemory>
    requires { size ≤ 64 }
    ensures { OnOk result (out.new.items ≡ out.old.items ++ escape_text size escape.now) }
{
    write_places(out, escape.agg, escape.vic)?;
    write_passing(out, &escape.content[..], escape.directions, size)
}

/// The content of an escape's cells, which are the first of its five.
#[tactic(auto, using(std::proofs::lemmas::List::take_min))]
fn cells_of(escape: &DynEscape) -> &[bool]
    ensures { result.now ≡ take escape.now.size escape.now.content }
{
    let content = &escape.content[..];
    let count = usize::from(escape.size).min(content.len());
    &content[..count]
}

/// Appends an escape of a dynamic primitive, with a digit for each of its cells.
fn write_dyn_escape(out: &mut Vec<u8>, escape: &DynEscape, size: usize) -> Result<(), NoMemory>
    requires { size ≤ 64 }
    ensures { OnOk result (out.new.items ≡ out.old.items ++ dyn_escape_text size escape.now) }
{
    put_number_between(out, b" cells ", u64::from(escape.size), b"")?;
    write_places(out, escape.agg, escape.vic)?;
    write_passing(out, cells_of(escape), escape.directions, size)
}

/// Appends the line of a static primitive with its verdict, without its end.
fn write_plain_line(
    out: &mut Vec<u8>,
    prim: &Prim,
    verdict: &Verdict,
    size: usize,
) -> Result<(), NoMemory>
    requires { size ≤ 64 }
    ensures { OnOk result (out.new.items ++ codes "\n" ≡ out.old.items ++ judged_line size (JudgedItem.Plain prim.now verdict.now)) }
{
    match verdict {
        Verdict::Covered => write_prim(out, b"covered ", prim),
        Verdict::Escape(escape) => {
            write_prim(out, b"escape ", prim)?;
            write_escape(out, escape, size)
        }
    }
}

/// Appends the line of a dynamic primitive with its verdict, without its end.
fn write_dyn_line(
    out: &mut Vec<u8>,
    prim: &DynPrim,
    verdict: &DynVerdict,
    size: usize,
) -> Result<(), NoMemory>
    requires { size ≤ 64 }
    ensures { OnOk result (out.new.items ++ codes "\n" ≡ out.old.items ++ judged_line size (JudgedItem.Dyn prim.now verdict.now)) }
{
    match verdict {
        DynVerdict::Covered => write_dyn(out, b"covered ", prim),
        DynVerdict::Escape(escape) => {
            write_dyn(out, b"escape ", prim)?;
            write_dyn_escape(out, escape, size)
        }
    }
}

/// Appends the line of a judged item, without its end.
fn write_line(out: &mut Vec<u8>, judged: &JudgedItem, size: usize) -> Result<(), NoMemory>
    requires { size ≤ 64 }
    ensures { OnOk result (out.new.items ++ codes "\n" ≡ out.old.items ++ judged_line size judged.now) }
{
    match judged {
        JudgedItem::Plain(prim, verdict) => write_plain_line(out, prim, verdict, size),
        JudgedItem::Dyn(prim, verdict) => write_dyn_line(out, prim, verdict, size),
    }
}

/// Appends the lines of judged items.
pub(crate) fn write_lines(
    out: &mut Vec<u8>,
    judged: &[JudgedItem],
    size: usize,
) -> Result<(), NoMemory>
    requires { size ≤ 64 }
    ensures { OnOk result (out.new.items ≡ out.old.items ++ judged_lines size judged.now) }
{
    for item in judged {
        write_line(out, item, size)?;
        put(out, b"\n")?;
    }
    Ok(())
}
