//! The line of each link.

ghost use Rattle.std.specs.Prelude.{◌≡◌, ◌≤◌, ◌++◌, OnOk, codes};
ghost use Rattle.std.specs.List.{flat_map};
ghost use Rattle.report_lines.specs.Lines.{aggressor_text};
ghost use Rattle.report_lines.specs.Listed.{escape_line};
ghost use Rattle.linked_report.specs.Report.{link_text, spots_text, escape_text};
ghost use Rattle.linked_report.specs.inner.Counted.{judged_link_line};

use crate::judged::JudgedLink;
use crate::kinds::kind_name;
use bist_bits::NoMemory;
use bist_text::{put, put_between, put_decimal};
use fault_syntax::print_prim;
use linked_faults::{Link, LinkEscape, first_places, kind_of, second_places};
use report_lines::write_passing;

/// Appends a verdict, the kind of a link and its two primitives.
fn write_link(out: &mut Vec<u8>, verdict: &[u8], link: &Link) -> Result<(), NoMemory>
    ensures { OnOk result (out.new.items ≡ out.old.items ++ (verdict.now ++ link_text link.now)) }
{
    put_between(out, verdict, kind_name(kind_of(link)), b" ")?;
    put_between(out, b"", print_prim(&link.first).as_str().as_bytes(), b" ")?;
    put(out, print_prim(&link.second).as_str().as_bytes())
}

/// Appends the cell of an aggressor behind its letter.
fn write_aggressor(out: &mut Vec<u8>, letter: &[u8], cell: Option<usize>) -> Result<(), NoMemory>
    ensures { OnOk result (out.new.items ≡ out.old.items ++ (letter.now ++ aggressor_text cell)) }
{
    put(out, letter)?;
    match cell {
        None => put(out, b"none"),
        Some(cell) => put_decimal(out, cell as u64),
    }
}

/// Appends the cells of the two aggressors and of the victim.
fn write_spots(out: &mut Vec<u8>, escape: &LinkEscape) -> Result<(), NoMemory>
    ensures { OnOk result (out.new.items ≡ out.old.items ++ spots_text escape.now) }
{
    write_aggressor(out, b" a ", first_places(&escape.link, escape.spots).agg)?;
    write_aggressor(out, b" b ", second_places(&escape.link, escape.spots).agg)?;
    put(out, b" v ")?;
    put_decimal(out, escape.spots.v as u64)
}

/// Appends the cells of an escape, what they hold, and the directions of a march with so many elements.
fn write_escape(out: &mut Vec<u8>, escape: &LinkEscape, size: usize) -> Result<(), NoMemory>
    requires { size ≤ 64 }
    ensures { OnOk result (out.new.items ≡ out.old.items ++ escape_text size escape.now) }
{
    let cells = escape.content;
    write_spots(out, escape)?;
    write_passing(out, &[cells.x, cells.y, cells.z], escape.directions, size)
}

/// Appends the line of a link that escapes, without its end.
fn write_escaping(
    out: &mut Vec<u8>,
    link: &Link,
    escape: &LinkEscape,
    size: usize,
) -> Result<(), NoMemory>
    requires { size ≤ 64 }
    ensures { OnOk result (out.new.items ++ codes "\n" ≡ out.old.items ++ escape_line (link_text link.now) (escape_text size escape.now)) }
{
    write_link(out, b"escape ", link)?;
    write_escape(out, escape, size)
}

/// Appends the line of a judged link, without its end.
fn write_line(out: &mut Vec<u8>, judged: &JudgedLink, size: usize) -> Result<(), NoMemory>
    requires { size ≤ 64 }
    ensures { OnOk result (out.new.items ++ codes "\n" ≡ out.old.items ++ judged_link_line size judged.now) }
{
    match &judged.escape {
        None => write_link(out, b"covered ", &judged.link),
        Some(escape) => write_escaping(out, &judged.link, escape, size),
    }
}

/// Appends the lines of judged links.
pub(crate) fn write_lines(
    out: &mut Vec<u8>,
    judged: &[JudgedLink],
    size: usize,
) -> Result<(), NoMemory>
    requires { size ≤ 64 }
    ensures { OnOk result (out.new.items ≡ out.old.items ++ flat_map (judged_link_line size) judged.now) }
{
    for link in judged {
        write_line(out, link, size)?;
        put(out, b"\n")?;
    }
    Ok(())
}
