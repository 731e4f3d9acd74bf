//! The parts of the line of an escape: a primitive, its places, what the cells hold, and the directions.

ghost use Rattle.std.specs.Prelude.{◌≡◌, ◌<◌, ◌≤◌, ◌++◌, OnOk, codes};
ghost use Rattle.march_core.specs.Visits.{direction_at};
ghost use Rattle.fault_syntax.specs.PrimText.{bit_text};
ghost use Rattle.report_lines.specs.Lines.{letter, prim_text, aggressor_text, places_text, content_text, directions_text, passing_text};

use bist_bits::NoMemory;
use bist_text::{put, put_between, put_decimal, put_number_between};
use fault_core::{Prim, class_of};
use fault_syntax::{class_name, print_prim};
use march_core::is_down;

/// Appends a verdict, a static primitive and its class.
pub fn write_prim(out: &mut Vec<u8>, verdict: &[u8], prim: &Prim) -> Result<(), NoMemory>
    ensures { OnOk result (out.new.items ≡ out.old.items ++ (verdict.now ++ prim_text prim.now)) }
{
    put_between(out, verdict, print_prim(prim).as_str().as_bytes(), b" ")?;
    put(out, class_name(class_of(prim)).as_bytes())
}

fn write_aggressor(out: &mut Vec<u8>, agg: Option<u8>) -> Result<(), NoMemory>
    ensures { OnOk result (out.new.items ≡ out.old.items ++ (codes " aggressor " ++ aggressor_text agg ++ codes " victim ")) }
{
    match agg {
        None => put(out, b" aggressor none victim "),
        Some(cell) => put_number_between(out, b" aggressor ", u64::from(cell), b" victim "),
    }
}

/// Appends where an instance stands.
pub fn write_places(out: &mut Vec<u8>, agg: Option<u8>, vic: u8) -> Result<(), NoMemory>
    ensures { OnOk result (out.new.items ≡ out.old.items ++ places_text agg vic) }
{
    write_aggressor(out, agg)?;
    put_decimal(out, u64::from(vic))
}

fn digit(bit: bool) -> &'static [u8]
    ensures { result.now ≡ bit_text bit }
{
    if bit { b"1" } else { b"0" }
}

/// The letter of an element in a direction word.
#[tactic(auto, unfolding(march_core::specs::Visits::direction_at))]
fn letter_at(directions: u64, element: usize) -> &'static [u8]
    requires { element < 64 }
    ensures { result.now ≡ letter (direction_at directions element) }
{
    if is_down(directions, element) {
        b"d"
    } else {
        b"u"
    }
}

/// Appends what cells hold, a digit for each, cell 0 first.
pub fn write_content(out: &mut Vec<u8>, content: &[bool]) -> Result<(), NoMemory>
    ensures { OnOk result (out.new.items ≡ out.old.items ++ (codes " content " ++ content_text content.now)) }
{
    put(out, b" content ")?;
    for bit in content {
        put(out, digit(*bit))?;
    }
    Ok(())
}

/// Appends the directions of a march with so many elements, a letter for each.
fn write_directions(out: &mut Vec<u8>, directions: u64, size: usize) -> Result<(), NoMemory>
    requires { size ≤ 64 }
    ensures { OnOk result (out.new.items ≡ out.old.items ++ (codes " directions " ++ directions_text directions size)) }
{
    put(out, b" directions ")?;
    for element in 0..size {
        put(out, letter_at(directions, element))?;
    }
    Ok(())
}

/// Appends what the cells of an array hold, a digit for each, and the directions in which a march with so many elements
/// passes, a letter for each.
pub fn write_passing(
    out: &mut Vec<u8>,
    content: &[bool],
    directions: u64,
    size: usize,
) -> Result<(), NoMemory>
    requires { size ≤ 64 }
    ensures { OnOk result (out.new.items ≡ out.old.items ++ passing_text size content.now directions) }
{
    write_content(out, content)?;
    write_directions(out, directions, size)
}
