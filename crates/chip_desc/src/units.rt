//! The units of a text whose lines are all lines of a chip file.

ghost use Rattle.std.specs.Prelude.{◌≡◌, ◌≤◌, length, true, None, Ok, Err, MatchResult, option_map};
ghost use Rattle.bist_text.specs.Lines.{text_lines};
ghost use Rattle.chip_desc.specs.Chips.{is_file, unit_of};
ghost use Rattle.chip_desc.specs.ChipTable.{out_of_range};
ghost use Rattle.chip_desc.specs.inner.Heard.{plain_unit, said, statements};
ghost use Rattle.chip_desc.specs.inner.Seeking.{GivesUnits, unit_said};

use crate::chip::ChipUnit;
use crate::content::{ChipContent, UnitLine};
use crate::fault::ChipFault;
use crate::line_reader::said;
use arrayvec::{ArrayString, ArrayVec};
use bist_text::Lines;
use std::str;

/// The name of a file, as a text.
fn file_from(bytes: &[u8]) -> ArrayString<255>
    requires name { is_file bytes.now ≡ true }
    requires short { length bytes.now ≤ 255 }
    ensures { result.bytes ≡ bytes.now }
{
    let Ok(text) = str::from_utf8(bytes) else {
        unreachable!()
    };
    ArrayString::from(text).unwrap()
}

/// The unit of a line whose names are within their ranges.
fn unit_from(line: &UnitLine<'_>) -> ChipUnit
    requires march { is_file line.now.march.now ≡ true }
    requires march_short { length line.now.march.now ≤ 255 }
    requires memory { is_file line.now.memory.now ≡ true }
    requires memory_short { length line.now.memory.now ≤ 255 }
    ensures { unit_of result ≡ plain_unit line.now }
{
    ChipUnit {
        weight: line.weight,
        march: file_from(line.march),
        memory: file_from(line.memory),
    }
}

/// What a `unit` line says.
fn unit_in<'a>(text: &'a [u8]) -> Option<UnitLine<'a>>
    ensures { option_map plain_unit result ≡ unit_said (said text.now) }
{
    match said(text)? {
        ChipContent::Unit(unit) => Some(unit),
        ChipContent::Version(_) | ChipContent::Name(_) | ChipContent::Budget(_) => None,
    }
}

/// The units, in the order of their lines; at most 16.
pub fn units_of(bytes: &[u8]) -> Result<ArrayVec<ChipUnit, 16>, ChipFault>
    requires { out_of_range (statements (text_lines bytes.now)) ≡ None }
    ensures { MatchResult result (λ us. GivesUnits (statements (text_lines bytes.now)) (Ok us.items))
        (λ fault. GivesUnits (statements (text_lines bytes.now)) (Err fault)) }
{
    let mut units = ArrayVec::new();
    for line in Lines::new(bytes) {
        let Some(unit) = unit_in(line.text) else {
            continue;
        };
        if units.is_full() {
            return Err(ChipFault::TooManyUnits);
        }
        units.push(unit_from(&unit));
    }
    Ok(units)
}
