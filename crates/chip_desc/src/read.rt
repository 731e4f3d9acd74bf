//! The reader of chip files.

ghost use Rattle.std.specs.Prelude.{◌≡◌, ◌↔◌, Some, Ok, Err, Result};
ghost use Rattle.bist_text.specs.Lines.{text_lines};
ghost use Rattle.chip_desc.specs.Chips.{ChipDescription};
ghost use Rattle.chip_desc.specs.ChipTable.{Reads, by_statements, of_lines, refusal, name_in, budget_in};
ghost use Rattle.chip_desc.specs.inner.Heard.{plain_content, statements};
ghost use Rattle.chip_desc.specs.declared.fault.ChipFault.{ChipFault};

use crate::chip::ChipDesc;
use crate::content::{ChipContent, ChipKey};
use crate::fault::{ChipFault, ChipField};
use crate::lines::check_lines;
use crate::search::{ChipSought, check_none, field};
use crate::units::units_of;
use bist_text::keyed_lines::TextFault;
use memory_desc::name_from;

/// The name that a `name` line gives.
fn name_of<'a>(content: &ChipContent<'a>) -> &'a [u8]
    ensures { result.now ≡ name_in (Some (plain_content content.now)) }
{
    match content {
        ChipContent::Name(name) => name,
        ChipContent::Version(_) | ChipContent::Budget(_) | ChipContent::Unit(_) => &[],
    }
}

/// The budget that a `budget` line gives.
fn budget_of(content: &ChipContent<'_>) -> u32
    ensures { result ≡ budget_in (Some (plain_content content.now)) }
{
    match content {
        ChipContent::Budget(most) => *most,
        ChipContent::Version(_) | ChipContent::Name(_) | ChipContent::Unit(_) => 0,
    }
}

/// The chip that the statements of a text describe.
fn described(bytes: &[u8]) -> Result<ChipDesc, ChipFault>
    ensures { result ≡ by_statements (refusal (statements (text_lines bytes.now))) (statements (text_lines bytes.now)) }
{
    check_none(bytes, ChipSought::Repeat)?;
    let name_line = field(bytes, ChipKey::Name, ChipField::Name)?;
    let budget_line = field(bytes, ChipKey::Budget, ChipField::Budget)?;
    field(bytes, ChipKey::Unit, ChipField::Unit)?;
    check_none(bytes, ChipSought::OutOfRange)?;
    let units = units_of(bytes)?;
    let budget = budget_of(&budget_line.content);
    check_none(bytes, ChipSought::Heavier(budget))?;
    let name = name_from(name_of(&name_line.content));
    Ok(ChipDesc {
        name,
        budget,
        units,
    })
}

/// The refusal of a text for its lines.
fn of_lines(fault: TextFault) -> ChipFault
    ensures { result ≡ of_lines fault }
{
    match fault {
        TextFault::Unexpected { line, byte } => ChipFault::Unexpected { line, byte },
        TextFault::Truncated => ChipFault::Truncated,
        TextFault::OtherVersion => ChipFault::OtherVersion,
    }
}

/// Reads a chip file. The first refusal decides, in the order of the table. It takes no memory.
pub fn read_chip(bytes: &[u8]) -> Result<ChipDesc, ChipFault>
    // What is read is the chip that the text's statements describe, and each text that describes one is read as it.
    ensures ok { (d : ChipDescription) → (result ≡ Ok d) ↔ Reads bytes.now (Ok d) }

    // C1 to C7 and C9, exactly where they come.
    ensures refused { (fault : ChipFault) → (result ≡ Err fault) ↔ Reads bytes.now (Err fault) }

    // A text is read in one way.
    ensures one_reading { (q r : Result ChipDescription ChipFault) → Reads bytes.now q → Reads bytes.now r → q ≡ r }
{
    match check_lines(bytes) {
        Ok(()) => described(bytes),
        Err(fault) => Err(of_lines(fault)),
    }
}
