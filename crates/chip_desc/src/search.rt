//! Searches in the lines of a text.

ghost use Rattle.std.specs.Prelude.{◌≡◌, ◌||◌, option_map, find};
ghost use Rattle.bist_text.specs.Lines.{text_lines};
ghost use Rattle.bist_text.specs.keyed.Texts.{checked};
ghost use Rattle.chip_desc.specs.ChipTable.{at_line, first_of, is_outside, is_repeat};
ghost use Rattle.chip_desc.specs.inner.Heard.{plain_statement, statements};
ghost use Rattle.chip_desc.specs.inner.Seeking.{fault_of, is_sought, line_of, GivesField};

use crate::content::{ChipContent, ChipKey, ChipStatement, UnitLine, kind_of};
use crate::fault::{ChipFault, ChipField};
use crate::line_reader::said;
use bist_text::Lines;
use memory_desc::is_name_outside;

/// What is sought in the lines of a text.
#[derive(Clone, Copy)]
pub enum ChipSought {
    /// A line of a kind of which there is one, behind another.
    Repeat,
    /// A name, a budget, a weight or the name of a file outside its range.
    OutOfRange,
    /// A unit that weighs more.
    Heavier(u32),
}

/// The first content line of a kind.
pub fn first_of<'a>(bytes: &'a [u8], wanted: ChipKey) -> Option<ChipStatement<'a>>
    ensures { option_map plain_statement result ≡ first_of wanted (statements (text_lines bytes.now)) }
{
    for line in Lines::new(bytes) {
        let Some(content) = said(line.text) else {
            continue;
        };
        if kind_of(&content) == wanted {
            return Some(ChipStatement {
                line: line.number,
                content,
            });
        }
    }
    None
}

/// The number of the first line that is sought.
fn first_line(bytes: &[u8], sought: ChipSought) -> Option<usize>
    ensures { result ≡ line_of (find (is_sought sought (statements (text_lines bytes.now))) (statements (text_lines bytes.now))) }
{
    for line in Lines::new(bytes) {
        let Some(content) = said(line.text) else {
            continue;
        };
        let statement = ChipStatement {
            line: line.number,
            content,
        };
        if is_sought(bytes, &statement, sought) {
            return Some(line.number);
        }
    }
    None
}

/// Whether a content line is sought.
fn is_sought(bytes: &[u8], statement: &ChipStatement<'_>, sought: ChipSought) -> bool
    ensures { result ≡ is_sought sought (statements (text_lines bytes.now)) (plain_statement statement.now) }
{
    match sought {
        ChipSought::Repeat => is_repeat(bytes, statement),
        ChipSought::OutOfRange => match &statement.content {
            ChipContent::Version(_) => false,
            ChipContent::Name(name) => is_name_outside(name),
            ChipContent::Budget(most) => is_outside(*most),
            ChipContent::Unit(unit) => {
                is_outside(unit.weight) || unit.march.len() > 255 || unit.memory.len() > 255
            }
        },
        ChipSought::Heavier(most) => match &statement.content {
            ChipContent::Unit(unit) => unit.weight > most,
            ChipContent::Version(_) | ChipContent::Name(_) | ChipContent::Budget(_) => false,
        },
    }
}

/// Whether an earlier line is of the same kind, of which there is one.
fn is_repeat(bytes: &[u8], statement: &ChipStatement<'_>) -> bool
    ensures { result ≡ is_repeat (statements (text_lines bytes.now)) (plain_statement statement.now) }
{
    let key = kind_of(&statement.content);
    match key {
        ChipKey::Unit => false,
        ChipKey::Chip | ChipKey::Name | ChipKey::Budget => match first_of(bytes, key) {
            Some(first) => first.line != statement.line,
            None => false,
        },
    }
}

fn is_outside(value: u32) -> bool
    ensures { result ≡ is_outside value }
{
    value < 1 || value > 1_000_000
}

/// The line of a field that must be there.
pub fn field<'a>(
    bytes: &'a [u8],
    wanted: ChipKey,
    field: ChipField,
) -> Result<ChipStatement<'a>, ChipFault>
    ensures { GivesField (statements (text_lines bytes.now)) wanted field result }
{
    first_of(bytes, wanted).ok_or(ChipFault::Missing { field })
}

/// No line is sought, else the first is refused.
pub fn check_none(bytes: &[u8], sought: ChipSought) -> Result<(), ChipFault>
    ensures { result ≡ checked (at_line (fault_of sought)
        (find (is_sought sought (statements (text_lines bytes.now))) (statements (text_lines bytes.now)))) }
{
    let Some(line) = first_line(bytes, sought) else {
        return Ok(());
    };
    Err(match sought {
        ChipSought::Repeat => ChipFault::Repeated { line },
        ChipSought::OutOfRange => ChipFault::OutOfRange { line },
        ChipSought::Heavier(_) => ChipFault::TooHeavy { line },
    })
}
