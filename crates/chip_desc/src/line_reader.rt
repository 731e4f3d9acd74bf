//! The reader of one line.

ghost use Rattle.std.specs.Prelude.{◌≡◌, Some, MatchResult, map};
ghost use Rattle.bist_text.specs.Keywords.{word_of};
ghost use Rattle.bist_text.specs.keyed.Reading.{took, stuck};
ghost use Rattle.bist_text.specs.keyed.Lines.{answer, keyed_of};
ghost use Rattle.chip_desc.specs.inner.Heard.{argument_of, heard, keys_of, plain_content, plain_line_content, said, plain_said};

use crate::content::{ChipContent, ChipKey, ChipVersion, UnitLine};
use bist_text::Keyword;
use bist_text::keyed_lines::{
    LineFault, Read, WordKind, blanks, ended, fault_at, gap, key, number, word,
};

/// The first words.
static KEYS: [Keyword<ChipKey>; 4] = [
    Keyword("chip", ChipKey::Chip),
    Keyword("name", ChipKey::Name),
    Keyword("budget", ChipKey::Budget),
    Keyword("unit", ChipKey::Unit),
];

/// The first words that may stand; `chip` alone before there was a `chip` line.
fn keys_of(given: Option<ChipVersion>) -> &'static [Keyword<ChipKey>]
    ensures { map word_of result.now ≡ keys_of given }
{
    match given {
        None => &KEYS[..1],
        Some(ChipVersion::One) => &KEYS,
    }
}

fn unit<'a>(text: &'a [u8]) -> Read<'a, ChipContent<'a>>
    ensures { MatchResult result (λ r. argument_of ChipKey.Unit text.now ≡ took (Some (plain_content r.0)) r.1.now)
        (λ left. argument_of ChipKey.Unit text.now ≡ stuck left.now) }
{
    let (weight, text) = number(text)?;
    let ((), text) = gap(text)?;
    let (march, text) = word(text, WordKind::File)?;
    let ((), text) = gap(text)?;
    let (memory, text) = word(text, WordKind::File)?;
    let line = UnitLine {
        weight,
        march,
        memory,
    };
    ended(text, ChipContent::Unit(line))
}

/// A content line.
fn keyed<'a>(text: &'a [u8], given: Option<ChipVersion>) -> Read<'a, ChipContent<'a>>
    ensures { MatchResult result (λ r. keyed_of (keys_of given) argument_of text.now
        ≡ took (Some (plain_content r.0)) r.1.now)
        (λ left. keyed_of (keys_of given) argument_of text.now ≡ stuck left.now) }
{
    let (key, text) = key(text, keys_of(given))?;
    let ((), text) = gap(text)?;
    match key {
        ChipKey::Chip => {
            let (number, text) = number(text)?;
            ended(text, ChipContent::Version(number))
        }
        ChipKey::Name => {
            let (name, text) = word(text, WordKind::Name)?;
            ended(text, ChipContent::Name(name))
        }
        ChipKey::Budget => {
            let (most, text) = number(text)?;
            ended(text, ChipContent::Budget(most))
        }
        ChipKey::Unit => unit(text),
    }
}

/// What a line says, or None where it has no content. Before there was a `chip` line only one may stand.
pub fn read_line<'a>(
    text: &'a [u8],
    given: Option<ChipVersion>,
) -> Result<Option<ChipContent<'a>>, LineFault>
    ensures { plain_said result ≡ answer (heard given text.now) }
{
    let content = blanks(text);
    match content {
        [] => Ok(None),
        [first, _rest @ ..] => {
            if *first == b'#' {
                return Ok(None);
            }
            match keyed(content, given) {
                Ok((content, _)) => Ok(Some(content)),
                Err(left) => Err(fault_at(text, left)),
            }
        }
    }
}

/// What a line says that is one of the table; None of another.
pub fn said<'a>(text: &'a [u8]) -> Option<ChipContent<'a>>
    ensures { plain_line_content result ≡ said text.now }
{
    read_line(text, Some(ChipVersion::One)).unwrap_or(None)
}
