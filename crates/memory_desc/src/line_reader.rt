//! The reader of one line.

ghost use Rattle.std.specs.Prelude.{◌≡◌, Some, MatchResult, map};
ghost use Rattle.bist_text.specs.Keywords.{word_of};
ghost use Rattle.bist_text.specs.keyed.Lines.{answer, keyed_of};
ghost use Rattle.bist_text.specs.keyed.Reading.{took, stuck};
ghost use Rattle.memory_desc.specs.inner.Heard.{argument_of, heard, keys_of, said};
ghost use Rattle.memory_desc.specs.inner.Seen.{plain_content, plain_line_content, plain_said};

use crate::content::{Content, Key, Quantity, Version};
use crate::row_reader::row;
use crate::word_reader::backgrounds;
use bist_text::Keyword;
use bist_text::keyed_lines::{
    LineFault, Read, WordKind, blanks, ended, fault_at, gap, hex_number, key, number, word,
};

/// The first words of lines: those of a line of any version, and those that came with version 2.
static KEYS: [Keyword<Key>; 9] = [
    Keyword("memory", Key::Memory),
    Keyword("name", Key::Name),
    Keyword("words", Key::Words),
    Keyword("bits", Key::Bits),
    Keyword("scramble", Key::Scramble),
    Keyword("backgrounds", Key::Backgrounds),
    Keyword("latency", Key::Latency),
    Keyword("polarity", Key::Polarity),
    Keyword("pause", Key::Pause),
];

/// The first words that a version's lines may have; `memory` alone before a version is known.
fn keys_of(given: Option<Version>) -> &'static [Keyword<Key>]
    ensures { map word_of result.now ≡ keys_of given }
{
    match given {
        None => &KEYS[..1],
        Some(Version::One) => &KEYS[..6],
        Some(Version::Two) => &KEYS,
    }
}

/// A content line.
fn keyed<'a>(text: &'a [u8], given: Option<Version>) -> Read<'a, Content<'a>>
    ensures { MatchResult result (λ r. keyed_of (keys_of given) argument_of text.now
        ≡ took (Some (plain_content r.0)) r.1.now)
        (λ left. keyed_of (keys_of given) argument_of text.now ≡ stuck left.now) }
{
    let (key, text) = key(text, keys_of(given))?;
    let ((), text) = gap(text)?;
    let quantity = match key {
        Key::Memory => Quantity::Version,
        Key::Words => Quantity::Words,
        Key::Bits => Quantity::Bits,
        Key::Latency => Quantity::Latency,
        Key::Pause => Quantity::Pause,
        Key::Name => {
            let (name, text) = word(text, WordKind::Name)?;
            return ended(text, Content::Name(name));
        }
        Key::Polarity => {
            let (word, text) = hex_number(text)?;
            return ended(text, Content::Polarity(word));
        }
        Key::Scramble => return row(text),
        Key::Backgrounds => return backgrounds(text),
    };
    let (number, text) = number(text)?;
    ended(text, Content::Number(quantity, number))
}

/// What a line says, or None where it has no content. Before a version is known only a `memory` line may stand.
pub fn read_line<'a>(
    text: &'a [u8],
    given: Option<Version>,
) -> Result<Option<Content<'a>>, LineFault>
    ensures { plain_said result ≡ answer (heard given text.now) }
{
    let content = blanks(text);
    match content {
        [] => Ok(None),
        [first, _rest @ ..] => {
            if *first == b'#' {
                return Ok(None);
            }
            match keyed(content, given) {
                Ok((content, _)) => Ok(Some(content)),
                Err(left) => Err(fault_at(text, left)),
            }
        }
    }
}

/// What a line says that is one of a table; None of another.
pub fn said<'a>(text: &'a [u8]) -> Option<Content<'a>>
    ensures { plain_line_content result ≡ said text.now }
{
    read_line(text, Some(Version::Two)).unwrap_or(None)
}
