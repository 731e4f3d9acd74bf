//! Lines of a first word and what stands behind it: readers of their parts, which stop where a line can't go on.

ghost use Rattle.std.specs.Prelude.{◌≡◌, ◌≤◌, MatchResult, length, map};
ghost use Rattle.bist_text.specs.Grammar.{is_blank};
ghost use Rattle.bist_text.specs.Keywords.{word_of as word_of_table};
ghost use Rattle.bist_text.specs.keyed.Lines.{fault_of};
ghost use Rattle.bist_text.specs.keyed.Parts.{spaced, gap_of, byte_of, end_of, fits_of, key_of, word_of, number_of, hex_number_of, length_of};
ghost use Rattle.bist_text.specs.keyed.Reading.{took, stuck};
ghost use Rattle.bist_text.specs.keyed.Texts.{refusal_at, step};
ghost use Rattle.bist_text.specs.Lines.{plain_line};

use crate::byte_sets::BLANKS;
use crate::identifiers::{begins_identifier, in_identifier};
use crate::keywords::{Keyword, Letters, Spelled, next_letter};
use crate::numbers::{decimal, hex};
use crate::text_lines::Line;

/// What a reader makes of what is left of a line: a value and what is then left; or what is left where the line can't go on
/// so, which is nothing where it ended too early.
pub type Read<'a, T> = Result<(T, &'a [u8]), &'a [u8]>;

/// Which words stand in lines.
#[derive(Clone, Copy)]
pub enum WordKind {
    /// One to nine decimal digits.
    Number,
    /// One to sixteen hexadecimal digits.
    Word,
    /// A simple identifier.
    Name,
    /// The name of a file: printable bytes but `#`.
    File,
}

impl WordKind {
    /// Whether a byte may stand behind so many bytes of a word.
    fn fits(self, count: usize, byte: u8) -> bool
        ensures { result ≡ fits_of self count byte }
    {
        match self {
            WordKind::Number => byte.is_ascii_digit() && count < 9,
            WordKind::Word => byte.is_ascii_hexdigit() && count < 16,
            WordKind::Name if count == 0 => begins_identifier(byte),
            WordKind::Name => in_identifier(byte),
            WordKind::File => 33 <= byte && byte <= 126 && byte != b'#',
        }
    }
}

/// What stands behind the blanks.
pub fn blanks(text: &[u8]) -> &[u8]
    ensures { result.now ≡ spaced text.now }
{
    for (i, byte) in text.iter().enumerate() {
        if !BLANKS.contains(*byte) {
            return &text[i..];
        }
    }
    &[]
}

/// One or more blanks.
#[tactic(auto, using(crate::proofs::Blanks::blanks_have, crate::proofs::keyed::Steps::gap_took))]
pub fn gap(text: &[u8]) -> Read<'_, ()>
    ensures { MatchResult result (λ r. gap_of text.now ≡ took r.0 r.1.now) (λ left. gap_of text.now ≡ stuck left.now) }
{
    match text {
        [] => Err(text),
        [first, rest @ ..] => {
            if BLANKS.contains(*first) {
                Ok(((), blanks(rest)))
            } else {
                Err(text)
            }
        }
    }
}

/// A byte.
pub fn byte(text: &[u8], wanted: u8) -> Read<'_, ()>
    ensures { MatchResult result (λ r. byte_of wanted text.now ≡ took r.0 r.1.now) (λ left. byte_of wanted text.now ≡ stuck left.now) }
{
    match text {
        [] => Err(text),
        [first, rest @ ..] => {
            if *first == wanted {
                Ok(((), rest))
            } else {
                Err(text)
            }
        }
    }
}

/// A value that was read, where the line ends behind it: with blanks and a comment, if any.
pub fn ended<'a, T: Drop>(text: &'a [u8], value: T) -> Read<'a, T>
    ensures { MatchResult result (λ r. (r.0 ≡ value) × (end_of text.now ≡ took tt r.1.now)) (λ left. end_of text.now ≡ stuck left.now) }
{
    let text = blanks(text);
    match text {
        [] => Ok((value, text)),
        [first, _rest @ ..] => {
            if *first == b'#' {
                Ok((value, &[]))
            } else {
                Err(text)
            }
        }
    }
}

/// How many bytes from the front on a word of a class can have.
fn fit_len(text: &[u8], class: WordKind) -> usize
    ensures value { result ≡ length_of (fits_of class) 0 text.now }
    ensures within { result ≤ length text.now }
{
    for (i, byte) in text.iter().enumerate() {
        if !class.fits(i, *byte) {
            return i;
        }
    }
    text.len()
}

/// A word of a class.
#[tactic(auto, using(crate::proofs::keyed::Steps::word_none, crate::proofs::keyed::Steps::word_some))]
pub fn word(text: &[u8], class: WordKind) -> Read<'_, &[u8]>
    ensures { MatchResult result (λ r. word_of (fits_of class) text.now ≡ took r.0.now r.1.now)
        (λ left. word_of (fits_of class) text.now ≡ stuck left.now) }
{
    let count = fit_len(text, class);
    if count == 0 {
        Err(text)
    } else {
        Ok((&text[..count], &text[count..]))
    }
}

/// A number of one to nine digits.
pub fn number(text: &[u8]) -> Read<'_, u32>
    ensures { MatchResult result (λ r. number_of text.now ≡ took r.0 r.1.now) (λ left. number_of text.now ≡ stuck left.now) }
{
    let (digits, text) = word(text, WordKind::Number)?;
    let value = decimal(digits).unwrap_or(0);
    Ok((value, text))
}

/// A number of one to sixteen hexadecimal digits.
pub fn hex_number(text: &[u8]) -> Read<'_, u64>
    ensures { MatchResult result (λ r. hex_number_of text.now ≡ took r.0 r.1.now) (λ left. hex_number_of text.now ≡ stuck left.now) }
{
    let (digits, text) = word(text, WordKind::Word)?;
    let value = hex(digits).unwrap_or(0);
    Ok((value, text))
}

/// A word of a table.
pub fn key<'a, T: Copy>(text: &'a [u8], words: &[Keyword<T>]) -> Read<'a, T>
    ensures { MatchResult result (λ r. key_of (map word_of_table words.now) text.now ≡ took r.0 r.1.now)
        (λ left. key_of (map word_of_table words.now) text.now ≡ stuck left.now) }
{
    let mut letters = Letters { word: 0, count: 0 };
    for (i, byte) in text.iter().enumerate() {
        match next_letter(words, letters, *byte) {
            None => return Err(&text[i..]),
            Some(Spelled::Whole(value)) => return Ok((value, &text[i + 1..])),
            Some(Spelled::More(more)) => letters = more,
        }
    }
    Err(&[])
}

/// Why a text is no line of a table.
#[derive(Clone, Copy)]
pub enum LineFault {
    /// The line up to and with this byte can't go on to a line of the table.
    Unexpected(usize),
    /// The line could go on to one.
    Truncated,
}

/// The fault of a line of which this is left where it can't go on.
pub fn fault_at(text: &[u8], left: &[u8]) -> LineFault
    ensures { result ≡ fault_of text.now left.now }
{
    if left.is_empty() {
        LineFault::Truncated
    } else {
        LineFault::Unexpected(text.len().saturating_sub(left.len()))
    }
}

/// Why the lines of a text are refused. Lines are counted from 1 and bytes from 0 within their line.
#[derive(Clone, Copy)]
pub enum TextFault {
    /// The line up to and with this byte can't go on to a line that may stand.
    Unexpected { line: usize, byte: usize },
    /// No line gives a version, or the last line ends too early.
    Truncated,
    /// The version is none that is known.
    OtherVersion,
}

/// A line's refusal. Where a line feed ends the line, it is the byte that can't stand there.
fn refused(line: &Line<'_>, fault: LineFault) -> TextFault
    ensures { result ≡ refusal_at (plain_line line.now) fault }
{
    match fault {
        LineFault::Unexpected(byte) => TextFault::Unexpected {
            line: line.number,
            byte,
        },
        LineFault::Truncated if line.ended => TextFault::Unexpected {
            line: line.number,
            byte: line.text.len(),
        },
        LineFault::Truncated => TextFault::Truncated,
    }
}

/// The version that is known behind a line, by the version that the line gives, where it has content.
pub fn known_behind<V: Copy>(
    given: Option<V>,
    line: &Line<'_>,
    said: Result<Option<Option<V>>, LineFault>,
) -> Result<Option<V>, TextFault>
    ensures { result ≡ step given (plain_line line.now) said }
{
    match said {
        Err(fault) => Err(refused(line, fault)),
        Ok(content) => match given {
            Some(version) => Ok(Some(version)),
            None => match content {
                None => Ok(None),
                Some(None) => Err(TextFault::OtherVersion),
                Some(Some(version)) => Ok(Some(version)),
            },
        },
    }
}
