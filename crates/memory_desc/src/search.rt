//! Searches in the lines of a text.

ghost use Rattle.std.specs.Prelude.{◌≡◌, ◌||◌, nat_lt, length, false, find, option_map};
ghost use Rattle.std.specs.List.{list_any};
ghost use Rattle.bist_text.specs.ReservedWords.{is_among, reserved_words};
ghost use Rattle.bist_text.specs.Lines.{text_lines};
ghost use Rattle.bist_text.specs.keyed.Texts.{checked};
ghost use Rattle.memory_desc.specs.declared.fault.MemoryFault.TheVariants.{OutOfRange};
ghost use Rattle.memory_desc.specs.Subjects.{about, said};
ghost use Rattle.memory_desc.specs.Table.{at_line, is_term_too_wide, missing, repeated};
ghost use Rattle.memory_desc.specs.inner.Heard.{statements};
ghost use Rattle.memory_desc.specs.inner.Seeking.{is_sought, IsPosed};
ghost use Rattle.memory_desc.specs.inner.Seen.{plain_content, plain_statement};

use crate::content::{Content, Quantity, Statement, Subject, Term, subject_of};
use crate::fault::{Field, MemoryFault};
use crate::line_reader::said;
use crate::row_numbers::RowNumbers;
use crate::row_reader::Terms;
use crate::word_reader::Words;
use bist_bits::all_ones;
use bist_text::{Lines, is_reserved};

/// What is sought in the lines of a text.
#[derive(Clone, Copy)]
pub enum Sought {
    /// A line about something.
    About(Subject),
    /// A name, a number of words or of bits, a latency or a pause outside its range.
    OutOfRange,
    Row,
    /// A row past the address, or a background or a polarity past the word.
    TooWide { width: u8, bits: u8 },
}

/// Whether a content line is sought.
#[tactic(auto, using(crate::proofs::LineTests::past_ones, crate::proofs::LineTests::any_past))]
fn is_sought(content: &Content<'_>, sought: Sought) -> bool
    requires { IsPosed sought }
    ensures { result ≡ is_sought sought (plain_content content.now) }
{
    match sought {
        Sought::About(wanted) => subject_of(content) == wanted,
        Sought::Row => matches!(content, Content::Scramble(..)),
        Sought::OutOfRange => match content {
            Content::Name(name) => is_name_outside(name),
            Content::Number(Quantity::Words, count) => *count < 2 || *count > 65536,
            Content::Number(Quantity::Bits, count) => *count < 1 || *count > 64,
            Content::Number(Quantity::Latency, cycles) => *cycles < 1 || *cycles > 4,
            Content::Number(Quantity::Pause, cycles) => *cycles < 1 || *cycles > 65535,
            _ => false,
        },
        Sought::TooWide { width, bits } => match content {
            Content::Scramble(bit, terms) => {
                *bit >= u32::from(width) || is_any_term_too_wide(terms.again(), width)
            }
            Content::Polarity(word) => *word > all_ones(bits),
            Content::Backgrounds(words) => is_any_past(words.again(), all_ones(bits)),
            _ => false,
        },
    }
}

/// The first content line that is sought.
pub fn first_line<'a>(bytes: &'a [u8], sought: Sought) -> Option<Statement<'a>>
    requires { IsPosed sought }
    ensures { option_map plain_statement result ≡ find (λ s. is_sought sought s.content) (statements (text_lines bytes.now)) }
{
    for line in Lines::new(bytes) {
        let Some(content) = said(line.text) else {
            continue;
        };
        if is_sought(&content, sought) {
            return Some(Statement {
                line: line.number,
                content,
            });
        }
    }
    None
}

/// What the first content line about something says.
pub fn content_about<'a>(bytes: &'a [u8], wanted: Subject) -> Option<Content<'a>>
    ensures { option_map plain_content result ≡ said wanted (statements (text_lines bytes.now)) }
{
    match first_line(bytes, Sought::About(wanted)) {
        Some(statement) => Some(statement.content),
        None => None,
    }
}

/// A field must be there.
pub fn check_there(bytes: &[u8], wanted: Subject, field: Field) -> Result<(), MemoryFault>
    ensures { result ≡ checked (missing wanted field (statements (text_lines bytes.now))) }
{
    match first_line(bytes, Sought::About(wanted)) {
        Some(_) => Ok(()),
        None => Err(MemoryFault::Missing { field }),
    }
}

/// No line may speak of what an earlier one speaks of.
#[tactic(auto, using(crate::proofs::Repeats::passing_begun))]
pub fn check_repeats(bytes: &[u8]) -> Result<(), MemoryFault>
    ensures { result ≡ checked (repeated (statements (text_lines bytes.now))) }
{
    let mut met = RowNumbers::new();
    for line in Lines::new(bytes) {
        let Some(content) = said(line.text) else {
            continue;
        };
        let subject = subject_of(&content);
        if met.is_new(subject) {
            continue;
        }
        let Some(first) = first_line(bytes, Sought::About(subject)) else {
            continue;
        };
        if first.line != line.number {
            return Err(MemoryFault::Repeated { line: line.number });
        }
    }
    Ok(())
}

/// Whether a name has more than 48 bytes or is a reserved word.
pub fn is_name_outside(name: &[u8]) -> bool
    ensures { result ≡ (nat_lt 48 (length name.now) || is_among name.now reserved_words) }
{
    name.len() > 48 || is_reserved(name)
}

/// Whether one of some terms goes past the address.
fn is_any_term_too_wide(terms: Terms<'_>, width: u8) -> bool
    ensures { result ≡ list_any (is_term_too_wide width) terms.entry }
{
    for term in terms {
        match term {
            Term::IndexBit(bit) if bit >= u32::from(width) => return true,
            _ => {}
        }
    }
    false
}

/// Whether one of some words is past the greatest.
fn is_any_past(words: Words<'_>, greatest: u64) -> bool
    ensures { result ≡ list_any (nat_lt greatest) words.entry }
{
    for word in words {
        if word > greatest {
            return true;
        }
    }
    false
}

/// No content line is sought, else the first is out of its range.
pub fn check_none(bytes: &[u8], sought: Sought) -> Result<(), MemoryFault>
    requires { IsPosed sought }
    ensures { result ≡ checked (at_line OutOfRange (find (λ s. is_sought sought s.content) (statements (text_lines bytes.now)))) }
{
    match first_line(bytes, sought) {
        Some(statement) => Err(MemoryFault::OutOfRange {
            line: statement.line,
        }),
        None => Ok(()),
    }
}
