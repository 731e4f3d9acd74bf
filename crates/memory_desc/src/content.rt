//! What a line of a memory description says.

ghost use Rattle.std.specs.Prelude.{◌≡◌};
ghost use Rattle.memory_desc.specs.Subjects.{subject};
ghost use Rattle.memory_desc.specs.inner.Seen.{plain_content};

use crate::row_reader::Terms;
use crate::word_reader::Words;

/// The kinds of content lines, by their first word.
#[derive(Clone, Copy)]
pub enum Key {
    Memory,
    Name,
    Words,
    Bits,
    Latency,
    Polarity,
    Pause,
    Scramble,
    Backgrounds,
}

/// The versions of the form. Version 2 has lines for the latency, the polarity and the pause besides.
#[derive(Clone, Copy)]
pub enum Version {
    One,
    Two,
}

/// What a content line speaks of. No two lines of a description speak of the same.
#[derive(Clone, Copy, PartialEq)]
pub enum Subject {
    Version,
    Name,
    Words,
    Bits,
    Latency,
    Polarity,
    Pause,
    /// The row of a bit of the address.
    Row(u32),
    Backgrounds,
}

/// A term of a row.
#[derive(Clone, Copy)]
pub enum Term {
    IndexBit(u32),
    Constant(bool),
}

/// What a number in a line is.
#[derive(Clone, Copy)]
pub enum Quantity {
    Version,
    Words,
    Bits,
    Latency,
    Pause,
}

/// What a content line says.
#[derive(Drop)]
pub enum Content<'a> {
    Number(Quantity, u32),
    Name(&'a [u8]),
    Polarity(u64),
    /// The bit of the address, and the terms of its row.
    Scramble(u32, Terms<'a>),
    /// The logarithmic set of backgrounds.
    Log,
    Backgrounds(Words<'a>),
}

/// A content line: its number, from 1, and what it says.
#[derive(Drop)]
pub struct Statement<'a> {
    pub line: usize,
    pub content: Content<'a>,
}

/// What a content line speaks of.
pub fn subject_of(content: &Content<'_>) -> Subject
    ensures { result ≡ subject (plain_content content.now) }
{
    match content {
        Content::Number(Quantity::Version, _) => Subject::Version,
        Content::Number(Quantity::Words, _) => Subject::Words,
        Content::Number(Quantity::Bits, _) => Subject::Bits,
        Content::Number(Quantity::Latency, _) => Subject::Latency,
        Content::Number(Quantity::Pause, _) => Subject::Pause,
        Content::Name(_) => Subject::Name,
        Content::Polarity(_) => Subject::Polarity,
        Content::Scramble(bit, _) => Subject::Row(*bit),
        Content::Log | Content::Backgrounds(_) => Subject::Backgrounds,
    }
}
