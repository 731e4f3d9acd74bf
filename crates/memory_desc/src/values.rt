//! The values that a text gives, whose lines are all lines of a description.

ghost use Rattle.std.specs.Prelude.{◌≡◌, Some};
ghost use Rattle.bist_text.specs.Lines.{text_lines};
ghost use Rattle.memory_desc.specs.Subjects.{said};
ghost use Rattle.memory_desc.specs.Values.{name_said, terms_in};
ghost use Rattle.memory_desc.specs.inner.Heard.{statements};
ghost use Rattle.memory_desc.specs.inner.Seen.{number_or, plain_content};

use crate::content::{Content, Subject};
use crate::row_reader::Terms;
use crate::search::content_about;

/// The name.
pub fn name_said(bytes: &[u8]) -> &[u8]
    ensures { result.now ≡ name_said (statements (text_lines bytes.now)) }
{
    match content_about(bytes, Subject::Name) {
        Some(Content::Name(name)) => name,
        _ => &[],
    }
}

/// The number or the polarity that a text gives; another where it says nothing of it.
pub fn number_said(bytes: &[u8], wanted: Subject, otherwise: u64) -> u64
    ensures { result ≡ number_or otherwise (said wanted (statements (text_lines bytes.now))) }
{
    match content_about(bytes, wanted) {
        Some(Content::Number(_, number)) => u64::from(number),
        Some(Content::Polarity(word)) => word,
        _ => otherwise,
    }
}

/// The terms of a row.
pub fn terms_in<'a>(content: Content<'a>) -> Terms<'a>
    ensures { result ≡ terms_in (Some (plain_content content.entry)) }
{
    match content {
        Content::Scramble(_, terms) => terms,
        _ => Terms::none(),
    }
}
