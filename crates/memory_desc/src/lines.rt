//! The lines of a description: each must be one of the table, and the first with content a `memory` line.

ghost use Rattle.std.specs.Prelude.{◌≡◌, None, Some};
ghost use Rattle.bist_text.specs.Lines.{text_lines};
ghost use Rattle.bist_text.specs.keyed.Texts.{checked, walk};
ghost use Rattle.memory_desc.specs.inner.Heard.{version_at};

use crate::content::{Content, Quantity, Version};
use crate::line_reader::read_line;
use bist_text::Lines;
use bist_text::keyed_lines::{LineFault, TextFault, known_behind};

/// The version that a line gives, where it has content.
fn version_at(text: &[u8], given: Option<Version>) -> Result<Option<Option<Version>>, LineFault>
    ensures { result ≡ version_at given text.now }
{
    match read_line(text, given)? {
        Some(Content::Number(Quantity::Version, 1)) => Ok(Some(Some(Version::One))),
        Some(Content::Number(Quantity::Version, 2)) => Ok(Some(Some(Version::Two))),
        Some(_) => Ok(Some(None)),
        None => Ok(None),
    }
}

/// The first content line must be a `memory` line of version 1 or 2, and each later one a line of its version's table.
pub fn check_lines(bytes: &[u8]) -> Result<(), TextFault>
    ensures { result ≡ checked (walk version_at (text_lines bytes.now) None) }
{
    let mut version = None;
    for line in Lines::new(bytes) {
        version = known_behind(version, &line, version_at(line.text, version))?;
    }
    match version {
        Some(_) => Ok(()),
        None => Err(TextFault::Truncated),
    }
}
