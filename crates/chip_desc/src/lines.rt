//! The lines of a chip file: the first with content must be a `chip` line of version 1, and each later one a line of the table.

ghost use Rattle.std.specs.Prelude.{◌≡◌, None, Some};
ghost use Rattle.bist_text.specs.Lines.{text_lines};
ghost use Rattle.bist_text.specs.keyed.Texts.{checked, walk};
ghost use Rattle.chip_desc.specs.inner.Heard.{version_at};

use crate::content::{ChipContent, ChipVersion};
use crate::line_reader::read_line;
use bist_text::Lines;
use bist_text::keyed_lines::{LineFault, TextFault, known_behind};

/// The version that a line gives, where it has content.
fn version_at(
    text: &[u8],
    given: Option<ChipVersion>,
) -> Result<Option<Option<ChipVersion>>, LineFault>
    ensures { result ≡ version_at given text.now }
{
    match read_line(text, given)? {
        Some(ChipContent::Version(1)) => Ok(Some(Some(ChipVersion::One))),
        Some(_) => Ok(Some(None)),
        None => Ok(None),
    }
}

/// The first refusal of the lines.
pub fn check_lines(bytes: &[u8]) -> Result<(), TextFault>
    ensures { result ≡ checked (walk version_at (text_lines bytes.now) None) }
{
    let mut version = None;
    for line in Lines::new(bytes) {
        version = known_behind(version, &line, version_at(line.text, version))?;
    }
    match version {
        Some(_) => Ok(()),
        None => Err(TextFault::Truncated),
    }
}
