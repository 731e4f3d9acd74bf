//! What a line of a chip file says.

ghost use Rattle.std.specs.Prelude.{◌≡◌};
ghost use Rattle.chip_desc.specs.ChipLines.{kind_of};
ghost use Rattle.chip_desc.specs.inner.Heard.{plain_content};

/// The kinds of content lines, by their first word.
#[derive(Clone, Copy, PartialEq)]
pub enum ChipKey {
    Chip,
    Name,
    Budget,
    Unit,
}

/// The versions of the form.
#[derive(Clone, Copy)]
pub enum ChipVersion {
    One,
}

/// What a `unit` line says.
#[derive(Clone, Copy)]
pub struct UnitLine<'a> {
    pub weight: u32,
    /// The name of the file of the march.
    pub march: &'a [u8],
    /// The name of the file of the memory's description.
    pub memory: &'a [u8],
}

/// What a content line says.
#[derive(Clone, Copy)]
pub enum ChipContent<'a> {
    Version(u32),
    Name(&'a [u8]),
    Budget(u32),
    Unit(UnitLine<'a>),
}

/// A content line: its number, from 1, and what it says.
#[derive(Clone, Copy)]
pub struct ChipStatement<'a> {
    pub line: usize,
    pub content: ChipContent<'a>,
}

/// The kind of a content line.
pub fn kind_of(content: &ChipContent<'_>) -> ChipKey
    ensures { result ≡ kind_of (plain_content content.now) }
{
    match content {
        ChipContent::Version(_) => ChipKey::Chip,
        ChipContent::Name(_) => ChipKey::Name,
        ChipContent::Budget(_) => ChipKey::Budget,
        ChipContent::Unit(_) => ChipKey::Unit,
    }
}
