ghost use Rattle.std.specs.Prelude.{◌≡◌, ◌≤◌, ◌+◌, ◌<◌, ◌^◌, length};
ghost use Rattle.std.specs.List.{position_or_len};
ghost use Rattle.std.specs.Char.{is_newline};

/// A line of a text.
#[derive(Clone, Copy)]
pub struct Line<'a> {
    /// Its number, from 1 on.
    pub number: usize,
    /// How many bytes of the text stand before it.
    pub start: usize,
    /// Its bytes, without the line feed.
    pub text: &'a [u8],
    /// Whether a line feed follows.
    pub ended: bool,
}

/// The lines of a text, one after another. The bytes after the last line feed are a line where there are any.
#[derive(Drop)]
pub struct Lines<'a> {
    rest: &'a [u8],
    number: usize,
    start: usize,
    ghost counted: { number ≤ start + 1 },
    ghost in_range: { start + length rest.now + 1 < 2 ^ 64 },
}

impl<'a> Lines<'a> {
    ghost use Rattle.bist_text.specs.Lines.{text_lines, lines_left};

    /// The lines of these bytes, from the first on, which has the number 1.
    pub fn new(bytes: &'a [u8]) -> Self
        ensures { lines_left result ≡ text_lines bytes.now }
    {
        Lines {
            rest: bytes,
            number: 1,
            start: 0,
        }
    }
}

impl<'a> Iterator for Lines<'a> {
    ghost use Rattle.std.specs.Iterator.{YieldsFirstBy, item_count};
    ghost use Rattle.bist_text.specs.Lines.{lines_left, plain_line};

    type Item = Line<'a>;

    ghost next_gives = { YieldsFirstBy plain_line lines_left };

    ghost remaining = { item_count lines_left };

    fn next(&mut self) -> Option<Line<'a>> {
        if self.rest.is_empty() {
            return None;
        }
        let length = line_len(self.rest);
        let ended = length < self.rest.len();
        let line = Line {
            number: self.number,
            start: self.start,
            text: &self.rest[..length],
            ended,
        };
        let taken = if ended { length + 1 } else { length };
        self.rest = &self.rest[taken..];
        self.start += taken;
        self.number += 1;
        Some(line)
    }
}

/// How many bytes stand before the first line feed, or in all where there is none.
fn line_len(bytes: &[u8]) -> usize
    ensures value { result ≡ position_or_len is_newline bytes.now }
    ensures within { result ≤ length bytes.now }
{
    for (i, byte) in bytes.iter().enumerate() {
        if *byte == b'\n' {
            return i;
        }
    }
    bytes.len()
}
