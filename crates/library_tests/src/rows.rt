//! Lines of worked rows: what each kind of row is, its reader tells (`questions.rt`, `commands.rt`). For every kind
//!
//! - `| TEXT` is a further line of what the row above says, and
//! - `# ..` is a remark.
//!
//! In a text `\n`, `\r` and `\t` are what they are in Rust, `\s` is a blank, `\xe2` the byte 226, and
//! `\64{any(w0);\}` so many times what stands between the braces.

use bist_text::{decimal, hex, put_decimal};
use std::alloc::Global;
use std::process::Abort;

/// The part before the first byte of this kind, and the part behind it.
pub(crate) fn cut(line: &[u8], at: u8) -> (&[u8], &[u8]) {
    for (i, byte) in line.iter().enumerate() {
        if *byte == at {
            return (&line[..i], &line[i + 1..]);
        }
    }
    (line, &[])
}

/// The byte that a letter behind a backslash means.
fn lettered(letter: u8) -> Option<u8> {
    match letter {
        b'n' => Some(b'\n'),
        b'r' => Some(b'\r'),
        b's' => Some(b' '),
        b't' => Some(b'\t'),
        _ => None,
    }
}

/// The byte of two hexadecimal digits.
fn hex_byte(digits: &[u8]) -> Option<u8> {
    u8::try_from(hex(digits)?).ok()
}

/// Hexadecimal numbers with blanks between them.
pub(crate) fn numbers(alloc: Global, words: &str) -> Option<Vec<u64>> {
    let mut numbers = Vec::new(alloc);
    for word in words.split_whitespace() {
        numbers.push(hex(word.as_bytes())?).ok()?;
    }
    Some(numbers)
}

/// A text that is put together. Where memory lacks, an escape can't be read, or a piece is left open, it isn't whole.
#[derive(Drop)]
pub(crate) struct Text {
    bytes: Vec<u8>,
    // Where the piece begins that is to be repeated, and how often it is to stand: 0 where none is open.
    begin: usize,
    times: u32,
    whole: bool,
}

impl Text {
    pub(crate) fn new(alloc: Global) -> Text {
        Text {
            bytes: Vec::new(alloc),
            begin: 0,
            times: 0,
            whole: true,
        }
    }

    /// The bytes, where they are whole.
    pub(crate) fn bytes(&self) -> Option<&[u8]> {
        if self.whole && self.times == 0 {
            Some(&self.bytes)
        } else {
            None
        }
    }

    /// The same bytes, given away.
    pub(crate) fn finish(self) -> Option<Vec<u8>> {
        let Text {
            bytes,
            times,
            whole,
            ..
        } = self;
        if whole && times == 0 {
            Some(bytes)
        } else {
            None
        }
    }

    /// Appends these bytes as they are.
    pub(crate) fn put(&mut self, bytes: &[u8]) {
        if self.bytes.extend_from_slice(bytes).is_err() {
            self.whole = false;
        }
    }

    /// Appends a text.
    pub(crate) fn put_text(&mut self, text: &Text) {
        self.put(&text.bytes);
        self.whole = self.whole && text.whole && text.times == 0;
    }

    /// Appends a byte, where there is one.
    fn put_byte(&mut self, byte: Option<u8>) {
        match byte {
            Some(byte) => self.put(&[byte]),
            None => self.whole = false,
        }
    }

    /// Appends a number in decimal.
    pub(crate) fn put_number(&mut self, number: u64) {
        if put_decimal(&mut self.bytes, number).is_err() {
            self.whole = false;
        }
    }

    /// Ends the piece, and appends further copies of it until there are so many.
    fn repeat(&mut self, alloc: Global) {
        let times = self.times;
        self.times = 0;
        let Some((_, piece)) = self.bytes.split_at_checked(self.begin) else {
            self.whole = false;
            return;
        };
        match piece.to_vec(alloc) {
            Ok(piece) if times > 0 => {
                for _ in 1..times {
                    self.put(&piece);
                }
            }
            _ => self.whole = false,
        }
    }

    /// Appends the byte of two hexadecimal digits, and what stands behind it.
    fn put_coded(&mut self, text: &[u8]) {
        match text.split_at_checked(2) {
            Some((digits, rest)) => {
                self.put_byte(hex_byte(digits));
                self.put(rest);
            }
            None => self.whole = false,
        }
    }

    /// Begins a piece that is to be repeated, behind how often.
    fn begin_piece(&mut self, text: &[u8]) {
        let (times, piece) = cut(text, b'{');
        self.begin = self.bytes.len();
        match decimal(times) {
            Some(times) if self.times == 0 && times > 0 => self.times = times,
            _ => self.whole = false,
        }
        self.put(piece);
    }

    /// Appends what is meant by the text behind a backslash.
    fn put_escape(&mut self, alloc: Global, escape: &[u8]) {
        let Some((first, rest)) = escape.split_first() else {
            self.whole = false;
            return;
        };
        match *first {
            b'0'..=b'9' => self.begin_piece(escape),
            b'x' => self.put_coded(rest),
            b'}' => {
                self.repeat(alloc);
                self.put(rest);
            }
            letter => {
                self.put_byte(lettered(letter));
                self.put(rest);
            }
        }
    }

    /// Appends what is meant by a text.
    pub(crate) fn put_meant(&mut self, alloc: Global, text: &str) {
        let mut is_plain = true;
        for part in text.split('\\') {
            if is_plain {
                self.put(part.as_bytes());
            } else {
                self.put_escape(alloc, part.as_bytes());
            }
            is_plain = false;
        }
    }
}

/// A line that is no remark, its number, and what is meant by the further lines of it.
#[derive(Drop)]
pub(crate) struct RowLine<'a> {
    pub(crate) number: usize,
    pub(crate) line: &'a str,
    pub(crate) more: Text,
}

/// Takes a line.
fn heed<'a>(alloc: Global, lines: &mut Vec<RowLine<'a>>, number: usize, line: &'a str) -> bool {
    if line.is_empty() || line.starts_with('#') {
        return true;
    }
    let Some(more) = line.strip_prefix("| ") else {
        let more = Text::new(alloc);
        return lines.push(RowLine { number, line, more }).is_ok();
    };
    let Some(last) = lines.last_mut() else {
        return false;
    };
    last.more.put_meant(alloc, more);
    last.more.put(b"\n");
    true
}

/// The lines of a text, numbered from 0, or nothing where one can't be read.
pub(crate) fn read_lines<'a>(alloc: Global, text: &'a str) -> Option<Vec<RowLine<'a>>> {
    let mut lines = Vec::new(alloc);
    for (number, line) in text.lines().enumerate() {
        if !heed(alloc, &mut lines, number, line) {
            return None;
        }
    }
    Some(lines)
}

/// Ends the test where a row is wrong, with the number of its line.
pub(crate) fn are_right(rt: &impl Abort, wrong: Option<usize>) {
    assert_eq!(rt; wrong, None);
}
