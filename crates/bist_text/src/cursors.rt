ghost use Rattle.std.specs.Prelude.{◌≡◌, ◌≤◌, length};
ghost use Rattle.std.specs.List.{prefix_len};
ghost use Rattle.bist_text.specs.ByteSets.{in_set};

use crate::byte_set::ByteSet;
use std::marker::Model;

/// A place in a text that goes from its start to its end.
#[derive(Drop)]
pub struct Cursor<'a> {
    bytes: &'a [u8],
    place: usize,
}

impl<'a> Model for Cursor<'a> {
    ghost use Rattle.std.specs.Prelude.{◌≤◌, length};
    ghost use Rattle.bist_text.specs.Cursors.{TextPlace};

    ghost Value = { TextPlace };

    ghost view = { λ c. record { text = c.bytes.now; place = c.place } };

    ghost invariant = { λ c. c.place ≤ length c.bytes.now };
}

impl<'a> Cursor<'a> {
    ghost use Rattle.std.specs.Prelude.{◌<◌, ◌+◌, slice_get};
    ghost use Rattle.std.specs.List.{take_while};
    ghost use Rattle.bist_text.specs.Cursors.{TextPlace, left_of};

    /// The start of a text.
    pub fn new(bytes: &'a [u8]) -> Self
        ensures text { result.text ≡ bytes.now }
        ensures place { result.place ≡ 0 }
    {
        Cursor { bytes, place: 0 }
    }

    /// How many bytes stand before the place.
    pub fn place(&self) -> usize
        ensures value { result ≡ self.now.place }
        ensures within { result ≤ length self.now.text }
    {
        self.place
    }

    /// The byte at the place; None at the text's end.
    pub fn peek(&self) -> Option<u8>
        ensures { result ≡ slice_get self.now.text self.now.place }
    {
        self.bytes.get(self.place).copied()
    }

    /// Goes past a byte.
    pub fn advance(&mut self)
        requires { self.old.place < length self.old.text }
        ensures text { self.new.text ≡ self.old.text }
        ensures place { self.new.place ≡ self.old.place + 1 }
    {
        self.place += 1;
    }

    /// Goes past the longest run of bytes of a set, and gives it.
    pub fn take_while(&mut self, set: ByteSet) -> &'a [u8]
        ensures text { self.new.text ≡ self.old.text }
        ensures place { self.new.place ≡ self.old.place + length (take_while (in_set set) (left_of self.old)) }
        ensures run { result.now ≡ take_while (in_set set) (left_of self.old) }
    {
        let left = &self.bytes[self.place..];
        let taken = run_len(left, set);
        self.place += taken;
        &left[..taken]
    }

    /// Goes past the longest run of bytes of a set.
    pub fn skip(&mut self, set: ByteSet)
        ensures text { self.new.text ≡ self.old.text }
        ensures place { self.new.place ≡ self.old.place + length (take_while (in_set set) (left_of self.old)) }
    {
        self.take_while(set);
    }
}

/// How many bytes from the front on are in a set.
fn run_len(bytes: &[u8], set: ByteSet) -> usize
    ensures value { result ≡ prefix_len (in_set set) bytes.now }
    ensures within { result ≤ length bytes.now }
{
    for (i, byte) in bytes.iter().enumerate() {
        if !set.contains(*byte) {
            return i;
        }
    }
    bytes.len()
}
