//! The reader of backgrounds: what stands behind the first word of a `backgrounds` line.

ghost use Rattle.std.specs.Prelude.{◌≡◌, Some, MatchResult};
ghost use Rattle.bist_text.specs.keyed.Reading.{took, stuck};
ghost use Rattle.memory_desc.specs.inner.Heard.{backgrounds_of, next_word_of};
ghost use Rattle.memory_desc.specs.inner.Seen.{plain_content};

use crate::content::Content;
use bist_text::byte_sets::BLANKS;
use bist_text::keyed_lines::{Read, blanks, byte, ended, hex_number};
use std::marker::Model;

/// The next word; None at the end of the line.
#[tactic(auto, using(bist_text::proofs::Blanks::blanks_have, crate::proofs::TermReads::behind_blank))]
fn next_word(text: &[u8]) -> Read<'_, Option<u64>>
    ensures { MatchResult result (λ r. next_word_of text.now ≡ took r.0 r.1.now) (λ left. next_word_of text.now ≡ stuck left.now) }
{
    match text {
        [] => Ok((None, text)),
        [first, _rest @ ..] => {
            if !BLANKS.contains(*first) {
                return ended(text, None);
            }
            let text = blanks(text);
            match text {
                [] => Ok((None, text)),
                [first, _rest @ ..] => {
                    if !first.is_ascii_hexdigit() {
                        return ended(text, None);
                    }
                    let (word, text) = hex_number(text)?;
                    Ok((Some(word), text))
                }
            }
        }
    }
}

/// The words of a list, one after another.
#[derive(Drop)]
pub struct Words<'a> {
    next: Option<u64>,
    /// What stands behind the next.
    left: &'a [u8],
}

impl<'a> Model for Words<'a> {
    ghost use Rattle.std.specs.Prelude.{List, ℕ};
    ghost use Rattle.memory_desc.specs.inner.Heard.{items_after, words_of, IsWhole};

    ghost Value = { List ℕ };

    ghost view = { λ s. items_after s.next (words_of s.left.now) };

    ghost invariant = { λ s. IsWhole (words_of s.left.now) };
}

impl<'a> Words<'a> {
    /// The same once more.
    pub fn again(&self) -> Words<'a>
        ensures { result ≡ self.now }
    {
        let Words { next, left } = *self;
        Words { next, left }
    }
}

impl<'a> Iterator for Words<'a> {
    ghost use Rattle.std.specs.Iterator.{YieldsFirst, item_count};

    type Item = u64;

    ghost next_gives = { YieldsFirst (λ s. s) };

    ghost remaining = { item_count (λ s. s) };

    fn next(&mut self) -> Option<u64> {
        let Some(word) = self.next else {
            return None;
        };
        if let Ok((Some(next), left)) = next_word(self.left) {
            self.next = Some(next);
            self.left = left;
        } else {
            self.next = None;
        }
        Some(word)
    }
}

/// The backgrounds of a `backgrounds` line: `log`, or a list of words to the end of the line.
pub fn backgrounds(text: &[u8]) -> Read<'_, Content<'_>>
    ensures { MatchResult result (λ r. backgrounds_of text.now ≡ took (Some (plain_content r.0)) r.1.now)
        (λ left. backgrounds_of text.now ≡ stuck left.now) }
{
    if let [b'l', rest @ ..] = text {
        let ((), rest) = byte(rest, b'o')?;
        let ((), rest) = byte(rest, b'g')?;
        return ended(rest, Content::Log);
    }
    let (first, further) = hex_number(text)?;
    let mut left = further;
    loop {
        let (next, rest) = next_word(left)?;
        let Some(_) = next else {
            let words = Words {
                next: Some(first),
                left: further,
            };
            return Ok((Content::Backgrounds(words), rest));
        };
        left = rest;
    }
}
