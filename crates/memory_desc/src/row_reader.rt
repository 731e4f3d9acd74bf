//! The reader of a row: what stands behind the first word of a `scramble` line.

ghost use Rattle.std.specs.Prelude.{◌≡◌, [], Some, MatchResult};
ghost use Rattle.bist_text.specs.keyed.Reading.{took, stuck};
ghost use Rattle.memory_desc.specs.inner.Heard.{next_term_of, row_of, term_of};
ghost use Rattle.memory_desc.specs.inner.Seen.{plain_content};

use crate::content::{Content, Term};
use bist_text::keyed_lines::{Read, blanks, byte, ended, number};
use std::marker::Model;

/// A term.
fn term(text: &[u8]) -> Read<'_, Term>
    ensures { MatchResult result (λ r. term_of text.now ≡ took r.0 r.1.now) (λ left. term_of text.now ≡ stuck left.now) }
{
    match text {
        [b'p', rest @ ..] => {
            let (bit, rest) = number(rest)?;
            Ok((Term::IndexBit(bit), rest))
        }
        [b'0', rest @ ..] => Ok((Term::Constant(false), rest)),
        [b'1', rest @ ..] => Ok((Term::Constant(true), rest)),
        _ => Err(text),
    }
}

/// The next term, behind ^; None at the end of the line.
fn next_term(text: &[u8]) -> Read<'_, Option<Term>>
    ensures { MatchResult result (λ r. next_term_of text.now ≡ took r.0 r.1.now) (λ left. next_term_of text.now ≡ stuck left.now) }
{
    let text = blanks(text);
    match text {
        [] => Ok((None, text)),
        [first, rest @ ..] => {
            if *first != b'^' {
                return ended(text, None);
            }
            let (term, text) = term(blanks(rest))?;
            Ok((Some(term), text))
        }
    }
}

/// The terms of a row, one after another.
#[derive(Drop)]
pub struct Terms<'a> {
    next: Option<Term>,
    /// What stands behind the next.
    left: &'a [u8],
}

impl<'a> Model for Terms<'a> {
    ghost use Rattle.std.specs.Prelude.{List};
    ghost use Rattle.memory_desc.specs.LineText.{Term};
    ghost use Rattle.memory_desc.specs.inner.Heard.{items_after, terms_of, IsWhole};

    ghost Value = { List Term };

    ghost view = { λ s. items_after s.next (terms_of s.left.now) };

    ghost invariant = { λ s. IsWhole (terms_of s.left.now) };
}

impl<'a> Terms<'a> {
    pub fn none() -> Terms<'a>
        ensures { result ≡ [] }
    {
        let next = None;
        Terms { next, left: &[] }
    }

    /// The same once more.
    pub fn again(&self) -> Terms<'a>
        ensures { result ≡ self.now }
    {
        let Terms { next, left } = *self;
        Terms { next, left }
    }
}

impl<'a> Iterator for Terms<'a> {
    ghost use Rattle.std.specs.Iterator.{YieldsFirst, item_count};

    type Item = Term;

    ghost next_gives = { YieldsFirst (λ s. s) };

    ghost remaining = { item_count (λ s. s) };

    fn next(&mut self) -> Option<Term> {
        let Some(term) = self.next else {
            return None;
        };
        if let Ok((Some(next), left)) = next_term(self.left) {
            self.next = Some(next);
            self.left = left;
        } else {
            self.next = None;
        }
        Some(term)
    }
}

/// The row of a `scramble` line.
pub fn row(text: &[u8]) -> Read<'_, Content<'_>>
    ensures { MatchResult result (λ r. row_of text.now ≡ took (Some (plain_content r.0)) r.1.now)
        (λ left. row_of text.now ≡ stuck left.now) }
{
    let ((), text) = byte(text, b'a')?;
    let (bit, text) = number(text)?;
    let ((), text) = byte(blanks(text), b'=')?;
    let (first, further) = term(blanks(text))?;
    let mut left = further;
    loop {
        let (next, rest) = next_term(left)?;
        let Some(_) = next else {
            let terms = Terms {
                next: Some(first),
                left: further,
            };
            return Ok((Content::Scramble(bit, terms), rest));
        };
        left = rest;
    }
}
