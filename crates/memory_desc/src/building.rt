//! The scrambling and the backgrounds of a text whose lines are all lines of a description.

ghost use Rattle.std.specs.Prelude.{◌≡◌, ◌≤◌, ℕ, false, None, Some, Ok, Err, IfOk, MatchResult};
ghost use Rattle.std.specs.List.{list_any};
ghost use Rattle.bist_text.specs.Lines.{text_lines};
ghost use Rattle.scrambler.specs.Scrambling.{IsFull, IsInvertible};
ghost use Rattle.memory_desc.specs.Subjects.{said};
ghost use Rattle.memory_desc.specs.Table.{is_scrambled, is_term_too_wide, too_wide};
ghost use Rattle.memory_desc.specs.Values.{constant_of, index_bits};
ghost use Rattle.memory_desc.specs.declared.content.Subject.TheVariants.{Backgrounds as OfBackgrounds};
ghost use Rattle.memory_desc.specs.inner.Heard.{statements};
ghost use Rattle.memory_desc.specs.inner.Standing.{GivesBackgrounds, GivesScrambling};

use crate::content::{Content, Subject, Term};
use crate::fault::{Field, MemoryFault};
use crate::row_reader::Terms;
use crate::search::content_about;
use crate::values::terms_in;
use crate::word_reader::Words;
use arrayvec::ArrayVec;
use backgrounds::log_set;
use scrambler::{Matrix, Scramble, invert};

/// A row of the matrix.
#[derive(Clone, Copy)]
struct Row {
    /// The index bits that it names an odd number of times.
    names: u16,
    constant: bool,
}

/// The row of terms that all stay within the address.
fn row_of(terms: Terms<'_>) -> Row
    requires { (width : ℕ) × (width ≤ 16) × (list_any (is_term_too_wide width) terms ≡ false) }
    ensures names { result.names ≡ index_bits terms.entry }
    ensures constant { result.constant ≡ constant_of terms.entry }
{
    let mut row = Row {
        names: 0,
        constant: false,
    };
    for term in terms {
        match term {
            Term::IndexBit(bit) => row.names ^= 1 << bit,
            Term::Constant(true) => row.constant = !row.constant,
            Term::Constant(false) => {}
        }
    }
    row
}

/// The scrambling of the rows, each of which must be there, or the identity where there are none.
pub fn scramble_from(bytes: &[u8], scrambled: bool, width: u8) -> Result<Scramble, MemoryFault>
    requires width { (1 ≤ width) × (width ≤ 16) }
    requires fit { (size : ℕ) × (too_wide (statements (text_lines bytes.now)) width size ≡ None) }
    requires rows { scrambled ≡ is_scrambled (statements (text_lines bytes.now)) }
    ensures width { IfOk result (λ s. s.width ≡ width) }
    ensures full { IfOk result IsFull }
    ensures invertible { IfOk result IsInvertible }
    ensures gives { GivesScrambling (statements (text_lines bytes.now)) width result }
{
    if !scrambled {
        return Ok(Scramble::identity(width));
    }
    let mut rows = [0; 16];
    let mut constant = 0;
    for bit in 0..width {
        let Some(content) = content_about(bytes, Subject::Row(u32::from(bit))) else {
            let field = Field::Row(bit);
            return Err(MemoryFault::Missing { field });
        };
        let row = row_of(terms_in(content));
        rows[bit as usize] = row.names;
        constant |= (row.constant as u16) << bit;
    }
    let matrix = Matrix {
        width,
        rows,
        constant,
    };
    match invert(&matrix) {
        Ok(scramble) => Ok(scramble),
        Err(dependence) => Err(MemoryFault::Singular {
            rows: dependence.rows,
        }),
    }
}

/// The backgrounds that are listed, or the logarithmic set where none are.
pub fn backgrounds_from(bytes: &[u8], bits: u8) -> Result<ArrayVec<u64, 8>, MemoryFault>
    requires { (1 ≤ bits) × (bits ≤ 64) }
    ensures { MatchResult result (λ b. GivesBackgrounds (said OfBackgrounds (statements (text_lines bytes.now))) bits (Ok b.items))
        (λ fault. GivesBackgrounds (said OfBackgrounds (statements (text_lines bytes.now))) bits (Err fault)) }
{
    let Some(Content::Backgrounds(words)) = content_about(bytes, Subject::Backgrounds) else {
        return Ok(log_set(bits));
    };
    let mut set = ArrayVec::new();
    for word in words {
        if set.is_full() {
            return Err(MemoryFault::TooManyBackgrounds);
        }
        set.push(word);
    }
    if !set.as_slice().contains(&0) {
        return Err(MemoryFault::NoSolidBackground);
    }
    Ok(set)
}
