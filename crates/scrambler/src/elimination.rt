ghost use Rattle.std.specs.Prelude.{◌≡◌, ℕ, ◌<◌, ◌≤◌, IfOk, IfErr, IfSome, IfNone, slice_index};
ghost use Rattle.scrambler.specs.Linear.{dot};
ghost use Rattle.scrambler.specs.Reduced.{Reduced};
ghost use Rattle.scrambler.specs.inner.Reduced.{ClearsBy};
ghost use Rattle.scrambler.specs.Scrambling.{IsWithin, IsLeastDependence, matrix_of, row};

use crate::linear::{UNITS, dot, product};
use crate::matrix::{Dependence, Matrix};

/// The first vector, from place `from` on and below `width`, of which `row` takes 1.
fn first_taken(row: u16, vectors: &[u16; 16], from: u8, width: u8) -> Option<u8>
    requires { width ≤ 16 }
    ensures some { IfSome result (λ p. (from ≤ p) × (p < width) × (dot row (slice_index vectors.now p) ≡ 1)) }
    ensures none { IfNone result ((l : ℕ) → from ≤ l → l < width → dot row (slice_index vectors.now l) ≡ 0) }
{
    for l in from..width {
        if dot(row, vectors[l as usize]) == 1 {
            return Some(l);
        }
    }
    None
}

/// Adds the vector at `place` to each other one of which `row` takes 1.
#[tactic(auto, using(crate::proofs::Clearing::cleared_own, crate::proofs::Clearing::cleared_other))]
fn clear(row: u16, vectors: &mut [u16; 16], place: u8, width: u8)
    requires in_range { place < width }
    requires narrow { width ≤ 16 }
    ensures { ClearsBy place width row (slice_index vectors.old) (slice_index vectors.new) }
{
    let own = vectors[place as usize];
    for l in 0..width {
        if l != place {
            vectors[l as usize] ^= dot(row, vectors[l as usize]) * own;
        }
    }
}

/// Deals with one row after another, until one takes 0 of every vector that is left: it depends on the
/// rows before it. The vectors are then those that undo the matrix.
pub fn reduce(matrix: &Matrix) -> Result<[u16; 16], Dependence>
    requires { IsWithin matrix.now.width matrix.now.rows matrix.now.constant }
    ensures ok { let m = matrix_of matrix.now.width matrix.now.rows matrix.now.constant in
        IfOk result (λ s. Reduced matrix.now.width matrix.now.width (row m) (slice_index s)) }
    ensures err { IfErr result (λ d. IsLeastDependence (matrix_of matrix.now.width matrix.now.rows matrix.now.constant) d.rows) }
{
    let mut vectors = UNITS;
    for i in 0..matrix.width {
        let row = matrix.rows[i as usize];
        match first_taken(row, &vectors, i, matrix.width) {
            Some(p) => {
                vectors.swap(i as usize, p as usize);
                clear(row, &mut vectors, i, matrix.width);
            }
            None => {
                return Err(Dependence {
                    rows: (1 << i) | product(&vectors, i, row),
                });
            }
        }
    }
    Ok(vectors)
}
