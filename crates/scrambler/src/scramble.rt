ghost use Rattle.std.specs.Prelude.{◌≡◌, ℕ, ◌+◌, ◌^◌, ◌<◌, ◌≤◌, ◌↔◌, IsOk, IsErr, IfOk, IfErr};
ghost use Rattle.scrambler.specs.Linear.{combination};
ghost use Rattle.scrambler.specs.Scrambling.{IsWithin, IsFull, IsInvertible, IsLeastDependence, matrix_of, row, identity, is_identity, logical};

use crate::elimination::reduce;
use crate::linear::{UNITS, combination, product};
use crate::matrix::{Dependence, Matrix};
use std::marker::Model;

/// An invertible matrix and a constant, with the way back.
///
/// Contracts see the matrix alone: its width, its rows and its constant.
#[derive(Drop)]
pub struct Scramble {
    matrix: Matrix,
    vectors: [u16; 16],
}

impl Model for Scramble {
    ghost use Rattle.scrambler.specs.Scrambling.{Scrambling, matrix_of};
    ghost use Rattle.scrambler.specs.Undoing.{IsUndone};

    ghost Value = { Scrambling };

    ghost view = { λ s. matrix_of s.matrix.width s.matrix.rows s.matrix.constant };

    ghost invariant = { λ s. IsUndone s.matrix.width s.matrix.rows s.matrix.constant s.vectors };
}

impl Scramble {
    /// The scrambling that leaves each index of `width` bits as it is.
    pub fn identity(width: u8) -> Scramble
        requires { (1 ≤ width) × (width ≤ 16) }
        ensures identity { result ≡ identity width }
        ensures itself { (k : ℕ) → k < 2 ^ width → logical result k ≡ k }
        ensures full { IsFull result }
        ensures invertible { IsInvertible result }
    {
        Scramble {
            matrix: Matrix {
                width,
                rows: UNITS,
                constant: 0,
            },
            vectors: UNITS,
        }
    }

    /// The same scrambling once more.
    pub fn duplicate(&self) -> Scramble
        ensures { result ≡ self.now }
    {
        Scramble {
            matrix: self.matrix,
            vectors: self.vectors,
        }
    }

    /// The logical address of the physical index `k`.
    pub fn logical_of(&self, k: u32) -> u32
        requires { k < 2 ^ self.now.width }
        ensures logical { result ≡ logical self.now k }
        ensures fits { result < 2 ^ self.now.width }
    {
        u32::from(product(&self.matrix.rows, self.matrix.width, k as u16) ^ self.matrix.constant)
    }

    /// The physical index of the logical address `a`.
    pub fn physical_of(&self, a: u32) -> u32
        requires { a < 2 ^ self.now.width }
        ensures fits { result < 2 ^ self.now.width }
        ensures back { logical self.now result ≡ a }
        ensures only { (k : ℕ) → k < 2 ^ self.now.width → logical self.now k ≡ a → k ≡ result }
    {
        u32::from(combination(
            &self.vectors,
            self.matrix.width,
            a as u16 ^ self.matrix.constant,
        ))
    }

    /// The index bits that bit `i` of the logical address names.
    pub fn row(&self, i: u8) -> u16
        requires { i < self.now.width }
        ensures row { result ≡ row self.now i }
        ensures fits { result < 2 ^ self.now.width }
    {
        self.matrix.rows[i as usize]
    }

    /// The rows, one for each bit of the address.
    pub fn rows(&self) -> &[u16]
        ensures rows { result.now ≡ self.now.rows }
        ensures full { IsFull self.now }
    {
        &self.matrix.rows[..usize::from(self.matrix.width)]
    }

    /// The constants: bit `i` is that of row `i`.
    pub fn constant(&self) -> u16
        ensures constant { result ≡ self.now.constant }
        ensures fits { result < 2 ^ self.now.width }
    {
        self.matrix.constant
    }

    /// Whether it changes nothing: each bit of the address is that of the index.
    pub fn is_identity(&self) -> bool
        ensures { result ≡ is_identity self.now }
    {
        if self.constant() != 0 {
            return false;
        }
        for i in 0..self.width() {
            if self.row(i) != 1 << i {
                return false;
            }
        }
        true
    }

    /// Recalls to the prover what holds of every scrambling. It does nothing.
    pub fn known(&self)
        ensures bounds { (1 ≤ self.now.width) × (self.now.width ≤ 16) }
        ensures full { IsFull self.now }
        ensures invertible { IsInvertible self.now }
    {
        let _width = self.width();
        let _rows = self.rows();
    }

    /// How many bits an index and an address have: 1 to 16.
    pub fn width(&self) -> u8
        ensures width { result ≡ self.now.width }
        ensures bounds { (1 ≤ result) × (result ≤ 16) }
        ensures invertible { IsInvertible self.now }
    {
        self.matrix.width
    }
}

/// The scrambling of an invertible matrix.
///
/// A singular matrix is refused with the least row that is the exclusive or of rows below it, and those
/// rows. A row of no bits stands alone.
pub fn invert(matrix: &Matrix) -> Result<Scramble, Dependence>
    requires { IsWithin matrix.now.width matrix.now.rows matrix.now.constant }
    ensures ok { IsOk result ↔ IsInvertible (matrix_of matrix.now.width matrix.now.rows matrix.now.constant) }
    ensures scramble { IfOk result (λ s. s ≡ matrix_of matrix.now.width matrix.now.rows matrix.now.constant) }
    ensures full { IfOk result IsFull }
    ensures invertible { IfOk result IsInvertible }
    ensures singular { IsErr result ↔ (¬ IsInvertible (matrix_of matrix.now.width matrix.now.rows matrix.now.constant)) }
    ensures dependence { IfErr result (λ d. IsLeastDependence (matrix_of matrix.now.width matrix.now.rows matrix.now.constant) d.rows) }
    ensures cancel { let m = matrix_of matrix.now.width matrix.now.rows matrix.now.constant in
        IfErr result (λ d. combination (row m) m.width d.rows ≡ 0) }
{
    match reduce(matrix) {
        Ok(vectors) => Ok(Scramble {
            matrix: *matrix,
            vectors,
        }),
        Err(dependence) => Err(dependence),
    }
}
