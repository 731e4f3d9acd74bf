ghost use Rattle.std.specs.Prelude.{◌≡◌, ◌<◌, ◌≤◌, ◌^◌, ◌+◌, ◌*◌, ℕ, MatchOption, length};
ghost use Rattle.fault_core.specs.Cells.{cell};
ghost use Rattle.sequence_faults.specs.Stepping.{held_as, nothing};
ghost use Rattle.sequence_faults.specs.Escapes.{content_in, IsVerdict, IsVerdictAt};
ghost use Rattle.sequence_faults.specs.inner.Few.{few_at};
ghost use Rattle.sequence_faults.specs.inner.Searching.{are_apart, spots_in, start_in, NoPlaces, NoSize, NoContent, IsFirstContent, IsFirstPlaces, IsFirst};

use crate::few::{Few, Spots};
use crate::primitive::SeqPrim;
use crate::search::{DeadEnds, word_from};
use crate::stepping::NOTHING;
use march_core::March;
use std::alloc::Global;

/// An array with one instance of a primitive, its content, and a direction word.
#[derive(Clone, Copy)]
pub struct SeqEscape {
    /// How many cells it has.
    pub size: usize,
    /// The addresses of the instance's cells as the digits of a number to the base of the size, the aggressors' first.
    pub places: usize,
    /// The content as a binary number, cell 0 first.
    pub content: usize,
    /// Element `i` stands at bit `63-i`, with 1 for downward.
    pub directions: u64,
}

/// None exactly where every placement of one instance, in every array of at least two cells, from every content and for
/// every choice of directions, is caught; for each single size from two more than its cells on the verdict is the same.
/// Else the least escape of all sizes.
pub fn least_sequence_escape(alloc: Global, march: &March, prim: &SeqPrim) -> Option<SeqEscape>
    ensures verdict { IsVerdict march.now prim.now result }
    ensures each_size { (size : ℕ) → length prim.now.states + 2 ≤ size → IsVerdictAt size march.now prim.now result }
{
    march.known();
    prim.known();
    least_found(alloc, march, prim)
}

/// The least of the sizes that show every case: where an array has three cells or more besides the instance's, one of
/// these lies beside another or between two of the instance's, and makes no difference.
fn least_found(alloc: Global, march: &March, prim: &SeqPrim) -> Option<SeqEscape>
    ensures { MatchOption result (NoSize march.now prim.now (length prim.now.states + 3)) (IsFirst march.now prim.now) }
{
    prim.known();
    for size in 2..prim.states().len() + 3 {
        if let Some(escape) = least_of_size(alloc, march, prim, size) {
            return Some(escape);
        }
    }
    None
}

/// How many numbers there are for the places of some cells.
fn places_count(size: usize, cells: usize) -> usize
    requires size { size < 8 }
    requires some { 0 < cells }
    requires few { cells ≤ 3 }
    ensures { result ≡ size ^ cells }
{
    if cells == 1 {
        return size;
    }
    if cells == 2 {
        return size * size;
    }
    size * size * size
}

/// The addresses that a number of places stands for.
fn spots_in(prim: &SeqPrim, size: usize, places: usize) -> Spots
    requires few { size < 8 }
    requires some { 0 < size }
    ensures { result ≡ spots_in size prim.now places }
{
    prim.known();
    let cells = prim.states().len();
    if cells == 1 {
        return Spots {
            size,
            a: places % size,
            b: size + 1,
            c: size + 2,
        };
    }
    if cells == 2 {
        return Spots {
            size,
            a: places / size % size,
            b: places % size,
            c: size + 2,
        };
    }
    Spots {
        size,
        a: places / (size * size) % size,
        b: places / size % size,
        c: places % size,
    }
}

fn are_apart(spots: Spots) -> bool
    ensures { result ≡ are_apart spots }
{
    spots.a != spots.b && (spots.a != spots.c && spots.b != spots.c)
}

/// A cell of a content; false past the array.
fn bit_of(content: usize, size: usize, address: usize) -> bool
    requires { size < 8 }
    ensures { result ≡ cell (content_in size content) address }
{
    if address >= size {
        return false;
    }
    (content >> (size - 1 - address)) % 2 == 1
}

fn start_in(spots: Spots, size: usize, content: usize) -> Few
    requires { size < 8 }
    ensures { result ≡ few_at spots (held_as (content_in size content) nothing) }
{
    Few {
        x: bit_of(content, size, spots.a),
        y: bit_of(content, size, spots.b),
        z: bit_of(content, size, spots.c),
        done: NOTHING,
    }
}

/// The least escape in arrays of this size.
fn least_of_size(alloc: Global, march: &March, prim: &SeqPrim, size: usize) -> Option<SeqEscape>
    requires size { size < 8 }
    requires some { 2 ≤ size }
    ensures { MatchOption result (NoPlaces march.now prim.now size (size ^ length prim.now.states)) (IsFirstPlaces march.now prim.now size) }
{
    prim.known();
    for places in 0..places_count(size, prim.states().len()) {
        if let Some(escape) = least_at(alloc, march, prim, size, places) {
            return Some(escape);
        }
    }
    None
}

/// The least escape with these places. The contents share what is found out of dead ends.
fn least_at(
    alloc: Global,
    march: &March,
    prim: &SeqPrim,
    size: usize,
    places: usize,
) -> Option<SeqEscape>
    requires size { size < 8 }
    requires some { 2 ≤ size }
    ensures { MatchOption result (NoContent march.now prim.now size places (2 ^ size)) (IsFirstContent march.now prim.now size places) }
{
    let spots = spots_in(prim, size, places);
    if !are_apart(spots) {
        return None;
    }
    let mut dead_ends = DeadEnds::unknown(alloc);
    for content in 0..1 << size {
        let start = start_in(spots, size, content);
        if let Some(directions) = word_from(prim, spots, march, &mut dead_ends, 0, Some(start)) {
            return Some(SeqEscape {
                size,
                places,
                content,
                directions,
            });
        }
    }
    None
}
