ghost use Rattle.std.specs.Prelude.{◌≡◌, ◌<◌, None, MatchOption, length};
ghost use Rattle.pair_tracker.specs.Placements.{FitsPlacement, places_in};
ghost use Rattle.escape_array.specs.declared.escape.EscapeArray.{EscapeArray};
ghost use Rattle.escape_array.specs.Escapes.{IsEscape, IsLeastEscape, content_number, places_of_escape};
ghost use Rattle.escape_array.specs.inner.Searching.{NoneBefore, IsLeastIn};

use crate::escape::EscapeArray;
use fault_core::Prim;
use march_core::March;
use pair_tracker::{DeadEnds, Placement, Summary};

/// The least escape of a primitive, by placement, content and direction word in this order, and None exactly
/// where the march catches it in every array of two cells.
pub fn least(march: &March, prim: &Prim) -> Option<EscapeArray>
    ensures { MatchOption result
        ((e : EscapeArray) → e.prim ≡ prim.now → IsEscape march.now e → ⊥)
        (λ e. (e.prim ≡ prim.now) × IsLeastEscape march.now e) }
{
    if !prim.is_two_cell() {
        return least_in(march, prim, Placement::Alone);
    }
    match least_in(march, prim, Placement::Below) {
        Some(escape) => Some(escape),
        None => least_in(march, prim, Placement::Above),
    }
}

/// The least escape in one placement. The contents share what is found out of dead ends.
fn least_in(march: &March, prim: &Prim, placement: Placement) -> Option<EscapeArray>
    requires { FitsPlacement prim.now placement }
    ensures { MatchOption result (NoneBefore march.now prim.now placement 4) (λ e. IsLeastIn march.now prim.now placement e) }
{
    let whole = Summary::whole(march, prim, placement);
    let mut dead_ends = DeadEnds::unknown();
    for number in 0..4 {
        let content = content_of(number);
        if let Some(directions) = whole.least_word(content, &mut dead_ends) {
            return Some(escape_at(*prim, placement, content, directions));
        }
    }
    None
}

/// The content with this number: the bit of cell 0, then that of cell 1.
fn content_of(number: u8) -> [bool; 2]
    requires { number < 4 }
    ensures number { content_number result ≡ number }
    ensures two_cells { length result ≡ 2 }
{
    [number >= 2, number % 2 == 1]
}

/// The array of an instance in a placement.
fn escape_at(prim: Prim, placement: Placement, content: [bool; 2], directions: u64) -> EscapeArray
    ensures prim { result.prim ≡ prim }
    ensures places { places_of_escape result ≡ places_in placement }
    ensures content { result.content ≡ content }
    ensures directions { result.directions ≡ directions }
{
    let (agg, vic) = match placement {
        Placement::Alone => (None, 0),
        Placement::Below => (Some(0), 1),
        Placement::Above => (Some(1), 0),
    };
    EscapeArray {
        prim,
        agg,
        vic,
        content,
        directions,
    }
}
