ghost use Rattle.std.specs.Prelude.{ℕ, ◌≡◌, ◌≤◌, false, true, length, MatchOption};
ghost use Rattle.march_core.specs.March.{IsMarch};
ghost use Rattle.dynamic_core.specs.Primitive.{has_aggressor};
ghost use Rattle.dynamic_prover.specs.inner.Shapes.{end_in};
ghost use Rattle.dynamic_prover.specs.inner.Legs.{leg_end};
ghost use Rattle.dynamic_prover.specs.inner.Legs.{KnowsOf};
ghost use Rattle.dynamic_prover.specs.inner.Spots.{shape_at, spots_of, candidate_at, candidates_at, candidates_of, passes_by, IsMadeOf, FindsFirst};
ghost use Rattle.dynamic_prover.specs.Verdicts.{IsDynVerdict, IsDynVerdictAt};

use crate::escape::{DynEscape, DynVerdict};
use crate::leg::{Leg, legs_of};
use crate::own_cells::own_cells;
use crate::search::Search;
use crate::spot::{Spot, spots_of};
use cell_machine::Pair;
use dynamic_core::DynPrim;
use march_core::March;
use pair_tracker::{DeadEnds, word_from};

/// The escape in an array with these places and this content of its instance's cells, where it can pass.
fn escape_from(
    prim: &DynPrim,
    legs: &[Leg],
    spot: Spot,
    pair: Pair,
    dead_ends: &mut DeadEnds,
) -> Option<DynEscape>
    requires few { length legs.now ≤ 64 }
    requires dead { KnowsOf (shape_at spot) legs.now dead_ends.old }
    ensures escape { MatchOption result (passes_by leg_end legs.now (candidate_at spot pair) ≡ false)
        (λ e. (passes_by leg_end legs.now (candidate_at spot pair) ≡ true) × IsMadeOf leg_end legs.now prim.now (candidate_at spot pair) e) }
    ensures dead { KnowsOf (shape_at spot) legs.now dead_ends.new }
{
    let start = own_cells(pair.a, pair.v, false);
    let search = Search {
        legs,
        shape: spot.shape(),
    };
    let directions = word_from(&search, dead_ends, 0, Some(start))?;
    Some(DynEscape {
        prim: *prim,
        size: spot.size,
        agg: spot.agg,
        vic: spot.vic,
        content: spot.content(pair),
        directions,
    })
}

/// The least escape in an array with these places. The contents share what is found out of dead ends.
fn least_at(prim: &DynPrim, legs: &[Leg], spot: Spot) -> Option<DynEscape>
    requires { length legs.now ≤ 64 }
    ensures { FindsFirst leg_end legs.now prim.now (candidates_at spot) result }
{
    let mut dead_ends = DeadEnds::unknown();
    for pair in spot.starts() {
        if let Some(escape) = escape_from(prim, legs, spot, *pair, &mut dead_ends) {
            return Some(escape);
        }
    }
    None
}

/// The least escape in all the small arrays, which show every case.
fn least(march: &March, prim: &DynPrim) -> Option<DynEscape>
    ensures { FindsFirst (end_in prim.now) march.now prim.now (candidates_of (spots_of (has_aggressor prim.now))) result }
{
    let legs = legs_of(march, prim);
    for spot in spots_of(prim) {
        if let Some(escape) = least_at(prim, legs.as_slice(), *spot) {
            return Some(escape);
        }
    }
    None
}

/// Covered exactly where every placement of one instance, in every array of at least two cells, from every
/// content and for every choice of directions, is caught; for each single size from 4 the verdict is the same.
/// Else the least escape of all sizes.
pub fn judge_dyn(march: &March, prim: &DynPrim) -> DynVerdict
    ensures verdict { IsDynVerdict march.now prim.now result }
    ensures each_size { (size : ℕ) → 4 ≤ size → IsDynVerdictAt size march.now prim.now result }
{
    march.known();
    match least(march, prim) {
        Some(escape) => DynVerdict::Escape(escape),
        None => DynVerdict::Covered,
    }
}
