//! The least direction word in which an array passes.
ghost use Rattle.std.specs.Prelude.{◌≡◌, ◌<◌, ◌≤◌, ◌-◌, ◌^◌, ◌⊎◌, ◌++◌, [], ◌∷◌, true, length, Contains};
ghost use Rattle.pair_tracker.specs.Ways.{word_behind};
ghost use Rattle.sequence_faults.specs.inner.Searching.{word_at, IsDead, AreDead};

use crate::few::{Few, Spots, end_of};
use crate::primitive::SeqPrim;
use march_core::March;
use std::alloc::Global;

/// No choice of directions leads on from this state before this element.
#[derive(Clone, Copy)]
pub(crate) struct DeadEnd {
    element: usize,
    state: Few,
}

/// What a search has found out. Searches in one array share it.
#[derive(Drop)]
pub(crate) struct DeadEnds {
    known: Vec<DeadEnd>,
}

impl DeadEnds {
    /// Nothing is known.
    pub(crate) fn unknown(alloc: Global) -> Self
        ensures { result.known.items ≡ [] }
    {
        DeadEnds {
            known: Vec::new(alloc),
        }
    }

    fn has(&self, element: usize, state: &Few) -> bool
        ensures { result ≡ true → Contains self.now.known.items (record { element = element; state = state.now }) }
    {
        for dead_end in &self.known {
            if dead_end.element == element && dead_end.state.is(state) {
                return true;
            }
        }
        false
    }

    /// Notes a dead end, unless memory runs out; then it may be found out again.
    fn insert(&mut self, element: usize, state: Few)
        ensures { (self.new.known.items ≡ self.old.known.items)
            ⊎ (self.new.known.items ≡ self.old.known.items ++ (record { element = element; state = state }) ∷ []) }
    {
        let _pushed = self.known.push(DeadEnd { element, state });
    }
}

/// What the bit of an element adds to a direction word.
fn weight_of(element: usize) -> u64
    requires { element < 64 }
    ensures { result ≡ 2 ^ (63 - element) }
{
    1 << (63 - element)
}

/// The least direction word of the elements from `i` on that leads from a state, where there is one, to the end of the
/// march.
pub(crate) fn word_from(
    prim: &SeqPrim,
    spots: Spots,
    march: &March,
    dead_ends: &mut DeadEnds,
    i: usize,
    start: Option<Few>,
) -> Option<u64>
    requires within { i ≤ length march.now }
    requires dead { AreDead march.now prim.now spots dead_ends.old.known.items }
    ensures word { result ≡ word_behind (word_at march.now prim.now spots i) start }
    ensures dead { AreDead march.now prim.now spots dead_ends.new.known.items }
{
    march.known();
    let state = start?;
    if i >= march.len() {
        return Some(0);
    }
    if dead_ends.has(i, &state) {
        return None;
    }
    let up = end_of(prim, spots, march, i, state, false);
    if let Some(word) = word_from(prim, spots, march, dead_ends, i + 1, up) {
        return Some(word);
    }
    let down = end_of(prim, spots, march, i, state, true);
    if let Some(word) = word_from(prim, spots, march, dead_ends, i + 1, down) {
        return Some(weight_of(i) + word);
    }
    dead_ends.insert(i, state);
    None
}
