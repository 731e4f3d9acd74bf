ghost use Rattle.std.specs.Prelude.{◌≡◌, ◌↔◌, ◌+◌, ◌<◌, length, true, None};
ghost use Rattle.fault_core.specs.Primitive.{IsPrimitive};
ghost use Rattle.march_core.specs.March.{IsMarch};
ghost use Rattle.cell_machine.specs.declared.pair.Pair.{Pair};
ghost use Rattle.cell_machine.specs.Pairs.{pair_close};
ghost use Rattle.pair_tracker.specs.Placements.{FitsPlacement, pair_in};
ghost use Rattle.pair_tracker.specs.Tracking.{is_below};
ghost use Rattle.pair_tracker.specs.Survivors.{AreSurvivors, IsLeastWord, pair_number};
ghost use Rattle.pair_tracker.specs.Legs.{SumsUp, AreLegEnds, ends_from, elements_between};
ghost use Rattle.pair_tracker.specs.Pairs.{machine_of, sides_in};
ghost use Rattle.pair_tracker.specs.Tables.{tables_at, AreComposed, AreJoined, Composed};
ghost use Rattle.pair_tracker.specs.Reached.{is_wanted, word_to, AreDeadEnds, KnowsOf};
ghost use Rattle.pair_tracker.specs.DeadEnds.{is_dead, StaysDead};

use crate::march_search::word_between;
use crate::pair_cells::Cells;
use crate::placement::{Placement, Survivor};
use crate::search::DeadEnds;
use arrayvec::ArrayVec;
use cell_machine::{Pair, close};
use fault_core::Prim;
use march_core::March;
use std::marker::Model;

/// What some neighbouring elements of a march do to the two cells of an instance, over all choices of direction: for
/// each start the pairs that they lead to, each with its least direction word. It is seen as its march, primitive and
/// placement, the numbers of the elements from `first` to `end - 1`, and for each start the ends.
#[derive(Drop)]
pub struct Summary<'a> {
    march: &'a March,
    prim: Prim,
    placement: Placement,
    first: usize,
    end: usize,
}

impl<'a> Model for Summary<'a> {
    ghost use Rattle.pair_tracker.specs.Legs.{Leg};
    ghost use Rattle.pair_tracker.specs.Reached.{rows_of, IsSpan};

    ghost Value = { Leg };

    ghost view = { λ s. record { march = s.march.now; prim = s.prim; placement = s.placement; first = s.first; end = s.end; rows = rows_of s.march.now s.prim s.placement s.first s.end } };

    ghost invariant = { λ s. IsSpan s.march.now s.prim s.placement s.first s.end };
}

/// The pairs in their order: the aggressor's bit first, 0 before 1.
const PAIRS: [Pair; 4] = [
    Pair { a: false, v: false },
    Pair { a: false, v: true },
    Pair { a: true, v: false },
    Pair { a: true, v: true },
];

/// The two cells of a content as a pair.
fn start_of(placement: Placement, content: [bool; 2]) -> Pair
    ensures pair { result ≡ pair_in placement content }
    ensures cells { length content ≡ 2 }
{
    match placement {
        Placement::Below => Pair {
            a: content[0],
            v: content[1],
        },
        Placement::Alone | Placement::Above => Pair {
            a: content[1],
            v: content[0],
        },
    }
}

/// Whether the cell beside the victim has the lower address.
fn is_below(placement: Placement) -> bool
    ensures { result ≡ is_below placement }
{
    placement == Placement::Below
}

impl<'a> Summary<'a> {
    /// The summary of one element.
    pub fn element(march: &'a March, prim: &Prim, placement: Placement, i: usize) -> Summary<'a>
        requires there { i < length march.now }
        requires fits { FitsPlacement prim.now placement }
        ensures { SumsUp march.now prim.now placement i (i + 1) result }
    {
        march.known();
        prim.known();
        Summary {
            march,
            prim: *prim,
            placement,
            first: i,
            end: i + 1,
        }
    }

    /// The summary of a whole march.
    pub fn whole(march: &'a March, prim: &Prim, placement: Placement) -> Summary<'a>
        requires { FitsPlacement prim.now placement }
        ensures { SumsUp march.now prim.now placement 0 (length march.now) result }
    {
        march.known();
        prim.known();
        Summary {
            march,
            prim: *prim,
            placement,
            first: 0,
            end: march.len(),
        }
    }

    /// The summary of these elements and of those of `next`, which come next. Its tables are those of these elements and
    /// then those of the others.
    pub fn then(&self, next: &Summary<'_>) -> Summary<'a>
        requires march { next.now.march ≡ self.now.march }
        requires prim { next.now.prim ≡ self.now.prim }
        requires placement { next.now.placement ≡ self.now.placement }
        requires behind { next.now.first ≡ self.now.end }
        ensures sum { SumsUp self.now.march self.now.prim self.now.placement self.now.first next.now.end result }
        ensures joined { (start final : Pair)
            → Composed (tables_at self.now.prim self.now.placement (elements_between self.now.march self.now.first next.now.end)) start final
            ↔ AreJoined (tables_at self.now.prim self.now.placement (elements_between self.now.march self.now.first self.now.end))
            (tables_at self.now.prim self.now.placement (elements_between self.now.march self.now.end next.now.end)) start final }
    {
        Summary {
            march: self.march,
            prim: self.prim,
            placement: self.placement,
            first: self.first,
            end: next.end,
        }
    }

    /// The least direction word that leads from a start to an end, or to any.
    fn word(&self, start: Pair, wanted: Option<Pair>, dead_ends: &mut DeadEnds) -> Option<u64>
        requires { AreDeadEnds pair_number (is_wanted wanted) (machine_of self.now.prim)
            (sides_in (is_below self.now.placement)) self.now.march self.now.end dead_ends.old }
        ensures word { result ≡ word_to (is_wanted wanted) (machine_of self.now.prim)
            (sides_in (is_below self.now.placement)) self.now.march self.now.first self.now.end start }
        ensures dead { AreDeadEnds pair_number (is_wanted wanted) (machine_of self.now.prim)
            (sides_in (is_below self.now.placement)) self.now.march self.now.end dead_ends.new }
        ensures kept { StaysDead dead_ends.old dead_ends.new }
        ensures noted { result ≡ None → self.now.first < self.now.end → is_dead dead_ends.new self.now.first (pair_number start) ≡ true }
    {
        let cells = Cells {
            prim: &self.prim,
            is_below: is_below(self.placement),
            wanted,
        };
        word_between(&cells, self.march, dead_ends, self.first, self.end, start)
    }

    /// The final pairs that the elements lead to from this start with no read that differs: each once, with the least
    /// direction word that leads there, in the order of the pairs (`a` first, 0 before 1). The start isn't closed
    /// first, and the bits of other elements are 0. They are the pairs that the tables of the elements lead to.
    pub fn ends(&self, start: Pair) -> ArrayVec<Survivor, 4>
        ensures value { result.items ≡ ends_from self.now start }
        ensures ends { AreLegEnds self.now.march self.now.prim self.now.placement self.now.first self.now.end start result.items }
        ensures tables { AreComposed (tables_at self.now.prim self.now.placement (elements_between self.now.march self.now.first self.now.end)) start result.items }
    {
        self.march.known();
        self.prim.known();
        let mut found = ArrayVec::new();
        for pair in PAIRS {
            let mut dead_ends = DeadEnds::unknown();
            if let Some(directions) = self.word(start, Some(pair), &mut dead_ends) {
                found.push(Survivor { pair, directions });
            }
        }
        found
    }

    /// The ends of a whole march from a content, which is closed first. The content is that of cell 0 and then of
    /// cell 1.
    pub fn survivors(&self, content: [bool; 2]) -> ArrayVec<Survivor, 4>
        requires first { self.now.first ≡ 0 }
        requires last { self.now.end ≡ length self.now.march }
        ensures value { AreSurvivors self.now.march self.now.prim self.now.placement content result.items }
        ensures tables { AreComposed (tables_at self.now.prim self.now.placement self.now.march)
            (pair_close self.now.prim (pair_in self.now.placement content)) result.items }
    {
        self.ends(close(&self.prim, start_of(self.placement, content)))
    }

    /// The least direction word in which a whole march lets a content through, whichever the end. Searches from other
    /// contents share what is found out of dead ends.
    pub fn least_word(&self, content: [bool; 2], dead_ends: &mut DeadEnds) -> Option<u64>
        requires first { self.now.first ≡ 0 }
        requires last { self.now.end ≡ length self.now.march }
        requires dead { KnowsOf self.now dead_ends.old }
        ensures word { IsLeastWord self.now.march self.now.prim self.now.placement content result }
        ensures dead { KnowsOf self.now dead_ends.new }
        ensures kept { StaysDead dead_ends.old dead_ends.new }
        ensures noted { result ≡ None → 0 < self.now.end
            → is_dead dead_ends.new 0 (pair_number (pair_close self.now.prim (pair_in self.now.placement content)))
            ≡ true }
    {
        let start = close(&self.prim, start_of(self.placement, content));
        self.word(start, None, dead_ends)
    }
}
