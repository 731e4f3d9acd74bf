//! A search through some elements of a march, for the few cells of a fault.
ghost use Rattle.std.specs.Prelude.{◌≡◌, ◌≤◌, ◌<◌, length, map, true, None, MatchOption};
ghost use Rattle.march_core.specs.March.{MarchElement, IsMarch};
ghost use Rattle.pair_tracker.specs.DeadEnds.{is_dead, StaysDead};
ghost use Rattle.pair_tracker.specs.Few.{end_of};
ghost use Rattle.pair_tracker.specs.Legs.{elements_between};
ghost use Rattle.pair_tracker.specs.Tables.{table_of, LeadsNowhere, LeadsSomewhere};
ghost use Rattle.pair_tracker.specs.Reached.{word_to, AreDeadEnds, IsWithin};

use crate::element_step::{FewCells, end_of};
use crate::search::{DeadEnds, Ways, word_from};
use march_core::March;

/// The elements of a march before `end`, for these cells.
#[derive(Drop)]
struct Search<'a, F> {
    march: &'a March,
    few: &'a F,
    end: usize,
}

impl<F: FewCells> Ways for Search<'_, F> {
    type State = F::State;

    ghost Holds = { λ s. F.Fits s.few.now × IsWithin s.march.now s.end };

    ghost Element = { MarchElement };

    ghost count = { λ s. s.end };

    ghost from = { λ s i. elements_between s.march.now i s.end };

    ghost lead = { λ s. end_of (F.machine s.few.now) (F.order s.few.now) };

    ghost wanted = { λ s. F.wanted s.few.now };

    ghost number = { F.number };

    fn count(&self) -> usize {
        self.end
    }

    fn lead(&self, i: usize, start: F::State, is_down: bool) -> Option<F::State> {
        end_of(self.few, self.march, i, start, is_down)
    }

    fn is_wanted(&self, end: F::State) -> bool {
        self.few.is_wanted(end)
    }

    fn number(&self, state: F::State) -> usize {
        self.few.number(state)
    }

    ghost tells = { F.tells };

    ghost few = { F.few };
}

/// The least direction word of the elements from `first` to `end - 1` that leads from a state, where there is one, to
/// an end that is wanted.
pub(crate) fn word_between<F: FewCells>(
    few: &F,
    march: &March,
    dead_ends: &mut DeadEnds,
    first: usize,
    end: usize,
    start: F::State,
) -> Option<u64>
    requires fits { F.Fits few.now }
    requires ordered { first ≤ end }
    requires within { end ≤ length march.now }
    requires dead { AreDeadEnds F.number (F.wanted few.now) (F.machine few.now) (F.order few.now) march.now end dead_ends.old }
    ensures word { result ≡ word_to (F.wanted few.now) (F.machine few.now) (F.order few.now) march.now first end start }
    ensures dead { AreDeadEnds F.number (F.wanted few.now) (F.machine few.now) (F.order few.now) march.now end dead_ends.new }
    ensures kept { StaysDead dead_ends.old dead_ends.new }
    ensures noted { result ≡ None → first < end → is_dead dead_ends.new first (F.number start) ≡ true }
{
    march.known();
    let search = Search { march, few, end };
    word_from(&search, dead_ends, first, Some(start))
}

/// The least direction word of a whole march that leads from a state, where there is one, to an end that is wanted.
/// There is one exactly where the tables of the elements, one after another, lead from the state to such an end.
/// Searches from other states share what is found out of dead ends.
pub fn word_through<F: FewCells>(
    few: &F,
    march: &March,
    dead_ends: &mut DeadEnds,
    start: F::State,
) -> Option<u64>
    requires fits { F.Fits few.now }
    requires dead { AreDeadEnds F.number (F.wanted few.now) (F.machine few.now) (F.order few.now) march.now (length march.now) dead_ends.old }
    ensures word { result ≡ word_to (F.wanted few.now) (F.machine few.now) (F.order few.now) march.now 0 (length march.now) start }
    ensures tables { MatchOption result
        (LeadsNowhere (F.wanted few.now) (map (table_of (F.machine few.now) (F.order few.now)) march.now) start)
        (λ word. LeadsSomewhere (F.wanted few.now) (map (table_of (F.machine few.now) (F.order few.now)) march.now) start) }
    ensures dead { AreDeadEnds F.number (F.wanted few.now) (F.machine few.now) (F.order few.now) march.now (length march.now) dead_ends.new }
{
    word_between(few, march, dead_ends, 0, march.len(), start)
}
