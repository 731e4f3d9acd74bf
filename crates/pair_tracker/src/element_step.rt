//! The few cells of a fault, through an element of a march.
ghost use Rattle.std.specs.Prelude.{◌≡◌, ◌≢◌, ◌<◌, ℕ, Bool, Some, map, length};
ghost use Rattle.march_core.specs.Addresses.{direction_of};
ghost use Rattle.march_core.specs.March.{element_at};
ghost use Rattle.march_core.specs.Visits.{allows};
ghost use Rattle.pair_tracker.specs.Few.{Machine, Order, ops_run, cells_run, end_of};

use array_sim::act_of;
use fault_core::Act;
use march_core::{March, Op, Order, is_wrong};

/// The few cells of a fault, in which order a direction visits them, and which ends are wanted.
pub trait FewCells {
    type State: Copy;

    type Cell: Copy;

    ghost Fits: { Self → Type 0 };

    ghost machine: { Self → Machine Self.State Self.Cell };

    ghost order: { Self → Order Self.Cell };

    ghost wanted: { Self → Self.State → Bool };

    ghost number: { Self.State → ℕ };

    /// An act on one of the cells, which is no pause. The second part is the answer of a read.
    fn act(&self, start: Self::State, on: Self::Cell, act: Act) -> (Self::State, Option<bool>)
        requires fits { Fits self.now }
        requires operates { act ≢ Act.Pause }
        ensures state { (let m : Machine Self.State Self.Cell = machine self.now in result.0 ≡ m.step start on act) }
        ensures answer { (let m : Machine Self.State Self.Cell = machine self.now in result.1 ≡ m.answer start on act) };

    fn pause(&self, start: Self::State) -> Self::State
        requires { Fits self.now }
        ensures { (let m : Machine Self.State Self.Cell = machine self.now in result ≡ m.pause start) };

    /// The cells in the order of a direction.
    fn cells(&self, is_down: bool) -> &[Self::Cell]
        ensures { map Some result.now ≡ order self.now (direction_of is_down) };

    /// Whether a state is an end that is wanted.
    fn is_wanted(&self, end: Self::State) -> bool
        ensures { result ≡ wanted self.now end };

    /// The number of a state, below 8.
    fn number(&self, state: Self::State) -> usize
        ensures number { result ≡ number state }
        ensures below { result < 8 };

    ghost tells: { (q r : Self.State) → number q ≡ number r → q ≡ r };

    ghost few: { (q : Self.State) → number q < 8 };
}

/// The few cells after these operations on one of them, unless a read differs.
fn run_ops<F: FewCells>(few: &F, start: F::State, on: F::Cell, ops: &[Op]) -> Option<F::State>
    requires { F.Fits few.now }
    ensures { result ≡ ops_run (F.machine few.now) start on ops.now }
{
    let mut state = start;
    for op in ops {
        let (next, answer) = few.act(state, on, act_of(*op));
        if is_wrong(*op, answer) {
            return None;
        }
        state = next;
    }
    Some(state)
}

/// The few cells after these operations on each of these in turn, unless a read differs.
fn run_cells<F: FewCells>(
    few: &F,
    start: F::State,
    cells: &[F::Cell],
    ops: &[Op],
) -> Option<F::State>
    requires { F.Fits few.now }
    ensures { result ≡ cells_run (F.machine few.now) start (map Some cells.now) ops.now }
{
    let mut state = start;
    for on in cells {
        let Some(next) = run_ops(few, state, *on, ops) else {
            return None;
        };
        state = next;
    }
    Some(state)
}

/// Whether an order leaves a direction open.
pub fn does_allow(order: Order, is_down: bool) -> bool
    ensures { result ≡ allows order (direction_of is_down) }
{
    match order {
        Order::Up => !is_down,
        Order::Down => is_down,
        Order::Any => true,
    }
}

/// Where an element of a march leads in a direction. None where its order doesn't leave the direction open, or where
/// a read differs. A pause has no direction of its own and counts as upward.
pub(crate) fn end_of<F: FewCells>(
    few: &F,
    march: &March,
    i: usize,
    start: F::State,
    is_down: bool,
) -> Option<F::State>
    requires fits { F.Fits few.now }
    requires there { i < length march.now }
    ensures { result ≡ end_of (F.machine few.now) (F.order few.now) (element_at march.now i) start (direction_of is_down) }
{
    if march.is_pause(i) {
        return if is_down {
            None
        } else {
            Some(few.pause(start))
        };
    }
    if !does_allow(march.order(i), is_down) {
        return None;
    }
    run_cells(few, start, few.cells(is_down), march.ops(i))
}
