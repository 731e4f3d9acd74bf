//! The cells of an instance alone, through an element of a march.
ghost use Rattle.std.specs.Prelude.{◌≡◌, ◌≢◌, ◌<◌, ◌≤◌, ℕ, Some, true, length};
ghost use Rattle.march_core.specs.Addresses.{direction_of};
ghost use Rattle.march_core.specs.March.{element_at};
ghost use Rattle.march_core.specs.Visits.{addresses};
ghost use Rattle.pair_tracker.specs.Few.{ops_run, cell_run, cells_run};
ghost use Rattle.sequence_faults.specs.inner.Few.{machine_of, passed_by, seat_at, order_at, few_of};
ghost use Rattle.sequence_faults.specs.inner.Searching.{lead_at};

use crate::primitive::SeqPrim;
use crate::stepping::{Done, NOTHING, act_on};
use array_sim::act_of;
use fault_core::Act;
use march_core::{March, Op, address_of, is_wrong};
use pair_tracker::does_allow;

/// The contents of up to three cells, and which beginnings of the operations were done just now.
#[derive(Clone, Copy)]
pub(crate) struct Few {
    pub(crate) x: bool,
    pub(crate) y: bool,
    pub(crate) z: bool,
    pub(crate) done: Done,
}

/// Three addresses, and how many cells the array has. Those that an instance doesn't need are past its end.
#[derive(Clone, Copy)]
pub(crate) struct Spots {
    pub(crate) size: usize,
    pub(crate) a: usize,
    pub(crate) b: usize,
    pub(crate) c: usize,
}

fn same_bits(one: &Done, other: &Done) -> bool
    ensures { result ≡ true → one.now ≡ other.now }
{
    one == other
}

impl Few {
    /// Whether two are the same.
    pub(crate) fn is(&self, other: &Few) -> bool
        ensures { result ≡ true → self.now ≡ other.now }
    {
        if self.x != other.x || self.y != other.y || self.z != other.z {
            return false;
        }
        same_bits(&self.done, &other.done)
    }

    /// What is left behind an act on another cell.
    fn passed(self) -> Few
        ensures { result ≡ passed_by self }
    {
        Few {
            x: self.x,
            y: self.y,
            z: self.z,
            done: NOTHING,
        }
    }
}

/// Which of the three an address is.
fn seat_at(spots: Spots, address: usize) -> Option<usize>
    ensures seat { result ≡ seat_at spots address }
    ensures within { (i : ℕ) → result ≡ Some i → i < 3 }
{
    if address == spots.a {
        Some(0)
    } else if address == spots.b {
        Some(1)
    } else if address == spots.c {
        Some(2)
    } else {
        None
    }
}

/// What an act on one of the cells leaves, and what it answers.
#[derive(Clone, Copy)]
struct Acted {
    few: Few,
    answer: Option<bool>,
}

fn act_at(prim: &SeqPrim, start: Few, on: usize, act: Act) -> Acted
    requires { on < 3 }
    ensures few { result.few ≡ (machine_of prim.now).step start on act }
    ensures answer { result.answer ≡ (machine_of prim.now).answer start on act }
{
    prim.known();
    let mut cells = [start.x, start.y, start.z];
    let mut done = start.done;
    let answer = act_on(prim, &[0, 1, 2], &mut cells, &mut done, on, act);
    Acted {
        few: Few {
            x: cells[0],
            y: cells[1],
            z: cells[2],
            done,
        },
        answer,
    }
}

/// The cells after these operations on one of them, unless a read differs.
fn run_ops(prim: &SeqPrim, start: Few, on: usize, ops: &[Op]) -> Option<Few>
    requires { on < 3 }
    ensures { result ≡ ops_run (machine_of prim.now) start on ops.now }
{
    let mut few = start;
    for op in ops {
        let acted = act_at(prim, few, on, act_of(*op));
        if is_wrong(*op, acted.answer) {
            return None;
        }
        few = acted.few;
    }
    Some(few)
}

/// The cells after these operations on one address.
fn run_cell(prim: &SeqPrim, start: Few, seat: Option<usize>, ops: &[Op]) -> Option<Few>
    requires { (i : ℕ) → seat ≡ Some i → i < 3 }
    ensures { result ≡ cell_run (machine_of prim.now) start seat ops.now }
{
    match seat {
        Some(on) => run_ops(prim, start, on, ops),
        None if ops.is_empty() => Some(start),
        None => Some(start.passed()),
    }
}

/// The cells after these operations on each address in turn, unless a read differs.
fn run_cells(prim: &SeqPrim, spots: Spots, start: Few, is_down: bool, ops: &[Op]) -> Option<Few>
    ensures { result ≡ cells_run (machine_of prim.now) start (order_at spots (direction_of is_down)) ops.now }
{
    let mut few = start;
    for turn in 0..spots.size {
        let address = address_of(is_down, turn, spots.size);
        let Some(next) = run_cell(prim, few, seat_at(spots, address), ops) else {
            return None;
        };
        few = next;
    }
    Some(few)
}

/// Where an element of a march leads in a direction. None where its order doesn't leave the direction open, or where
/// a read differs. A pause has no direction of its own and counts as upward.
pub(crate) fn end_of(
    prim: &SeqPrim,
    spots: Spots,
    march: &March,
    i: usize,
    start: Few,
    is_down: bool,
) -> Option<Few>
    requires { i < length march.now }
    ensures { result ≡ lead_at prim.now spots (element_at march.now i) start (direction_of is_down) }
{
    if march.is_pause(i) {
        return if is_down { None } else { Some(start.passed()) };
    }
    if !does_allow(march.order(i), is_down) {
        return None;
    }
    run_cells(prim, spots, start, is_down, march.ops(i))
}
