ghost use Rattle.std.specs.Prelude.{◌≡◌, ◌<◌};
ghost use Rattle.cell_machine.specs.Pairs.{pair_of};
ghost use Rattle.cell_machine.specs.Seen.{place_of};
ghost use Rattle.pair_tracker.specs.Few.{ops_run};
ghost use Rattle.dynamic_prover.specs.inner.Own.{own_as, own_step, own_answer, disarmed, two_places, machine_of};
ghost use Rattle.dynamic_prover.specs.inner.Legs.{own_number, passed_where};

use array_sim::act_of;
use cell_machine::{Pair, Side};
use dynamic_core::{DynPrim, step_dynamic};
use fault_core::{Act, Places};
use march_core::{Op, is_wrong};

/// The contents of the two cells of an instance, and whether its first act was done just now.
#[derive(Clone, Copy)]
pub(crate) struct OwnCells {
    pub(crate) pair: Pair,
    pub(crate) armed: bool,
}

pub(crate) fn own_cells(a: bool, v: bool, armed: bool) -> OwnCells
    ensures { result ≡ own_as (pair_of a v) armed }
{
    OwnCells {
        pair: Pair { a, v },
        armed,
    }
}

impl OwnCells {
    /// The number of these contents, below 8: the aggressor's bit first, then the victim's.
    pub(crate) fn number(self) -> usize
        ensures value { result ≡ own_number self }
        ensures below { result < 8 }
    {
        usize::from(self.pair.a) * 4 + usize::from(self.pair.v) * 2 + usize::from(self.armed)
    }

    /// The same with nothing armed.
    pub(crate) fn disarmed(self) -> OwnCells
        ensures { result ≡ disarmed self }
    {
        OwnCells {
            pair: self.pair,
            armed: false,
        }
    }

    /// What is left where other cells are passed, if any are.
    pub(crate) fn passed_where(self, are_any: bool) -> OwnCells
        ensures { result ≡ passed_where are_any self }
    {
        if are_any { self.disarmed() } else { self }
    }
}

/// What an act on one of the two cells leaves, and what it answers.
#[derive(Clone, Copy)]
struct Acted {
    own: OwnCells,
    answer: Option<bool>,
}

/// Where an instance stands in an array of its two cells alone: the aggressor, or a bystander, comes first.
fn two_places(prim: &DynPrim) -> Places
    ensures { result ≡ two_places prim.now }
{
    let agg = if prim.is_two_cell() { Some(0) } else { None };
    Places { agg, vic: 1 }
}

fn place_of(on: Side) -> usize
    ensures value { result ≡ place_of 0 1 on }
    ensures within { result < 2 }
{
    match on {
        Side::A => 0,
        Side::V => 1,
    }
}

/// One act on one of the two cells, as on an array of these two.
fn act_on(prim: &DynPrim, start: OwnCells, on: Side, act: Act) -> Acted
    ensures own { result.own ≡ own_step prim.now start on act }
    ensures answer { result.answer ≡ own_answer prim.now start on act }
{
    let mut cells = [start.pair.a, start.pair.v];
    let mut armed = start.armed;
    let answer = step_dynamic(
        prim,
        two_places(prim),
        &mut cells,
        &mut armed,
        place_of(on),
        act,
    );
    let pair = Pair {
        a: cells[0],
        v: cells[1],
    };
    Acted {
        own: OwnCells { pair, armed },
        answer,
    }
}

/// The two cells after these operations on one of them, unless a read differs.
pub(crate) fn run_ops(prim: &DynPrim, start: OwnCells, on: Side, ops: &[Op]) -> Option<OwnCells>
    ensures { result ≡ ops_run (machine_of prim.now) start on ops.now }
{
    let mut own = start;
    for op in ops {
        let acted = act_on(prim, own, on, act_of(*op));
        if is_wrong(*op, acted.answer) {
            return None;
        }
        own = acted.own;
    }
    Some(own)
}
