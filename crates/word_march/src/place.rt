ghost use Rattle.std.specs.Prelude.{◌≡◌, ◌<◌, length, slice_get, slice_index, IfSome, IfNone};
ghost use Rattle.march_core.specs.declared.operation.Op.{Op};
ghost use Rattle.march_core.specs.March.{ops_at};
ghost use Rattle.march_core.specs.Visits.{addresses};
ghost use Rattle.march_core.specs.Runs.{upward};
ghost use Rattle.word_march.specs.Commands.{word_op};
ghost use Rattle.word_march.specs.Standing.{IsPlace};
ghost use Rattle.word_march.specs.inner.Standing.{IsFirst, IsNextSweep, ArePauses, Follows, visit_at};

use crate::operations::WordOp;
use backgrounds::word_of;
use march_core::{March, Op, Order};
use memory_desc::Memory;

/// Where in the operations of a march on a memory an iterator stands.
#[derive(Clone, Copy)]
pub struct MarchPlace {
    pub background: usize,
    pub element: usize,
    pub step: u32,
    pub op: usize,
}

/// The address of a step, in the order in which the hardware visits the addresses.
#[tactic(auto, using(march_core::proofs::Addresses::address_upward, march_core::proofs::Addresses::address_downward))]
fn address_of(order: Order, step: u32, words: u32) -> u32
    requires { step < words }
    ensures value { result ≡ slice_index (addresses (upward order) words) step }
    ensures below { result < words }
{
    match order {
        Order::Up | Order::Any => step,
        Order::Down => words - 1 - step,
    }
}

/// The operation at a place.
pub fn operation_at(march: &March, memory: &Memory, place: MarchPlace) -> WordOp
    requires place { IsPlace march.now memory.now place }
    requires more { place.background < length memory.now.backgrounds }
    ensures operation { (op : Op) → slice_get (ops_at march.now place.element) place.op ≡ Some op
        → result ≡ word_op memory.now.bits (slice_index memory.now.backgrounds place.background) (visit_at march.now memory.now.words place op) }
    ensures index { result.index < memory.now.words }
{
    let background = memory.backgrounds()[place.background];
    let op = march.ops(place.element)[place.op];
    WordOp {
        write: op.writes(),
        index: address_of(march.order(place.element), place.step, memory.words()),
        word: word_of(background, op.data_value(), memory.bits()),
    }
}

/// The first element from this one on that isn't a pause.
fn sweep_from(march: &March, first: usize) -> Option<usize>
    ensures found { IfSome result (IsNextSweep march.now first) }
    ensures none { IfNone result (ArePauses march.now first (length march.now)) }
{
    for element in first..march.len() {
        if !march.is_pause(element) {
            return Some(element);
        }
    }
    None
}

/// The first place of the run in a background.
pub fn run_start(march: &March, background: usize) -> MarchPlace
    ensures { IsFirst march.now background result }
{
    march.known();
    MarchPlace {
        background,
        element: sweep_from(march, 0).unwrap_or(0),
        step: 0,
        op: 0,
    }
}

/// The place behind a place, in the order of the operations.
pub fn place_behind(march: &March, memory: &Memory, place: MarchPlace) -> MarchPlace
    requires place { IsPlace march.now memory.now place }
    requires more { place.background < length memory.now.backgrounds }
    ensures place { IsPlace march.now memory.now result }
    ensures behind { Follows march.now memory.now place result }
{
    let ops = march.ops(place.element).len();
    let words = memory.words();
    march.known();
    if place.op + 1 < ops {
        return MarchPlace {
            op: place.op + 1,
            ..place
        };
    }
    if place.step + 1 < words {
        return MarchPlace {
            step: place.step + 1,
            op: 0,
            ..place
        };
    }
    match sweep_from(march, place.element + 1) {
        Some(element) => MarchPlace {
            element,
            step: 0,
            op: 0,
            ..place
        },
        None => run_start(march, place.background + 1),
    }
}
