ghost use Rattle.std.specs.Prelude.{◌≡◌, ◌<◌, length};
ghost use Rattle.march_core.specs.March.{element_at};
ghost use Rattle.cell_machine.specs.Pairs.{pair_holds, side_holds, agg_act_of, pair_close};
ghost use Rattle.word_device.specs.Chips.{has_bit};
ghost use Rattle.word_coupling.specs.inner.Couples.{bits_at, pair_op, act_with, couple_acts, plain_couple, found_pair, couple_after, victim_reply, is_misread, run_op, run_ops, run_element, run_march, run_test, passes};

use crate::reading::Reading;
use cell_machine::{Pair, Side, close, do_states_hold, own_act, pause};
use fault_core::{Act, Prim};
use march_core::{March, Op};
use word_device::has_bit;

/// An operation on a word, as two of its bits see it.
#[derive(Clone, Copy)]
pub(crate) struct PairOp {
    /// Whether it writes; else it reads.
    pub(crate) write: bool,
    /// The bits that it writes or expects.
    pub(crate) bits: Pair,
}

/// The two bits of a background.
pub(crate) fn bits_at(background: u64, agg: u8, vic: u8) -> Pair
    requires agg { agg < 64 }
    requires vic { vic < 64 }
    ensures { result ≡ bits_at agg vic background }
{
    Pair {
        a: has_bit(background, agg),
        v: has_bit(background, vic),
    }
}

/// An operation of the march in a background that has these two bits.
fn pair_op(background: Pair, op: Op) -> PairOp
    ensures { result ≡ pair_op background op }
{
    let value = op.data_value();
    PairOp {
        write: op.writes(),
        bits: Pair {
            a: value != background.a,
            v: value != background.v,
        },
    }
}

/// What an operation does to a bit.
fn act_with(write: bool, bit: bool) -> Act
    ensures { result ≡ act_with write bit }
{
    if write { Act::Write(bit) } else { Act::Read }
}

/// Whether the operation is the act of the primitive, at either bit, on contents where its states hold.
#[tactic(auto, unfolding(crate::specs::inner::Couples::couple_acts))]
fn does_act(prim: &Prim, pair: Pair, op: PairOp) -> bool
    ensures { result ≡ couple_acts prim.now pair op }
{
    (own_act(prim, Side::V) == Some(act_with(op.write, op.bits.v))
        || own_act(prim, Side::A) == Some(act_with(op.write, op.bits.a)))
        && do_states_hold(prim, pair)
}

/// The plain part of an operation.
fn plain_couple(pair: Pair, op: PairOp) -> Pair
    ensures { result ≡ plain_couple pair op }
{
    if op.write { op.bits } else { pair }
}

/// The two bits in which an operation finds the states.
#[tactic(auto, unfolding(crate::specs::inner::Couples::found_pair))]
fn found_pair(reading: Reading, prim: &Prim, pair: Pair, op: PairOp) -> Pair
    ensures { result ≡ found_pair reading prim.now pair op }
{
    let plain = plain_couple(pair, op);
    match reading {
        Reading::Before => pair,
        Reading::Behind => {
            if prim.vic().act.is_some() {
                Pair { v: pair.v, ..plain }
            } else {
                Pair { a: pair.a, ..plain }
            }
        }
    }
}

/// The two bits behind an operation.
#[tactic(auto, unfolding(crate::specs::inner::Couples::couple_after))]
fn couple_after(reading: Reading, prim: &Prim, pair: Pair, op: PairOp) -> Pair
    ensures { result ≡ couple_after reading prim.now pair op }
{
    let mut next = plain_couple(pair, op);
    if does_act(prim, found_pair(reading, prim, pair, op), op) {
        next.v = prim.after();
    }
    close(prim, next)
}

/// What a read shows of the victim.
#[tactic(auto, unfolding(crate::specs::inner::Couples::victim_reply))]
fn victim_reply(prim: &Prim, pair: Pair, op: PairOp) -> bool
    ensures { result ≡ victim_reply prim.now pair op }
{
    if does_act(prim, pair, op) {
        prim.answer().unwrap_or(pair.v)
    } else {
        pair.v
    }
}

/// Whether the operation is a read that shows another bit of the victim than it expects.
#[tactic(auto, unfolding(crate::specs::inner::Couples::is_misread))]
fn is_misread(prim: &Prim, pair: Pair, op: PairOp) -> bool
    ensures { result ≡ is_misread prim.now pair op }
{
    !op.write && victim_reply(prim, pair, op) != op.bits.v
}

/// The two bits behind an operation, unless a read is wrong.
fn run_op(reading: Reading, prim: &Prim, pair: Pair, op: PairOp) -> Option<Pair>
    ensures { result ≡ run_op reading prim.now pair op }
{
    if is_misread(prim, pair, op) {
        return None;
    }
    Some(couple_after(reading, prim, pair, op))
}

/// The two bits behind these operations in a background, unless a read is wrong.
fn run_ops(reading: Reading, prim: &Prim, background: Pair, ops: &[Op], start: Pair) -> Option<Pair>
    ensures { result ≡ run_ops reading prim.now background ops.now start }
{
    let mut pair = start;
    for op in ops {
        pair = run_op(reading, prim, pair, pair_op(background, *op))?;
    }
    Some(pair)
}

/// The two bits behind an element, unless a read is wrong.
fn run_element(
    reading: Reading,
    prim: &Prim,
    background: Pair,
    march: &March,
    element: usize,
    start: Pair,
) -> Option<Pair>
    requires { element < length march.now }
    ensures { result ≡ run_element reading prim.now background (element_at march.now element) start }
{
    if march.is_pause(element) {
        return Some(pause(prim, start));
    }
    run_ops(reading, prim, background, march.ops(element), start)
}

/// The two bits behind the march in a background, unless a read is wrong.
pub(crate) fn run_march(
    reading: Reading,
    prim: &Prim,
    background: Pair,
    march: &March,
    start: Pair,
) -> Option<Pair>
    ensures { result ≡ run_march reading prim.now background march.now start }
{
    let mut pair = start;
    for element in 0..march.len() {
        pair = run_element(reading, prim, background, march, element, pair)?;
    }
    Some(pair)
}
