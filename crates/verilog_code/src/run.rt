//! The values of one cycle, computed in place.
ghost use Rattle.std.specs.Prelude.{◌≡◌, ℕ, ◌+◌, ◌<◌, ◌≤◌, List, length, map, take, get_or};
ghost use Rattle.verilog_code.specs.Places.{put, put_all, settled, run_blocks};
ghost use Rattle.verilog_code.specs.Reading.{AreReading, Known};
ghost use Rattle.verilog_code.specs.declared.step.Step.{Step};

use crate::action::Action;
use crate::cells::put;
use crate::net_value::NetValue;
use crate::step::{Step, bit};

// Puts these from a place on.
fn put_all<V: NetValue>(values: &mut Vec<V>, first: usize, all: &[V])
    requires { first + length all.now ≤ length values.old.items }
    ensures len { length values.new.items ≡ length values.old.items }
    ensures items { values.new.items ≡ put_all first all.now values.old.items }
{
    for (i, x) in all.iter().enumerate() {
        put(values, first + i, *x);
    }
}

// Puts a value at a place, and gives the bits of what has changed: these, and that of the place where it has.
#[inline]
fn renew<V: NetValue>(values: &mut Vec<V>, place: usize, x: V, changed: u64) -> u64
    ensures len { length values.new.items ≡ length values.old.items }
    ensures items { values.new.items ≡ put values.old.items place x }
    ensures known { (k : ℕ) (ss : List Step) → place < k → AreReading ss
        → Known V.zero V.worth k changed ss values.old.items → Known V.zero V.worth k result ss values.new.items }
{
    if V::at(values, place).equals(x) {
        return changed;
    }
    put(values, place, x);
    changed | bit(place)
}

/// Puts these from a place on, and gives the bits of what has changed: these, and those of the places where it has.
pub fn renew_all<V: NetValue>(values: &mut Vec<V>, first: usize, all: &[V], before: u64) -> u64
    requires { first + length all.now ≤ length values.old.items }
    ensures len { length values.new.items ≡ length values.old.items }
    ensures items { values.new.items ≡ put_all first all.now values.old.items }
    ensures known { (k : ℕ) (ss : List Step) → first + length all.now ≤ k → AreReading ss
        → Known V.zero V.worth k before ss values.old.items → Known V.zero V.worth k result ss values.new.items }
{
    let mut changed = before;
    for (i, x) in all.iter().enumerate() {
        changed = renew(values, first + i, *x, changed);
    }
    changed
}

// Computes the values from a place on, in order: where nothing that a code reads has changed, what it is worth stands
// there.
fn settle<V: NetValue>(values: &mut Vec<V>, first: usize, steps: &[Step], before: u64)
    requires room { first + length steps.now ≤ length values.old.items }
    requires reading { AreReading steps.now }
    requires known { Known V.zero V.worth first before steps.now values.old.items }
    ensures { values.new.items ≡ settled V.worth first (map (λ s. s.code.value) steps.now) values.old.items }
{
    let mut changed = before;
    for (i, step) in steps.iter().enumerate() {
        if changed & step.reads != 0 {
            let x = V::of(&step.code, values);
            changed = renew(values, first + i, x, changed);
        }
    }
}

/// Copies the values at these places.
pub fn show<V: NetValue>(shown: &mut Vec<V>, places: &[usize], values: &[V])
    requires { length places.now ≡ length shown.old.items }
    ensures len { length shown.new.items ≡ length shown.old.items }
    ensures items { shown.new.items ≡ map (λ k. get_or values.now k V.zero) places.now }
{
    for (i, place) in places.iter().enumerate() {
        shown[i] = V::at(values, *place);
    }
}

fn run_blocks<V: NetValue>(next: &mut Vec<V>, blocks: &[Vec<Action>], values: &[V])
    ensures len { length next.new.items ≡ length next.old.items }
    ensures items { next.new.items ≡ run_blocks V.do_all (map (λ b. map V.doing b.items) blocks.now) values.now next.old.items }
{
    for block in blocks {
        V::act_all(block, values, next.as_mut_slice());
    }
}

// What the registers, the first of the values, become at an edge.
fn advance<V: NetValue>(next: &mut Vec<V>, blocks: &[Vec<Action>], values: &[V])
    requires { length next.old.items ≤ length values.now }
    ensures len { length next.new.items ≡ length next.old.items }
    ensures items { next.new.items ≡ run_blocks V.do_all (map (λ b. map V.doing b.items) blocks.now) values.now
        (put_all 0 (take (length next.old.items) values.now) next.old.items) }
{
    let registers = next.len();
    put_all(next, 0, &values[..registers]);
    run_blocks(next, blocks, values);
}

/// Puts the inputs behind the registers, and computes the nets behind them. These are the bits of the places that have
/// changed since they were computed last.
pub fn compute<V: NetValue>(
    values: &mut Vec<V>,
    registers: usize,
    inputs: &[V],
    steps: &[Step],
    changed: u64,
)
    requires room { registers + length inputs.now + length steps.now ≤ length values.old.items }
    requires reading { AreReading steps.now }
    requires known { Known V.zero V.worth (registers + length inputs.now) changed steps.now values.old.items }
    ensures { values.new.items ≡ settled V.worth (registers + length inputs.now) (map (λ s. s.code.value) steps.now)
        (put_all registers inputs.now values.old.items) }
{
    let changed = renew_all(values, registers, inputs, changed);
    settle(values, registers + inputs.len(), steps, changed);
}

/// Gives the registers, the first of the values, what they become at an edge: all of them are worked out before one is
/// written. The result is the bits of the registers that change.
pub fn step_registers<V: NetValue>(
    values: &mut Vec<V>,
    next: &mut Vec<V>,
    blocks: &[Vec<Action>],
) -> u64
    requires { length next.old.items ≤ length values.old.items }
    ensures items { values.new.items ≡ put_all 0
        (run_blocks V.do_all (map (λ b. map V.doing b.items) blocks.now) values.old.items
        (put_all 0 (take (length next.old.items) values.old.items) next.old.items)) values.old.items }
    ensures len { length next.new.items ≡ length next.old.items }
    ensures known { (k : ℕ) (ss : List Step) → length next.old.items ≤ k → AreReading ss
        → Known V.zero V.worth k 0 ss values.old.items → Known V.zero V.worth k result ss values.new.items }
{
    advance(next, blocks, values);
    renew_all(values, 0, next, 0)
}
