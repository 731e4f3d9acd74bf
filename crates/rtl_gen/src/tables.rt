//! The tables of a march and a memory.
ghost use Rattle.std.specs.Prelude.{◌≡◌, ℕ, ◌<◌, ◌≤◌, false, map, length};
ghost use Rattle.march_core.specs.March.{pause, sweep, element_at, is_pause_at, ops_at};
ghost use Rattle.microcode.specs.Code.{goes_down};
ghost use Rattle.rtl_gen.specs.inner.Planned.{operation_of, element_of, row_of, rows_from};

use arrayvec::ArrayVec;
use march_core::{March, Op, Order};
use memory_desc::Memory;
use rtl_layout::{Element, PlanOperation, Row};
use scrambler::Scramble;

fn operation(op: Op) -> PlanOperation
    ensures { result ≡ operation_of op }
{
    let (write, bit) = match op {
        Op::W0 => (true, false),
        Op::W1 => (true, true),
        Op::R0 => (false, false),
        Op::R1 => (false, true),
    };
    PlanOperation { write, bit }
}

fn is_down(order: Order) -> bool
    ensures { result ≡ goes_down order }
{
    match order {
        Order::Down => true,
        Order::Up | Order::Any => false,
    }
}

// An element that isn't a pause.
fn swept(order: Order, ops: &[Op]) -> Element
    requires { length ops.now ≤ 16 }
    ensures { result ≡ element_of (sweep order ops.now) }
{
    let mut element = Element::new(is_down(order), false);
    for op in ops {
        element.push(operation(*op));
    }
    element
}

// A pause.
fn paused() -> Element
    ensures { result ≡ element_of pause }
{
    let mut element = Element::new(false, true);
    element.push(PlanOperation {
        write: false,
        bit: false,
    });
    element
}

/// How many operations an element has.
fn ops_count(march: &March, i: usize) -> usize
    requires { i < length march.now }
    ensures value { result ≡ length (ops_at march.now i) }
    ensures few { result ≤ 16 }
{
    march.known();
    march.ops(i).len()
}

fn element(march: &March, i: usize) -> Element
    requires { i < length march.now }
    ensures { result ≡ element_of (element_at march.now i) }
{
    let _count = ops_count(march, i);
    if march.is_pause(i) {
        return paused();
    }
    swept(march.order(i), march.ops(i))
}

/// The elements of a march.
pub fn elements(march: &March) -> ArrayVec<Element, 64>
    ensures { result.items ≡ map element_of march.now }
{
    let mut elements = ArrayVec::new();
    for i in 0..march.len() {
        elements.push(element(march, i));
    }
    elements
}

/// Whether a march has a pause.
pub fn has_pause(march: &March) -> bool
    ensures { result ≡ false → (k : ℕ) → k < length march.now → is_pause_at march.now k ≡ false }
{
    for i in 0..march.len() {
        if march.is_pause(i) {
            return true;
        }
    }
    false
}

/// The most operations that an element has, and at least 1.
pub fn most_ops(march: &March) -> usize
    ensures some { 1 ≤ result }
    ensures few { result ≤ 16 }
    ensures each { (k : ℕ) → length (ops_at march.now k) ≤ result }
{
    let mut most = 1;
    for i in 0..march.len() {
        let count = ops_count(march, i);
        if most < count {
            most = count;
        }
    }
    most
}

/// The backgrounds of a memory's test.
pub fn backgrounds(memory: &Memory) -> ArrayVec<u64, 8>
    ensures { result.items ≡ memory.now.backgrounds }
{
    let words = memory.backgrounds();
    let mut set = ArrayVec::new();
    for word in words {
        set.push(*word);
    }
    set
}

// Bit i of the address.
fn row(scramble: &Scramble, i: u8) -> Row
    requires { i < scramble.now.width }
    ensures { result ≡ row_of scramble.now i }
{
    scramble.known();
    Row {
        mask: u64::from(scramble.row(i)),
        flip: (scramble.constant() >> i) % 2 == 1,
    }
}

/// The rows of a scrambling, from the lowest bit of the address up.
pub fn rows(scramble: &Scramble) -> ArrayVec<Row, 16>
    ensures { result.items ≡ rows_from scramble.now 0 scramble.now.width }
{
    let mut rows = ArrayVec::new();
    for i in 0..scramble.width() {
        rows.push(row(scramble, i));
    }
    rows
}
