//! The march of a number: March C- of an odd one; of an even one March SS and further elements, which a sequence of numbers gives.

ghost use Rattle.std.specs.Prelude.{◌≡◌, ◌<◌, ◌≤◌, ◌+◌, ◌++◌, ◌∷◌, [], Ok, IfOk, length};
ghost use Rattle.march_core.specs.March.{sweep, all_ops};
ghost use Rattle.march_syntax.specs.Answers.{Reads};
ghost use Rattle.made_inputs.specs.MadeMarch.{next_number, order_for, first_bit, last_bit, read_of, write_of, further_ops, march_c_minus, march_ss, long_march, made_march, line_of};

use bist_bits::NoMemory;
use bist_text::put;
use march_core::{March, MarchBuilder, Op, Order};
use march_syntax::print_march;
use std::alloc::Global;

/// How many elements stand behind March SS.
const FURTHER: usize = 58;

/// The number behind another in the sequence.
fn next_number(x: u32) -> u32
    requires { x < 65536 }
    ensures value { result ≡ next_number x }
    ensures small { result < 65536 }
{
    (25_173 * x + 13_849) % 65_536
}

/// The order of an element, by its number.
fn order_for(x: u32) -> Order
    ensures { result ≡ order_for x }
{
    match x % 3 {
        0 => Order::Up,
        1 => Order::Down,
        _ => Order::Any,
    }
}

/// The bit that an element writes first.
fn first_bit(x: u32) -> bool
    ensures { result ≡ first_bit x }
{
    x / 256 % 2 == 1
}

/// The bit that an element writes last.
fn last_bit(x: u32) -> bool
    ensures { result ≡ last_bit x }
{
    x / 512 % 2 == 1
}

fn read_of(bit: bool) -> Op
    ensures { result ≡ read_of bit }
{
    if bit { Op::R1 } else { Op::R0 }
}

fn write_of(bit: bool) -> Op
    ensures { result ≡ write_of bit }
{
    if bit { Op::W1 } else { Op::W0 }
}

/// The operations of an element that finds this bit in each cell.
fn further_ops(held: bool, x: u32) -> [Op; 4]
    ensures { result ≡ further_ops held x }
{
    let bit = first_bit(x);
    [
        read_of(held),
        write_of(bit),
        read_of(bit),
        write_of(last_bit(x)),
    ]
}

/// Adds an element with these operations.
fn add_element(builder: &mut MarchBuilder, order: Order, ops: &[Op])
    requires elements { length builder.old < 64 }
    requires few { length ops.now ≤ 16 }
    requires all { length (all_ops builder.old) + length ops.now ≤ 256 }
    ensures { builder.new ≡ builder.old ++ sweep order ops.now ∷ [] }
{
    builder.element(order).unwrap();
    for op in ops {
        builder.op(*op).unwrap();
    }
}

/// Begins with March C-.
fn add_march_c_minus(builder: &mut MarchBuilder)
    requires { builder.old ≡ [] }
    ensures { builder.new ≡ march_c_minus }
{
    add_element(builder, Order::Any, &[Op::W0]);
    add_element(builder, Order::Up, &[Op::R0, Op::W1]);
    add_element(builder, Order::Up, &[Op::R1, Op::W0]);
    add_element(builder, Order::Down, &[Op::R0, Op::W1]);
    add_element(builder, Order::Down, &[Op::R1, Op::W0]);
    add_element(builder, Order::Any, &[Op::R0]);
}

/// Begins with March SS.
fn add_march_ss(builder: &mut MarchBuilder)
    requires { builder.old ≡ [] }
    ensures { builder.new ≡ march_ss }
{
    add_element(builder, Order::Any, &[Op::W0]);
    add_element(
        builder,
        Order::Up,
        &[Op::R0, Op::R0, Op::W0, Op::R0, Op::W1],
    );
    add_element(
        builder,
        Order::Up,
        &[Op::R1, Op::R1, Op::W1, Op::R1, Op::W0],
    );
    add_element(
        builder,
        Order::Down,
        &[Op::R0, Op::R0, Op::W0, Op::R0, Op::W1],
    );
    add_element(
        builder,
        Order::Down,
        &[Op::R1, Op::R1, Op::W1, Op::R1, Op::W0],
    );
    add_element(builder, Order::Any, &[Op::R0]);
}

/// Goes on behind March SS with the elements that the sequence gives.
fn add_further(builder: &mut MarchBuilder, number: u32)
    requires begun { builder.old ≡ march_ss }
    requires small { number < 65536 }
    ensures { builder.new ≡ long_march number }
{
    let mut x = number;
    let mut held = false;
    for _element in 0..FURTHER {
        x = next_number(x);
        add_element(builder, order_for(x), &further_ops(held, x));
        held = last_bit(x);
    }
}

/// The elements of a number.
fn add_made(builder: &mut MarchBuilder, number: u16)
    requires { builder.old ≡ [] }
    ensures { builder.new ≡ made_march number }
{
    if number % 2 == 1 {
        add_march_c_minus(builder);
    } else {
        add_march_ss(builder);
        add_further(builder, u32::from(number));
    }
}

/// The march of a number.
#[tactic(auto, using(crate::proofs::MarchLaws::made_is_march))]
pub fn march_of(number: u16) -> March
    ensures { result ≡ made_march number }
{
    let mut builder = MarchBuilder::new();
    add_made(&mut builder, number);
    builder.finish().unwrap()
}

/// A march on a line.
#[tactic(auto, using(crate::proofs::LineLaws::line_reads))]
pub fn march_text(alloc: Global, march: &March) -> Result<Vec<u8>, NoMemory>
    ensures form { IfOk result (λ text. text.items ≡ line_of march.now) }
    ensures read_back { IfOk result (λ text. Reads text.items (Ok march.now)) }
{
    let mut text = print_march(alloc, march)?;
    put(&mut text, b"\n")?;
    Ok(text)
}
