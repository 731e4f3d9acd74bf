ghost use Rattle.std.specs.Prelude.{◌≡◌, ◌<◌, length, ◌++◌, ◌∷◌, [], OnOk, IfOk};
ghost use Rattle.march_core.specs.March.{pause, sweep, element_at, IsMarch};
ghost use Rattle.march_syntax.specs.MarchText.{MarchText, op_text};
ghost use Rattle.march_syntax.specs.Printed.{order_text, ops_text, element_text, elements_text, printed};
ghost use Rattle.march_syntax.specs.inner.Printed.{separator};

use bist_bits::NoMemory;
use march_core::{March, Op, Order};
use std::alloc::{AllocError, Global};

fn order_word(order: Order) -> &'static [u8]
    ensures { result.now ≡ order_text order }
{
    match order {
        Order::Up => b"up",
        Order::Down => b"down",
        Order::Any => b"any",
    }
}

fn op_word(op: Op) -> &'static [u8]
    ensures { result.now ≡ op_text op }
{
    match op {
        Op::W0 => b"w0",
        Op::W1 => b"w1",
        Op::R0 => b"r0",
        Op::R1 => b"r1",
    }
}

/// Writes a separator before part `i`, unless that is the first.
fn separate(out: &mut Vec<u8>, mark: u8, i: usize) -> Result<(), AllocError>
    ensures { OnOk result (out.new.items ≡ out.old.items ++ separator mark i) }
{
    if i > 0 {
        out.push(mark)?;
    }
    Ok(())
}

fn write_ops(out: &mut Vec<u8>, ops: &[Op]) -> Result<(), AllocError>
    ensures { OnOk result (out.new.items ≡ out.old.items ++ ops_text ops.now) }
{
    for (i, op) in ops.iter().enumerate() {
        separate(out, b',', i)?;
        out.extend_from_slice(op_word(*op))?;
    }
    Ok(())
}

fn write_sweep(out: &mut Vec<u8>, order: Order, ops: &[Op]) -> Result<(), AllocError>
    ensures { OnOk result (out.new.items ≡ out.old.items ++ element_text (sweep order ops.now)) }
{
    out.extend_from_slice(order_word(order))?;
    out.push(b'(')?;
    write_ops(out, ops)?;
    out.push(b')')?;
    Ok(())
}

fn write_pause(out: &mut Vec<u8>) -> Result<(), AllocError>
    ensures { OnOk result (out.new.items ≡ out.old.items ++ element_text pause) }
{
    out.extend_from_slice(b"del")?;
    Ok(())
}

fn write_element(out: &mut Vec<u8>, march: &March, i: usize) -> Result<(), AllocError>
    requires { i < length march.now }
    ensures { OnOk result (out.new.items ≡ out.old.items ++ element_text (element_at march.now i)) }
{
    if march.is_pause(i) {
        write_pause(out)
    } else {
        write_sweep(out, march.order(i), march.ops(i))
    }
}

fn write_elements(out: &mut Vec<u8>, march: &March) -> Result<(), AllocError>
    ensures text { OnOk result (out.new.items ≡ out.old.items ++ elements_text march.now) }
    ensures march { IsMarch march.now }
{
    for i in 0..march.len() {
        separate(out, b';', i)?;
        write_element(out, march, i)?;
    }
    Ok(())
}

fn march_text(alloc: Global, march: &March) -> Result<Vec<u8>, AllocError>
    ensures form { IfOk result (λ text. text.items ≡ printed march.now) }
    ensures march { OnOk result (IsMarch march.now) }
{
    let mut out = Vec::new(alloc);
    out.push(b'{')?;
    write_elements(&mut out, march)?;
    out.push(b'}')?;
    Ok(out)
}

/// The printed form of a march: `up`, `down`, `any` and `del`, braces, and neither blanks nor a line end.
#[tactic(auto, using(crate::proofs::PrintLaws::printed_is))]
pub fn print_march(alloc: Global, march: &March) -> Result<Vec<u8>, NoMemory>
    ensures form { IfOk result (λ text. text.items ≡ printed march.now) }

    // It is the text of this march, to which `read_march` reads it.
    ensures read_back { IfOk result (λ text. MarchText text.items march.now × IsMarch march.now) }
{
    march_text(alloc, march).map_err(|_| NoMemory)
}
