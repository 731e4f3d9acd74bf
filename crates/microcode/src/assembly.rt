ghost use Rattle.std.specs.Prelude.{◌≡◌, ◌+◌, ◌<◌, ◌≤◌, ◌++◌, length};
ghost use Rattle.march_core.specs.March.{sweep, element_at};
ghost use Rattle.microcode.specs.Code.{goes_down, opers_at, instrs_from, assemble};

use crate::code::{Instr, Program};
use arrayvec::ArrayVec;
use march_core::{March, Op, Order};

/// Whether the hardware goes downward in an element of this order.
fn down_of(order: Order) -> bool
    ensures { result ≡ goes_down order }
{
    match order {
        Order::Down => true,
        Order::Up | Order::Any => false,
    }
}

/// The code of a march: one instruction for each operation, and one for each pause.
pub fn assemble(march: &March) -> Program
    ensures { result.items ≡ assemble march.now }
{
    let mut code = ArrayVec::new();
    for element in 0..march.len() {
        push_element(&mut code, march, element);
    }
    code
}

fn push_element(code: &mut Program, march: &March, element: usize)
    requires within { element < length march.now }
    requires room { length code.old.items + opers_at march.now element ≤ 320 }
    ensures { code.new.items ≡ code.old.items ++ instrs_from (element_at march.now element) 0 (opers_at march.now element) }
{
    if march.is_pause(element) {
        code.push(Instr {
            write: false,
            bit: false,
            down: false,
            last: true,
            pause: true,
        });
    } else {
        push_ops(code, march.order(element), march.ops(element));
    }
}

fn push_ops(code: &mut Program, order: Order, ops: &[Op])
    requires { length code.old.items + length ops.now ≤ 320 }
    ensures { code.new.items ≡ code.old.items ++ instrs_from (sweep order ops.now) 0 (length ops.now) }
{
    let down = down_of(order);
    for (number, op) in ops.iter().enumerate() {
        code.push(Instr {
            write: op.writes(),
            bit: op.data_value(),
            down,
            last: number == ops.len() - 1,
            pause: false,
        });
    }
}
