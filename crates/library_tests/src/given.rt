//! What tests of calls share: how they end, and inputs that are there.

ghost use Rattle.std.specs.Prelude.{◌≡◌, None};

use crate::rows::are_right;
use fault_core::{Act, Prim, Sense};
use march_core::March;
use march_syntax::read_march;
use memory_desc::{Memory, read_memory};
use std::process::Abort;

pub(crate) const MATS_PLUS: &[u8] = b"{any(w0);up(r0,w1);down(r1,w0)}";

/// The direction word in which the third element alone goes downward.
pub(crate) const UP_UP_DOWN: u64 = 1 << 61;

/// The place of the first that isn't so.
fn first_false(claims: &[bool]) -> Option<usize> {
    for (i, claim) in claims.iter().enumerate() {
        if !*claim {
            return Some(i);
        }
    }
    None
}

/// Ends the test where one of these isn't so, with its place among them.
pub(crate) fn all_hold(rt: &impl Abort, claims: &[bool]) {
    are_right(rt, first_false(claims));
}

/// The march of a text.
pub(crate) fn march_of(rt: &impl Abort, text: &[u8]) -> March {
    read_march(text).expect(rt, "a march")
}

/// The memory of a text.
pub(crate) fn memory_of(rt: &impl Abort, text: &[u8]) -> Memory {
    read_memory(text).expect(rt, "a memory")
}

/// The primitive of a cell that holds this state, to which this is done, and which is so afterwards.
pub(crate) fn one_cell_prim(rt: &impl Abort, state: bool, act: Option<Act>, after: bool) -> Prim
    ensures { result.agg ≡ None }
{
    Prim::new(None, Sense { state, act }, after, None).expect(rt, "a primitive")
}

/// The primitive of one cell that keeps this state where the other bit is written.
pub(crate) fn failed_transition(rt: &impl Abort, state: bool) -> Prim
    ensures { result.agg ≡ None }
{
    one_cell_prim(rt, state, Some(Act::Write(!state)), state)
}
