//! The operators of an expression that wait for their second operand.
ghost use Rattle.std.specs.Prelude.{◌≡◌, IfOk, IfErr};
ghost use Rattle.verilog_tree.specs.Plain.{plain};
ghost use Rattle.verilog_text.specs.Flat.{settle};
ghost use Rattle.verilog_read.specs.inner.Waiting.{lefts_of, waiting_of};

use crate::fault::ParseFault;
use std::alloc::Global;
use verilog_tree::build::binary;
use verilog_tree::{BinOp, Expr, height};

/// An operator that waits for its second operand, behind its first.
#[derive(Drop)]
pub struct Left {
    pub operand: Expr,
    pub operator: BinOp,
}

/// The height of the operators that bind most loosely.
pub(crate) const MOST_HEIGHT: u8 = 9;

/// The operators that bind at least as tightly as one of this height take what is behind them.
#[tactic(auto, using(crate::proofs::WaitingLemmas::lefts_push))]
pub(crate) fn settle(
    alloc: Global,
    tightness: u8,
    lefts: &mut Vec<Left>,
    x: Expr,
) -> Result<Expr, ParseFault>
    ensures settled { IfOk result (λ y. waiting_of lefts.new.items y ≡ settle tightness (lefts_of lefts.old.items) (plain x)) }
    ensures fault { IfErr result (λ f. f ≡ ParseFault.NoMemory) }
{
    let mut last = x;
    while let Some(left) = lefts.pop() {
        if height(left.operator) > tightness {
            lefts.push(left)?;
            return Ok(last);
        }
        last = binary(alloc, left.operator, left.operand, last)?;
    }
    Ok(last)
}
