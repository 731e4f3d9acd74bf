ghost use Rattle.std.specs.Prelude.{◌≡◌, ◌≤◌, ◌+◌, ◌<◌, ◌↔◌, IsTrue, MatchOption, length, min, Option, option_map, Some};
ghost use Rattle.fault_core.specs.declared.primitive.Act.{Act};
ghost use Rattle.fault_core.specs.declared.primitive.Sense.{Sense};
ghost use Rattle.fault_syntax.specs.Brief.{brief_of, read_parts_of};
ghost use Rattle.fault_syntax.specs.Parts.{IsAct, IsSense, IsAggressor, Judges, agg_ops, op_count};
ghost use Rattle.fault_syntax.specs.PrimText.{SenseText, PrimParts};

use crate::reader::{Brief, ReadParts};
use crate::words::Operation;
use fault_core::{Act, Prim, PrimFault, Sense};

/// The act that an operation is; None for a read of another bit than the state.
pub fn written_act(state: bool, op: Operation) -> Option<Act>
    ensures { MatchOption result ((act : Option Act) → IsAct state op act → ⊥) (λ act. IsAct state op (Some act)) }
{
    match op {
        Operation::Write(bit) => Some(Act::Write(bit)),
        Operation::Read(bit) => (bit == state).then_some(Act::Read),
        Operation::Pause => Some(Act::Pause),
    }
}

/// The sense that is written with at most one operation; None where its read shows another bit than the state.
fn sense_of(brief: Brief) -> Option<Sense>
    ensures { (text : SenseText) → brief ≡ brief_of text → length text.ops ≤ 1
        → MatchOption result ((sense : Sense) → IsSense text sense → ⊥) (IsSense text) }
{
    let state = brief.state;
    let act = match brief.first {
        None => None,
        Some(op) => Some(written_act(state, op)?),
    };
    Some(Sense { state, act })
}

/// The same of the aggressor, where there is one.
fn aggressor_of(agg: Option<Brief>) -> Option<Option<Sense>>
    ensures { (text : Option SenseText) → agg ≡ option_map brief_of text → length (agg_ops text) ≤ 1
        → MatchOption result ((a : Option Sense) → IsAggressor text a → ⊥) (IsAggressor text) }
{
    match agg {
        None => Some(None),
        Some(brief) => Some(Some(sense_of(brief)?)),
    }
}

/// How many operations a sense has, up to two.
fn count_of(brief: Brief) -> u8
    ensures count { (text : SenseText) → brief ≡ brief_of text → result ≡ min 2 (length text.ops) }
    ensures bounded { result ≤ 2 }
{
    match (brief.first, brief.second) {
        (None, _) => 0,
        (Some(_), None) => 1,
        (Some(_), Some(_)) => 2,
    }
}

/// Whether a primitive has more than one operation in all.
fn has_too_many(parts: ReadParts) -> bool
    ensures { (text : PrimParts) → parts ≡ read_parts_of text → IsTrue result ↔ (1 < op_count text) }
{
    let victim = count_of(parts.vic);
    match parts.agg {
        None => victim > 1,
        Some(brief) => count_of(brief) + victim > 1,
    }
}

/// The primitive of parts that were read: F4 where they have more than one operation in all, and else F3 where
/// they are none of the 50.
pub fn judge(parts: ReadParts) -> Result<Prim, PrimFault>
    ensures { (text : PrimParts) → parts ≡ read_parts_of text → Judges text result }
{
    if has_too_many(parts) {
        return Err(PrimFault::TooManyOperations);
    }
    let Some(agg) = aggressor_of(parts.agg) else {
        return Err(PrimFault::NotAFault);
    };
    let Some(vic) = sense_of(parts.vic) else {
        return Err(PrimFault::NotAFault);
    };
    Prim::new(agg, vic, parts.after, parts.answer)
}
