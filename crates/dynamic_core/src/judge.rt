ghost use Rattle.std.specs.Prelude.{◌≡◌, ◌≤◌, ◌<◌, ◌+◌, MatchOption, length, min, Option, option_map};
ghost use Rattle.fault_syntax.specs.Brief.{brief_of, read_parts_of};
ghost use Rattle.fault_syntax.specs.Parts.{agg_ops};
ghost use Rattle.fault_syntax.specs.PrimText.{SenseText, PrimParts};
ghost use Rattle.dynamic_core.specs.ItemParts.{AreTwo, AreActs, IsDynamicSense, IsDynamicAggressor, StandsForDynamic};
ghost use Rattle.dynamic_core.specs.Primitive.{TwoActs, DynamicSense, DynamicPrimitive, IsDynamic};
ghost use Rattle.dynamic_core.specs.inner.Reading.{JudgesItem};
ghost use Rattle.dynamic_core.specs.Testing.{two_acts, acts_in};

use crate::item::Item;
use crate::primitive::{DynPrim, DynSense, left_by};
use fault_core::{Act, PrimFault};
use fault_syntax::{Brief, Operation, ReadParts, judge_parts, written_act};

/// The acts that two operations are; None where a read shows another bit than the content before it.
fn two_acts_of(state: bool, first: Operation, second: Operation) -> Option<[Act; 2]>
    ensures { MatchOption result ((acts : Option TwoActs) → AreTwo state first second acts → ⊥)
        (λ acts. AreTwo state first second (Some (two_acts acts))) }
{
    let first = written_act(state, first)?;
    let second = written_act(left_by(state, first), second)?;
    Some([first, second])
}

/// The acts of a sense that is written with no operation or with two; None where there are others, or where a read
/// shows another bit than the content before it.
fn acts_of(brief: Brief) -> Option<Option<[Act; 2]>>
    ensures { (text : SenseText) → brief ≡ brief_of text
        → MatchOption result ((acts : Option TwoActs) → AreActs text.state text.ops acts → ⊥)
        (λ acts. AreActs text.state text.ops (acts_in acts)) }
{
    match (brief.first, brief.second) {
        (None, _) => Some(None),
        (Some(first), Some(second)) if !brief.more => {
            match two_acts_of(brief.state, first, second) {
                Some(acts) => Some(Some(acts)),
                None => None,
            }
        }
        _ => None,
    }
}

/// The sense that is written so.
fn sense_of(brief: Brief) -> Option<DynSense>
    ensures { (text : SenseText) → brief ≡ brief_of text
        → MatchOption result ((sense : DynamicSense) → IsDynamicSense text sense → ⊥) (IsDynamicSense text) }
{
    let acts = acts_of(brief)?;
    Some(DynSense {
        state: brief.state,
        acts,
    })
}

/// The same of the aggressor, where there is one.
fn aggressor_of(agg: Option<Brief>) -> Option<Option<DynSense>>
    ensures { (text : Option SenseText) → agg ≡ option_map brief_of text
        → MatchOption result ((a : Option DynamicSense) → IsDynamicAggressor text a → ⊥) (IsDynamicAggressor text) }
{
    match agg {
        None => Some(None),
        Some(brief) => Some(Some(sense_of(brief)?)),
    }
}

/// The dynamic primitive of parts that were read.
fn dynamic_of(parts: ReadParts) -> Option<DynPrim>
    ensures { (text : PrimParts) → parts ≡ read_parts_of text
        → MatchOption result ((p : DynamicPrimitive) → StandsForDynamic text p → IsDynamic p → ⊥)
        (λ p. StandsForDynamic text p × IsDynamic p) }
{
    let agg = aggressor_of(parts.agg)?;
    let vic = sense_of(parts.vic)?;
    match DynPrim::new(agg, vic, parts.after, parts.answer) {
        Ok(prim) => Some(prim),
        Err(_) => None,
    }
}

/// How many operations a sense has, up to three.
fn count_of(brief: Brief) -> u8
    ensures count { (text : SenseText) → brief ≡ brief_of text → result ≡ min 3 (length text.ops) }
    ensures bounded { result ≤ 3 }
{
    match (brief.first, brief.second) {
        (None, _) => 0,
        (Some(_), None) => 1,
        (Some(_), Some(_)) if brief.more => 3,
        (Some(_), Some(_)) => 2,
    }
}

/// The same of the aggressor, where there is one.
fn agg_count_of(agg: Option<Brief>) -> u8
    ensures count { (text : Option SenseText) → agg ≡ option_map brief_of text → result ≡ min 3 (length (agg_ops text)) }
    ensures bounded { result ≤ 3 }
{
    match agg {
        None => 0,
        Some(brief) => count_of(brief),
    }
}

/// The primitive of parts that were read, of at most one operation or of two.
pub(crate) fn judge_item(parts: ReadParts) -> Result<Item, PrimFault>
    ensures { (text : PrimParts) → parts ≡ read_parts_of text → JudgesItem text result }
{
    let (agg, vic) = (agg_count_of(parts.agg), count_of(parts.vic));
    if agg + vic > 2 || (agg == 1 && vic == 1) {
        return Err(PrimFault::TooManyOperations);
    }
    if agg + vic == 2 {
        return match dynamic_of(parts) {
            Some(prim) => Ok(Item::Dyn(prim)),
            None => Err(PrimFault::NotAFault),
        };
    }
    match judge_parts(parts) {
        Ok(prim) => Ok(Item::Plain(prim)),
        Err(_) => Err(PrimFault::NotAFault),
    }
}
