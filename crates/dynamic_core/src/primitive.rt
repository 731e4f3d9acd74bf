ghost use Rattle.std.specs.Prelude.{◌≡◌, ◌↔◌, IsOk, IfOk, IfErr};
ghost use Rattle.dynamic_core.specs.Primitive.{IsDynamic, aggressor_acts, left_by, refusal_of, has_aggressor};
ghost use Rattle.dynamic_core.specs.Testing.{acts_in};
ghost use Rattle.dynamic_core.specs.inner.Testing.{is_access, fault_by_second, fault_by_acts};

use fault_core::{Act, PrimFault};
use std::marker::Model;

/// The state that a cell is to hold, and the two acts on it, one right behind the other, where they are on
/// this cell.
#[derive(Clone, Copy)]
pub struct DynSense {
    pub state: bool,
    pub acts: Option<[Act; 2]>,
}

impl Model for DynSense {
    ghost use Rattle.dynamic_core.specs.Primitive.{DynamicSense};
    ghost use Rattle.dynamic_core.specs.Testing.{HasTwo, acts_in, array_of, array_back};

    ghost Value = { DynamicSense };

    ghost view = { λ s. record { state = s.state; acts = acts_in s.acts } };

    ghost invariant = { λ s. HasTwo s.acts };

    ghost inverse = { λ s. record { state = s.state; acts = array_of s.acts } };

    ghost inverse_ok = { λ s h. array_back (λ acts. record { state = s.state; acts = acts }) s.acts h };
}

/// A blank of a fixed list: the state 0 alone.
impl Default for DynSense {
    fn default() -> Self {
        DynSense {
            state: false,
            acts: None,
        }
    }
}

/// A dynamic fault primitive `<S/F/R>`: after its two operations the victim's state is another than a good
/// cell's, or their read answers another bit. It is seen by its parts.
#[derive(Clone, Copy)]
pub struct DynPrim {
    agg: Option<DynSense>,
    vic: DynSense,
    after: bool,
    answer: Option<bool>,
}

impl Model for DynPrim {
    ghost use Rattle.dynamic_core.specs.Primitive.{DynamicPrimitive, IsDynamic};

    ghost Value = { DynamicPrimitive };

    ghost view = { λ p. record { agg = p.agg; vic = p.vic; after = p.after; answer = p.answer } };

    ghost invariant = { λ p. IsDynamic (record { agg = p.agg; vic = p.vic; after = p.after; answer = p.answer }) };

    ghost inverse = { λ p. record { agg = p.agg; vic = p.vic; after = p.after; answer = p.answer } };
}

impl DynPrim {
    ghost use Rattle.fault_core.specs.declared.primitive.PrimFault.{PrimFault};

    /// The dynamic primitive of these parts, exactly where they describe a fault. Else F4 where both senses
    /// have acts, and F3 otherwise.
    pub fn new(
        agg: Option<DynSense>,
        vic: DynSense,
        after: bool,
        answer: Option<bool>,
    ) -> Result<DynPrim, PrimFault>
        ensures variant { IsOk result ↔ IsDynamic (record { agg = agg; vic = vic; after = after; answer = answer }) }
        ensures value { IfOk result (λ p. p ≡ (record { agg = agg; vic = vic; after = after; answer = answer })) }
        ensures refusal { IfErr result (λ fault. fault ≡ refusal_of (record { agg = agg; vic = vic; after = after; answer = answer })) }
    {
        let acts = acts_of(&agg);
        if acts.is_some() && vic.acts.is_some() {
            return Err(PrimFault::TooManyOperations);
        }
        if !is_fault(acts, &vic, after, answer) {
            return Err(PrimFault::NotAFault);
        }
        Ok(DynPrim {
            agg,
            vic,
            after,
            answer,
        })
    }

    /// The dynamic primitive of these parts, which describe a fault.
    pub(crate) fn of_parts(
        agg: Option<DynSense>,
        vic: DynSense,
        after: bool,
        answer: Option<bool>,
    ) -> DynPrim
        requires { IsDynamic (record { agg = agg; vic = vic; after = after; answer = answer }) }
        ensures { result ≡ (record { agg = agg; vic = vic; after = after; answer = answer }) }
    {
        DynPrim {
            agg,
            vic,
            after,
            answer,
        }
    }

    /// What the aggressor holds and does, where there is one.
    pub fn agg(&self) -> Option<DynSense>
        ensures value { result ≡ self.now.agg }
        ensures primitive { IsDynamic self.now }
    {
        self.agg
    }

    /// What the victim holds, and what is done to it.
    pub fn vic(&self) -> DynSense
        ensures { result ≡ self.now.vic }
    {
        self.vic
    }

    /// The victim's state afterwards.
    pub fn after(&self) -> bool
        ensures { result ≡ self.now.after }
    {
        self.after
    }

    /// What the second operation answers, where it is a read of the victim.
    pub fn answer(&self) -> Option<bool>
        ensures { result ≡ self.now.answer }
    {
        self.answer
    }

    /// Whether it has an aggressor.
    pub fn is_two_cell(&self) -> bool
        ensures { result ≡ has_aggressor self.now }
    {
        self.agg.is_some()
    }
}

/// A blank of a fixed list: `<0w0w0/1/->`, first in the table.
impl Default for DynPrim {
    fn default() -> Self {
        let vic = DynSense {
            state: false,
            acts: Some([Act::Write(false), Act::Write(false)]),
        };
        DynPrim::of_parts(None, vic, true, None)
    }
}

/// The acts of an aggressor, where there is one that has any.
fn acts_of(agg: &Option<DynSense>) -> Option<[Act; 2]>
    ensures { acts_in result ≡ aggressor_acts agg.now }
{
    match agg {
        Some(sense) => sense.acts,
        None => None,
    }
}

fn is_access(act: Act) -> bool
    ensures { result ≡ is_access act }
{
    !matches!(act, Act::Pause)
}

/// What an act plainly leaves of a bit.
pub(crate) fn left_by(state: bool, act: Act) -> bool
    ensures { result ≡ left_by state act }
{
    match act {
        Act::Write(bit) => bit,
        Act::Read | Act::Pause => state,
    }
}

/// Whether the second act on a victim is a fault, where the first plainly leaves a bit.
fn is_second_wrong(act: Act, left: bool, after: bool, answer: Option<bool>) -> bool
    ensures { result ≡ fault_by_second act left after answer }
{
    match (act, answer) {
        (Act::Write(bit), None) => after != bit,
        (Act::Read, Some(bit)) => after != left || bit != left,
        _ => false,
    }
}

/// Whether the parts are a fault: the acts are those of the victim, where it has any, and else the aggressor's.
fn is_fault(agg: Option<[Act; 2]>, vic: &DynSense, after: bool, answer: Option<bool>) -> bool
    ensures { result ≡ fault_by_acts (acts_in agg) vic.now.acts vic.now.state after answer }
{
    match (vic.acts, agg) {
        (Some(acts), _) => {
            let left = left_by(vic.state, acts[0]);
            is_access(acts[0]) && is_second_wrong(acts[1], left, after, answer)
        }
        (None, Some(acts)) => {
            is_access(acts[0]) && is_access(acts[1]) && answer.is_none() && after != vic.state
        }
        (None, None) => false,
    }
}
