ghost use Rattle.std.specs.Prelude.{◌≡◌, ◌↔◌, IsOk, IfOk, IfErr};
ghost use Rattle.fault_core.specs.Primitive.{IsPrimitive, agg_has_act, refusal_of, has_aggressor, is_pause};
ghost use Rattle.fault_core.specs.inner.Testing.{is_fault_of, pauses_alone};

use std::marker::Model;

/// What is done to a cell: a write of a bit, a read, or nothing over a pause, in which a cell can lose its content.
#[derive(Clone, Copy, PartialEq)]
pub enum Act {
    Write(bool),
    Read,
    Pause,
}

/// A state, and at most one act.
#[derive(Clone, Copy, PartialEq)]
pub struct Sense {
    pub state: bool,
    pub act: Option<Act>,
}

/// Why the parts are no primitive.
#[derive(Clone, Copy, Debug, PartialEq, Eq)]
pub enum PrimFault {
    /// F3: they describe no static fault.
    NotAFault,
    /// F4: both the aggressor and the victim have an act.
    TooManyOperations,
}

/// A static fault primitive `<S/F/R>`: the victim's state afterwards is another than a good cell's, or its
/// read answers another bit. It is seen by its parts. (The crate gives it out as `Prim`, a name that the logic
/// keeps for itself here.)
#[derive(Clone, Copy)]
pub struct FaultPrimitive {
    agg: Option<Sense>,
    vic: Sense,
    after: bool,
    answer: Option<bool>,
}

impl Model for FaultPrimitive {
    ghost use Rattle.fault_core.specs.Primitive.{Primitive, IsPrimitive};

    ghost Value = { Primitive };

    ghost view = { λ p. record { agg = p.agg; vic = p.vic; after = p.after; answer = p.answer } };

    ghost invariant = { λ p. IsPrimitive (record { agg = p.agg; vic = p.vic; after = p.after; answer = p.answer }) };

    ghost inverse = { λ p. record { agg = p.agg; vic = p.vic; after = p.after; answer = p.answer } };
}

impl FaultPrimitive {
    ghost use Rattle.fault_core.specs.declared.primitive.PrimFault.{PrimFault};

    /// The primitive of these parts, exactly where they describe a fault. Else F4 where both senses have an
    /// act, and F3 otherwise.
    pub fn new(
        agg: Option<Sense>,
        vic: Sense,
        after: bool,
        answer: Option<bool>,
    ) -> Result<FaultPrimitive, PrimFault>
        ensures variant { IsOk result ↔ IsPrimitive (record { agg = agg; vic = vic; after = after; answer = answer }) }
        ensures value { IfOk result (λ p. p ≡ (record { agg = agg; vic = vic; after = after; answer = answer })) }
        ensures refusal { IfErr result (λ fault. fault ≡ refusal_of (record { agg = agg; vic = vic; after = after; answer = answer })) }
    {
        if has_agg_act(agg) && vic.act.is_some() {
            return Err(PrimFault::TooManyOperations);
        }
        if !is_pause_alone(agg, vic.act) || !is_fault(vic, after, answer) {
            return Err(PrimFault::NotAFault);
        }
        Ok(FaultPrimitive {
            agg,
            vic,
            after,
            answer,
        })
    }

    /// The primitive of these parts, which describe a fault.
    pub(crate) fn of_parts(
        agg: Option<Sense>,
        vic: Sense,
        after: bool,
        answer: Option<bool>,
    ) -> FaultPrimitive
        requires { IsPrimitive (record { agg = agg; vic = vic; after = after; answer = answer }) }
        ensures { result ≡ (record { agg = agg; vic = vic; after = after; answer = answer }) }
    {
        FaultPrimitive {
            agg,
            vic,
            after,
            answer,
        }
    }

    /// What the aggressor holds and does, where there is one.
    pub fn agg(&self) -> Option<Sense>
        ensures value { result ≡ self.now.agg }
        ensures primitive { IsPrimitive self.now }
    {
        self.agg
    }

    /// Recalls to the prover what holds of every primitive. It does nothing.
    pub fn known(&self)
        ensures { IsPrimitive self.now }
    {
        let _aggressor = self.agg;
    }

    /// What the victim holds, and what is done to it.
    pub fn vic(&self) -> Sense
        ensures { result ≡ self.now.vic }
    {
        self.vic
    }

    /// The victim's state afterwards.
    pub fn after(&self) -> bool
        ensures { result ≡ self.now.after }
    {
        self.after
    }

    /// What a read of the victim answers, where the victim's act is a read.
    pub fn answer(&self) -> Option<bool>
        ensures { result ≡ self.now.answer }
    {
        self.answer
    }

    /// Whether it has an aggressor.
    pub fn is_two_cell(&self) -> bool
        ensures { result ≡ has_aggressor self.now }
    {
        self.agg.is_some()
    }
}

/// A blank of a fixed list: the state fault `<0/1/->`, first in the table.
impl Default for FaultPrimitive {
    fn default() -> Self {
        let vic = Sense {
            state: false,
            act: None,
        };
        FaultPrimitive::of_parts(None, vic, true, None)
    }
}

/// Whether there is an aggressor with an act.
pub(crate) fn has_agg_act(agg: Option<Sense>) -> bool
    ensures { result ≡ agg_has_act agg }
{
    match agg {
        Some(sense) => sense.act.is_some(),
        None => false,
    }
}

/// Whether an act is a pause.
pub(crate) fn is_pause(act: Option<Act>) -> bool
    ensures { result ≡ is_pause act }
{
    matches!(act, Some(Act::Pause))
}

/// Whether nothing pauses beside an aggressor.
fn is_pause_alone(agg: Option<Sense>, act: Option<Act>) -> bool
    ensures { result ≡ pauses_alone agg act }
{
    match agg {
        Some(sense) => !(is_pause(sense.act) || is_pause(act)),
        None => true,
    }
}

/// Whether the victim's part is a fault.
fn is_fault(vic: Sense, after: bool, answer: Option<bool>) -> bool
    ensures { result ≡ is_fault_of vic after answer }
{
    match (vic.act, answer) {
        (None, None) => after != vic.state,
        (Some(Act::Write(bit)), None) => after != bit,
        (Some(Act::Read), Some(bit)) => after != vic.state || bit != vic.state,
        (Some(Act::Pause), None) => after != vic.state,
        _ => false,
    }
}
