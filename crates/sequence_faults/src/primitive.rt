ghost use Rattle.std.specs.Prelude.{◌≡◌, ◌↔◌, ◌<◌, ◌≤◌, ◌-◌, IsOk, IfOk, IfErr, length, take, slice_index_or, false, true, Some, Bool, Option};
ghost use Rattle.sequence_faults.specs.Primitive.{IsSequence, left_by, left_by_all, last_act, parts_of, refusal_of, good_after};
ghost use Rattle.sequence_faults.specs.inner.Testing.{is_access, are_accesses, is_read, answers, has_parts, answers_well, goes_wrong, sequence_test};

use fault_core::{Act, PrimFault};
use std::marker::Model;

/// A fault primitive `<S/F/R>` of one to three cells: after one to sixteen operations on one of them, one right behind
/// the other, the victim's state is another than a good cell's, or the last operation answers another bit. It is seen by
/// its parts.
#[derive(Drop)]
pub struct SeqPrim {
    states: [bool; 3],
    cells: usize,
    actor: usize,
    acts: [Act; 16],
    count: usize,
    after: bool,
    answer: Option<bool>,
}

impl Model for SeqPrim {
    ghost use Rattle.std.specs.Prelude.{take, ◌≡◌, ◌≤◌, length};
    ghost use Rattle.sequence_faults.specs.Primitive.{SequencePrimitive, IsSequence};

    ghost Value = { SequencePrimitive };

    ghost view = { λ p. record { states = take p.cells p.states; actor = p.actor; acts = take p.count p.acts; after = p.after; answer = p.answer } };

    ghost invariant = { λ p. IsSequence (record { states = take p.cells p.states; actor = p.actor; acts = take p.count p.acts; after = p.after; answer = p.answer })
        × (length p.states ≡ 3) × (length p.acts ≡ 16) × (p.cells ≤ 3) × (p.count ≤ 16) };
}

impl SeqPrim {
    /// The primitive of these parts, exactly where they describe a fault: the states of its cells, the aggressors' in
    /// their order and the victim's last; which of them is operated on, and the operations; the victim's state
    /// afterwards; and what the last operation answers. Else F4 where there are more than sixteen operations, and F3.
    pub fn new(
        states: &[bool],
        actor: usize,
        acts: &[Act],
        after: bool,
        answer: Option<bool>,
    ) -> Result<SeqPrim, PrimFault>
        ensures variant { IsOk result ↔ IsSequence (parts_of states.now actor acts.now after answer) }
        ensures value { IfOk result (λ p. p ≡ parts_of states.now actor acts.now after answer) }
        ensures refusal { IfErr result (λ fault. fault ≡ refusal_of acts.now) }
    {
        if acts.len() > 16 {
            return Err(PrimFault::TooManyOperations);
        }
        if !is_fault(states, actor, acts, after, answer) {
            return Err(PrimFault::NotAFault);
        }
        Ok(SeqPrim {
            states: three_of(states),
            cells: states.len(),
            actor,
            acts: sixteen_of(acts),
            count: acts.len(),
            after,
            answer,
        })
    }

    /// Recalls to the prover what holds of every such primitive. It does nothing.
    pub fn known(&self)
        ensures { IsSequence self.now }
    {
        let _cells = self.cells;
    }

    /// What the cells are to hold, the aggressors' in their order and the victim's last.
    pub fn states(&self) -> &[bool]
        ensures { result.now ≡ self.now.states }
    {
        &self.states[..self.cells]
    }

    /// Which of the cells is operated on.
    pub fn actor(&self) -> usize
        ensures { result ≡ self.now.actor }
    {
        self.actor
    }

    /// The operations, one right behind the other.
    pub fn acts(&self) -> &[Act]
        ensures { result.now ≡ self.now.acts }
    {
        &self.acts[..self.count]
    }

    /// The victim's state afterwards.
    pub fn after(&self) -> bool
        ensures { result ≡ self.now.after }
    {
        self.after
    }

    /// What the last operation answers, where it is a read of the victim.
    pub fn answer(&self) -> Option<bool>
        ensures { result ≡ self.now.answer }
    {
        self.answer
    }
}

/// What an act plainly leaves of a bit.
pub(crate) fn left_by(state: bool, act: Act) -> bool
    ensures { result ≡ left_by state act }
{
    match act {
        Act::Write(bit) => bit,
        Act::Read | Act::Pause => state,
    }
}

/// What acts plainly leave, one after another.
fn left_by_all(state: bool, acts: &[Act]) -> bool
    ensures { result ≡ left_by_all state acts.now }
{
    let mut left = state;
    for act in acts {
        left = left_by(left, *act);
    }
    left
}

fn is_access(act: Act) -> bool
    ensures { result ≡ is_access act }
{
    !matches!(act, Act::Pause)
}

/// Whether each act is a write or a read.
fn are_accesses(acts: &[Act]) -> bool
    ensures { result ≡ are_accesses acts.now }
{
    for act in acts {
        if !is_access(*act) {
            return false;
        }
    }
    true
}

/// Whether the last act is a read.
fn ends_in_read(acts: &[Act]) -> bool
    ensures { result ≡ is_read (last_act acts.now) }
{
    if acts.is_empty() {
        return false;
    }
    is_read(acts[acts.len() - 1])
}

fn is_read(act: Act) -> bool
    ensures { result ≡ is_read (Some act) }
{
    matches!(act, Act::Read)
}

fn are_parts(states: &[bool], actor: usize, acts: &[Act]) -> bool
    ensures parts { (after : Bool) (answer : Option Bool) → result ≡ has_parts (parts_of states.now actor acts.now after answer) }
    ensures some { result ≡ true → 0 < length states.now }
    ensures few { result ≡ true → length states.now ≤ 3 }
{
    states.len() <= 3 && actor < states.len() && !acts.is_empty() && are_accesses(acts)
}

/// What the victim would hold behind the acts, were it good.
fn good_after(states: &[bool], actor: usize, acts: &[Act]) -> bool
    requires { 0 < length states.now }
    ensures { (after : Bool) (answer : Option Bool) → result ≡ good_after (parts_of states.now actor acts.now after answer) }
{
    let state = states[states.len() - 1];
    if actor == states.len() - 1 {
        left_by_all(state, acts)
    } else {
        state
    }
}

fn answers(answer: Option<bool>, bit: bool) -> bool
    ensures { result ≡ answers answer bit }
{
    match answer {
        Some(own) => own == bit,
        None => false,
    }
}

/// Whether there is an answer exactly where the last act reads the victim.
fn answers_well(states: &[bool], actor: usize, acts: &[Act], answer: Option<bool>) -> bool
    requires { 0 < length states.now }
    ensures { (after : Bool) → result ≡ answers_well (parts_of states.now actor acts.now after answer) }
{
    let is_read = actor == states.len() - 1 && ends_in_read(acts);
    answer.is_some() == is_read
}

fn goes_wrong(
    states: &[bool],
    actor: usize,
    acts: &[Act],
    after: bool,
    answer: Option<bool>,
) -> bool
    requires { 0 < length states.now }
    ensures { result ≡ goes_wrong (parts_of states.now actor acts.now after answer) }
{
    let good = good_after(states, actor, acts);
    after != good || answers(answer, !good)
}

/// Whether the parts are a fault, of at most sixteen operations.
fn is_fault(states: &[bool], actor: usize, acts: &[Act], after: bool, answer: Option<bool>) -> bool
    ensures test { result ≡ sequence_test (parts_of states.now actor acts.now after answer) }
    ensures few { result ≡ true → length states.now ≤ 3 }
{
    if !are_parts(states, actor, acts) {
        return false;
    }
    answers_well(states, actor, acts, answer) && goes_wrong(states, actor, acts, after, answer)
}

/// Three bits, of which the first are these.
fn three_of(states: &[bool]) -> [bool; 3]
    requires { length states.now ≤ 3 }
    ensures first { take (length states.now) result ≡ states.now }
    ensures three { length result ≡ 3 }
{
    let mut kept = [false; 3];
    kept[..states.len()].copy_from_slice(states);
    kept
}

/// Sixteen acts, of which the first are these.
fn sixteen_of(acts: &[Act]) -> [Act; 16]
    requires { length acts.now ≤ 16 }
    ensures first { take (length acts.now) result ≡ acts.now }
    ensures sixteen { length result ≡ 16 }
{
    let mut kept = [Act::Read; 16];
    kept[..acts.len()].copy_from_slice(acts);
    kept
}
