ghost use Rattle.std.specs.Prelude.{◌≡◌, ◌≢◌, ◌+◌, ◌≤◌, ◌++◌, ◌∷◌, [], false, not, Some, None, All, AllPairs, Contains, length, true};
ghost use Rattle.arrayvec.specs.ArrayVec.{array_vec_len};
ghost use Rattle.fault_core.specs.Primitive.{Primitive, IsPrimitive, agg_has_act, has_aggressor, is_retention};
ghost use Rattle.fault_core.specs.Classes.{class_of_read, class_of_victim, coupled, class_by_parts};
ghost use Rattle.fault_core.specs.inner.Rows.{never_pauses, lost, flipped, unwritten, disturbed, prim_of, sense_of, member_of, FitsClass, senses_of};
ghost use Rattle.fault_core.specs.Table.{members_of, one_cell_table, two_cell_table, retention_table};

use crate::primitive::{Act, FaultPrimitive as Prim, Sense};
use arrayvec::ArrayVec;

/// The classes of static unlinked faults, in the order in which they are printed: those of one cell, those of
/// two, and that of pauses.
#[derive(Clone, Copy, PartialEq)]
pub enum Class {
    /// State fault: the cell doesn't hold a state.
    SF,
    /// Transition fault: a write of the other bit fails.
    TF,
    /// Write disturb fault: a write of the same bit flips the cell.
    WDF,
    /// Read destructive fault: a read flips the cell and answers the flipped bit.
    RDF,
    /// Deceptive read destructive fault: a read flips the cell and answers the bit from before.
    DRDF,
    /// Incorrect read fault: a read leaves the cell and answers the other bit.
    IRF,
    /// State coupling fault: the victim doesn't hold a state while the aggressor holds its own.
    CFst,
    /// Disturb coupling fault: an act on the aggressor flips the victim.
    CFds,
    /// Transition coupling fault: a transition fault while the aggressor holds a state.
    CFtr,
    /// Write disturb coupling fault.
    CFwd,
    /// Read destructive coupling fault.
    CFrd,
    /// Deceptive read destructive coupling fault.
    CFdr,
    /// Incorrect read coupling fault.
    CFir,
    /// Data retention fault: the cell loses a state over a pause.
    DRF,
}

const NO_AGGRESSOR: [Option<Sense>; 1] = [None];

const HOLDING: [Option<Sense>; 2] = [
    Some(Sense {
        state: false,
        act: None,
    }),
    Some(Sense {
        state: true,
        act: None,
    }),
];

const ACTING: [Option<Sense>; 6] = [
    Some(Sense {
        state: false,
        act: Some(Act::Write(false)),
    }),
    Some(Sense {
        state: false,
        act: Some(Act::Write(true)),
    }),
    Some(Sense {
        state: true,
        act: Some(Act::Write(false)),
    }),
    Some(Sense {
        state: true,
        act: Some(Act::Write(true)),
    }),
    Some(Sense {
        state: false,
        act: Some(Act::Read),
    }),
    Some(Sense {
        state: true,
        act: Some(Act::Read),
    }),
];

/// What the aggressor of a class holds or does, in order.
fn aggressors(class: Class) -> &'static [Option<Sense>]
    ensures { result.now ≡ senses_of class }
{
    match class {
        Class::SF | Class::TF | Class::WDF | Class::RDF | Class::DRDF | Class::IRF | Class::DRF =>
            &NO_AGGRESSOR,
        Class::CFst | Class::CFtr | Class::CFwd | Class::CFrd | Class::CFdr | Class::CFir =>
            &HOLDING,
        Class::CFds => &ACTING,
    }
}

/// The victim doesn't hold its state.
fn flip(agg: Option<Sense>, state: bool) -> Prim
    requires { never_pauses agg ≡ true }
    ensures { result ≡ flipped agg state }
{
    let vic = Sense { state, act: None };
    Prim::of_parts(agg, vic, !state, None)
}

/// A write of the other bit fails.
fn failed_transition(agg: Option<Sense>, state: bool) -> Prim
    requires { agg_has_act agg ≡ false }
    ensures { result ≡ unwritten agg state }
{
    let vic = Sense {
        state,
        act: Some(Act::Write(!state)),
    };
    Prim::of_parts(agg, vic, state, None)
}

/// A write of the same bit flips the victim.
fn write_disturb(agg: Option<Sense>, state: bool) -> Prim
    requires { agg_has_act agg ≡ false }
    ensures { result ≡ disturbed agg state }
{
    let vic = Sense {
        state,
        act: Some(Act::Write(state)),
    };
    Prim::of_parts(agg, vic, !state, None)
}

/// A read of the victim, with what it leaves and answers.
fn read(agg: Option<Sense>, state: bool, after: bool, answer: bool) -> Prim
    requires aggressor { agg_has_act agg ≡ false }
    requires wrong { after ≡ state → answer ≢ state }
    ensures { result ≡ prim_of agg (sense_of state (Some Act.Read)) after (Some answer) }
{
    let vic = Sense {
        state,
        act: Some(Act::Read),
    };
    Prim::of_parts(agg, vic, after, Some(answer))
}

/// A pause flips the victim.
fn loss(agg: Option<Sense>, state: bool) -> Prim
    requires { agg ≡ None }
    ensures { result ≡ lost agg state }
{
    let vic = Sense {
        state,
        act: Some(Act::Pause),
    };
    Prim::of_parts(agg, vic, !state, None)
}

/// The primitive of a class with this sense of its aggressor and this state of its victim.
fn member(class: Class, agg: Option<Sense>, state: bool) -> Prim
    requires { FitsClass class agg }
    ensures { result ≡ member_of class agg state }
{
    match class {
        Class::SF | Class::CFst | Class::CFds => flip(agg, state),
        Class::TF | Class::CFtr => failed_transition(agg, state),
        Class::WDF | Class::CFwd => write_disturb(agg, state),
        Class::RDF | Class::CFrd => read(agg, state, !state, !state),
        Class::DRDF | Class::CFdr => read(agg, state, !state, state),
        Class::IRF | Class::CFir => read(agg, state, state, !state),
        Class::DRF => loss(agg, state),
    }
}

/// The primitives of a class, in order.
pub fn members(class: Class) -> ArrayVec<Prim, 12>
    ensures { result.items ≡ members_of class }
{
    let mut prims = ArrayVec::new();
    for agg in aggressors(class) {
        prims.push(member(class, *agg, false));
        prims.push(member(class, *agg, true));
    }
    prims
}

/// Appends the primitives of a class.
fn append<const N: usize>(prims: &mut ArrayVec<Prim, N>, class: Class)
    requires { length prims.old.items + length (members_of class) ≤ N }
    ensures { prims.new.items ≡ prims.old.items ++ members_of class }
{
    for prim in members(class).as_slice() {
        prims.push(*prim);
    }
}

/// The twelve primitives of one cell that need no pause, in order.
pub fn one_cell() -> [Prim; 12]
    ensures rows { result ≡ one_cell_table }
    ensures every { (p : Primitive) → IsPrimitive p → has_aggressor p ≡ false → is_retention p ≡ false → Contains result p }
    ensures primitives { All (λ p. IsPrimitive p × (has_aggressor p ≡ false) × (is_retention p ≡ false)) result }
    ensures distinct { AllPairs (λ p q. p ≢ q) result }
{
    let mut prims = ArrayVec::<Prim, 12>::new();
    append(&mut prims, Class::SF);
    append(&mut prims, Class::TF);
    append(&mut prims, Class::WDF);
    append(&mut prims, Class::RDF);
    append(&mut prims, Class::DRDF);
    append(&mut prims, Class::IRF);
    prims.into_inner().unwrap()
}

/// The thirty-six primitives of two cells, in order.
#[tactic(auto, using(crate::proofs::EveryPrimitive::two_cell_has, crate::proofs::EveryPrimitive::two_cell_are, crate::proofs::EveryPrimitive::two_cell_differ))]
pub fn two_cell() -> [Prim; 36]
    ensures rows { result ≡ two_cell_table }
    ensures every { (p : Primitive) → IsPrimitive p → has_aggressor p ≡ true → Contains result p }
    ensures primitives { All (λ p. IsPrimitive p × (has_aggressor p ≡ true)) result }
    ensures distinct { AllPairs (λ p q. p ≢ q) result }
{
    let mut prims = ArrayVec::<Prim, 36>::new();
    append(&mut prims, Class::CFst);
    append(&mut prims, Class::CFds);
    append(&mut prims, Class::CFtr);
    append(&mut prims, Class::CFwd);
    append(&mut prims, Class::CFrd);
    append(&mut prims, Class::CFdr);
    append(&mut prims, Class::CFir);
    prims.into_inner().unwrap()
}

/// The two primitives that lose a state over a pause, in order.
#[tactic(auto, using(crate::proofs::EveryPrimitive::retention_has, crate::proofs::EveryPrimitive::retention_are, crate::proofs::EveryPrimitive::retention_differ))]
pub fn retention() -> [Prim; 2]
    ensures rows { result ≡ retention_table }
    ensures every { (p : Primitive) → IsPrimitive p → is_retention p ≡ true → Contains result p }
    ensures primitives { All (λ p. IsPrimitive p × (has_aggressor p ≡ false) × (is_retention p ≡ true)) result }
    ensures distinct { AllPairs (λ p q. p ≢ q) result }
{
    [
        member(Class::DRF, None, false),
        member(Class::DRF, None, true),
    ]
}

fn read_class(state: bool, after: bool, answer: Option<bool>) -> Class
    ensures { result ≡ class_of_read state after answer }
{
    match answer {
        Some(bit) if after != state => {
            if bit == state {
                Class::DRDF
            } else {
                Class::RDF
            }
        }
        _ => Class::IRF,
    }
}

/// What the victim does wrong, as a class of one cell.
fn victim_class(vic: Sense, after: bool, answer: Option<bool>) -> Class
    ensures { result ≡ class_of_victim vic.act vic.state after answer }
{
    match vic.act {
        None => Class::SF,
        Some(Act::Write(bit)) => {
            if bit == vic.state {
                Class::WDF
            } else {
                Class::TF
            }
        }
        Some(Act::Read) => read_class(vic.state, after, answer),
        Some(Act::Pause) => Class::DRF,
    }
}

/// The class of two cells whose victim does the same wrong.
fn beside_a_state(own: Class) -> Class
    ensures { result ≡ coupled own }
{
    match own {
        Class::SF => Class::CFst,
        Class::TF => Class::CFtr,
        Class::WDF => Class::CFwd,
        Class::RDF => Class::CFrd,
        Class::DRDF => Class::CFdr,
        Class::IRF => Class::CFir,
        other => other,
    }
}

/// The class of a primitive.
pub fn class_of(prim: &Prim) -> Class
    ensures by_parts { result ≡ class_by_parts prim.now }
    ensures member { Contains (members_of result) prim.now }
    ensures only { (class : Class) → Contains (members_of class) prim.now → class ≡ result }
{
    let own = victim_class(prim.vic(), prim.after(), prim.answer());
    match prim.agg() {
        None => own,
        Some(Sense { act: None, .. }) => beside_a_state(own),
        Some(Sense { act: Some(_), .. }) => Class::CFds,
    }
}
