ghost use Rattle.std.specs.Prelude.{◌≡◌, ◌≢◌};
ghost use Rattle.fault_core.specs.Primitive.{is_retention};
ghost use Rattle.fault_core.specs.Cells.{has_act, close_of, step_cells, step_answer, pause_cells};
ghost use Rattle.cell_machine.specs.Pairs.{side_holds, pair_holds, pair_close, agg_act_of, act_on, pair_acts, plain_pair, plain_reply, pair_step, pair_answer, pair_pause};
ghost use Rattle.cell_machine.specs.Seen.{cells_of, pair_places, place_of};

use fault_core::{Act, Prim, Sense};

/// The contents of the two cells of an instance: its aggressor's, or a bystander's where it has no
/// aggressor, and its victim's.
#[derive(Clone, Copy, PartialEq, Eq)]
pub struct Pair {
    pub a: bool,
    pub v: bool,
}

/// One of the two cells.
#[derive(Clone, Copy, PartialEq, Eq)]
pub enum Side {
    /// The aggressor, or the bystander.
    A,
    /// The victim.
    V,
}

/// Whether the aggressor's cell holds its state, where there is an aggressor.
fn does_side_hold(agg: Option<Sense>, bit: bool) -> bool
    ensures { result ≡ side_holds agg bit }
{
    match agg {
        Some(sense) => bit == sense.state,
        None => true,
    }
}

/// Whether every state of the primitive holds.
pub fn do_states_hold(prim: &Prim, pair: Pair) -> bool
    ensures { result ≡ pair_holds prim.now pair }
{
    pair.v == prim.vic().state && does_side_hold(prim.agg(), pair.a)
}

fn agg_act(agg: Option<Sense>) -> Option<Act>
    ensures { result ≡ agg_act_of agg }
{
    match agg {
        Some(sense) => sense.act,
        None => None,
    }
}

/// The act of the primitive on this side, if it has one there.
pub fn own_act(prim: &Prim, on: Side) -> Option<Act>
    ensures { result ≡ act_on prim.now on }
{
    match on {
        Side::A => agg_act(prim.agg()),
        Side::V => prim.vic().act,
    }
}

fn has_any_act(prim: &Prim) -> bool
    ensures { result ≡ has_act prim.now }
{
    own_act(prim, Side::V).is_some() || own_act(prim, Side::A).is_some()
}

/// Whether this act on this side is the primitive's own, on contents where its states hold.
#[tactic(auto, unfolding(crate::specs::Pairs::pair_acts))]
fn does_act(prim: &Prim, pair: Pair, on: Side, act: Act) -> bool
    ensures { result ≡ pair_acts prim.now pair on act }
{
    own_act(prim, on) == Some(act) && do_states_hold(prim, pair)
}

/// Closes the pair: a primitive without an act sets its victim where its states hold.
#[tactic(auto, unfolding(crate::specs::Pairs::pair_close))]
pub fn close(prim: &Prim, pair: Pair) -> Pair
    ensures pair { result ≡ pair_close prim.now pair }
    ensures cells { cells_of result ≡ close_of prim.now (pair_places prim.now) (cells_of pair) }
{
    if !has_any_act(prim) && do_states_hold(prim, pair) {
        Pair {
            v: prim.after(),
            ..pair
        }
    } else {
        pair
    }
}

/// The plain part of an act, and its answer.
fn do_plainly(pair: Pair, on: Side, act: Act) -> (Pair, Option<bool>)
    ensures pair { result.0 ≡ plain_pair pair on act }
    ensures answer { result.1 ≡ plain_reply pair on act }
{
    match (on, act) {
        (Side::A, Act::Write(bit)) => (Pair { a: bit, ..pair }, None),
        (Side::V, Act::Write(bit)) => (Pair { v: bit, ..pair }, None),
        (Side::A, Act::Read) => (pair, Some(pair.a)),
        (Side::V, Act::Read) => (pair, Some(pair.v)),
        (_, Act::Pause) => (pair, None),
    }
}

/// One act on one side, which is no pause, with what the primitive makes of it. The second part is the answer of a
/// read.
#[tactic(auto, unfolding(crate::specs::Pairs::pair_step, crate::specs::Pairs::pair_answer))]
pub fn act(prim: &Prim, pair: Pair, on: Side, act: Act) -> (Pair, Option<bool>)
    requires { act ≢ Act.Pause }
    ensures pair { result.0 ≡ pair_step prim.now pair on act }
    ensures answer { result.1 ≡ pair_answer prim.now pair on act }
    ensures cells { cells_of result.0 ≡ step_cells prim.now (pair_places prim.now) (cells_of pair) (place_of 0 1 on) act }
    ensures cells_answer { result.1 ≡ step_answer prim.now (pair_places prim.now) (cells_of pair) (place_of 0 1 on) act }
{
    let (mut next, plain) = do_plainly(pair, on, act);
    if !does_act(prim, pair, on, act) {
        return (close(prim, next), plain);
    }
    next.v = prim.after();
    (close(prim, next), prim.answer().or(plain))
}

/// Whether the act of the primitive is a pause.
fn does_pause(prim: &Prim) -> bool
    ensures { result ≡ is_retention prim.now }
{
    matches!(prim.vic().act, Some(Act::Pause))
}

/// A pause, with what the primitive makes of it: a retention fault acts where its states hold.
#[tactic(auto, unfolding(crate::specs::Pairs::pair_pause))]
pub fn pause(prim: &Prim, pair: Pair) -> Pair
    ensures pair { result ≡ pair_pause prim.now pair }
    ensures cells { cells_of result ≡ pause_cells prim.now (pair_places prim.now) (cells_of pair) }
{
    if does_pause(prim) && do_states_hold(prim, pair) {
        let next = Pair {
            v: prim.after(),
            ..pair
        };
        return close(prim, next);
    }
    close(prim, pair)
}
