ghost use Rattle.std.specs.Prelude.{◌≡◌, ◌<◌, length};
ghost use Rattle.dynamic_core.specs.Dynamic.{actor_on, agg_actor, actor_of, agg_state_holds, all_states_hold, matches_of, arms_of, set_where, held_as, dyn_step, dyn_answer};
ghost use Rattle.dynamic_core.specs.Detecting.{FitsDynAgg, FitsDyn};

use crate::primitive::{DynPrim, DynSense, left_by};
use fault_core::{Act, Places, do_plainly, is_same_act};

/// The cell whose sense has the acts, with its state and the acts.
#[derive(Clone, Copy)]
pub struct Actor {
    pub place: usize,
    pub state: bool,
    pub first: Act,
    pub second: Act,
}

fn act_at(place: usize, sense: DynSense) -> Option<Actor>
    ensures { result ≡ actor_on place sense.state sense.acts }
{
    let state = sense.state;
    let Some(acts) = sense.acts else {
        return None;
    };
    let [first, second] = acts;
    Some(Actor {
        place,
        state,
        first,
        second,
    })
}

fn find_agg_actor(agg: Option<DynSense>, place: Option<usize>) -> Option<Actor>
    ensures { result ≡ agg_actor agg place }
{
    match (agg, place) {
        (Some(sense), Some(at)) => act_at(at, sense),
        _ => None,
    }
}

fn find_actor(prim: &DynPrim, places: Places) -> Option<Actor>
    ensures { result ≡ actor_of prim.now places }
{
    match act_at(places.vic, prim.vic()) {
        Some(actor) => Some(actor),
        None => find_agg_actor(prim.agg(), places.agg),
    }
}

fn does_match(actor: Option<Actor>, armed: bool, at: usize, act: Act) -> bool
    ensures { result ≡ matches_of actor armed at act }
{
    match actor {
        Some(own) => armed && (own.place == at && is_same_act(act, own.second)),
        None => false,
    }
}

fn does_arm(actor: Option<Actor>, holds: bool, cells: &[bool], at: usize, act: Act) -> bool
    requires { at < length cells.now }
    ensures { result ≡ arms_of actor holds cells.now at act }
{
    match actor {
        Some(own) => {
            (own.place == at && is_same_act(act, own.first))
                && (holds && cells[own.place] == left_by(own.state, own.first))
        }
        None => false,
    }
}

fn does_agg_hold(agg: Option<DynSense>, place: Option<usize>, vic: usize, cells: &[bool]) -> bool
    requires { FitsDynAgg agg place vic (length cells.now) }
    ensures { result ≡ agg_state_holds agg place cells.now }
{
    match (agg, place) {
        (Some(sense), Some(at)) => cells[at] == sense.state,
        _ => true,
    }
}

fn do_states_hold(prim: &DynPrim, places: Places, cells: &[bool]) -> bool
    requires { FitsDyn prim.now places (length cells.now) }
    ensures { result ≡ all_states_hold prim.now places cells.now }
{
    cells[places.vic] == prim.vic().state
        && does_agg_hold(prim.agg(), places.agg, places.vic, cells)
}

fn set_where(hit: bool, cells: &mut [bool], at: usize, bit: bool)
    requires { at < length cells.old }
    ensures { cells.new ≡ set_where hit cells.old at bit }
{
    if hit {
        cells[at] = bit;
    }
}

/// One act on one cell, with what the primitive makes of it. `armed` says whether the primitive's first act was
/// done on contents where its states hold, in the step just before. The answer is that of a read.
#[tactic(auto, unfolding(crate::specs::Dynamic::dyn_step, crate::specs::Dynamic::dyn_cells, crate::specs::Dynamic::dyn_answer))]
pub fn step_dynamic(
    prim: &DynPrim,
    places: Places,
    cells: &mut [bool],
    armed: &mut bool,
    at: usize,
    act: Act,
) -> Option<bool>
    requires places { FitsDyn prim.now places (length cells.old) }
    requires within { at < length cells.old }
    ensures cells { cells.new ≡ (dyn_step prim.now places (held_as cells.old armed.old) at act).cells }
    ensures armed { armed.new ≡ (dyn_step prim.now places (held_as cells.old armed.old) at act).armed }
    ensures answer { result ≡ dyn_answer prim.now places (held_as cells.old armed.old) at act }
{
    let actor = find_actor(prim, places);
    let holds = do_states_hold(prim, places, cells);
    let hit = does_match(actor, *armed, at, act);
    let plain = do_plainly(cells, at, act);
    set_where(hit, cells, places.vic, prim.after());
    *armed = does_arm(actor, holds, cells, at, act);
    if hit { prim.answer().or(plain) } else { plain }
}
