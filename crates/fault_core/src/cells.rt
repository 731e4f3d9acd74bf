ghost use Rattle.std.specs.Prelude.{◌≡◌, ◌≢◌, ◌<◌, Some, length, false, IsTrue, if◌then◌else◌, slice_set, ◌&&◌};
ghost use Rattle.fault_core.specs.Primitive.{same_bit, agg_has_act, is_retention};
ghost use Rattle.fault_core.specs.Cells.{FitsPlace, FitsAgg, states_hold, agg_holds, has_act, close_of, acts, agg_acts, same_act, step_cells, step_answer, pause_cells, acted, plain_cells, plain_answer};

use crate::primitive::{Act, FaultPrimitive, Sense, has_agg_act, is_pause};

/// Where an instance stands: its aggressor, if it has one, and its victim.
#[derive(Clone, Copy)]
pub struct Places {
    pub agg: Option<usize>,
    pub vic: usize,
}

/// Whether the aggressor's cell holds its state.
fn does_agg_hold(agg: Option<Sense>, place: Option<usize>, vic: usize, cells: &[bool]) -> bool
    requires { FitsAgg agg place vic (length cells.now) }
    ensures { result ≡ agg_holds agg place cells.now }
{
    match (agg, place) {
        (Some(sense), Some(at)) => cells[at] == sense.state,
        _ => true,
    }
}

/// Whether every state of the primitive holds.
fn do_states_hold(prim: &FaultPrimitive, places: Places, cells: &[bool]) -> bool
    requires { FitsPlace prim.now places (length cells.now) }
    ensures { result ≡ states_hold prim.now places cells.now }
{
    cells[places.vic] == prim.vic().state
        && does_agg_hold(prim.agg(), places.agg, places.vic, cells)
}

fn has_any_act(prim: &FaultPrimitive) -> bool
    ensures { result ≡ has_act prim.now }
{
    prim.vic().act.is_some() || has_agg_act(prim.agg())
}

/// Closes the cells: a primitive without an act acts wherever its states hold.
#[tactic(auto, unfolding(crate::specs::Cells::close_of))]
pub fn close_cells(prim: &FaultPrimitive, places: Places, cells: &mut [bool])
    requires { FitsPlace prim.now places (length cells.old) }
    ensures { cells.new ≡ close_of prim.now places cells.old }
{
    if !has_any_act(prim) && do_states_hold(prim, places, cells) {
        cells[places.vic] = prim.after();
    }
}

/// Whether two acts are the same.
pub fn is_same_act(one: Act, other: Act) -> bool
    ensures { result ≡ same_act one other }
{
    one == other
}

fn does_agg_act(agg: Option<Sense>, place: Option<usize>, at: usize, act: Act) -> bool
    ensures { result ≡ agg_acts agg place at act }
{
    match (agg, place) {
        (Some(sense), Some(own)) => own == at && sense.act == Some(act),
        _ => false,
    }
}

/// Whether this act on this cell is the primitive's own.
#[tactic(auto, unfolding(crate::specs::Cells::acts))]
fn does_act(prim: &FaultPrimitive, places: Places, cells: &[bool], at: usize, act: Act) -> bool
    requires { FitsPlace prim.now places (length cells.now) }
    ensures { result ≡ acts prim.now places cells.now at act }
{
    ((places.vic == at && prim.vic().act == Some(act))
        || does_agg_act(prim.agg(), places.agg, at, act))
        && do_states_hold(prim, places, cells)
}

/// The plain part of an act on a cell; a pause has none. The answer is that of a read.
pub fn do_plainly(cells: &mut [bool], at: usize, act: Act) -> Option<bool>
    requires { at < length cells.old }
    ensures cells { cells.new ≡ plain_cells cells.old at act }
    ensures answer { result ≡ plain_answer cells.old at act }
{
    match act {
        Act::Write(bit) => {
            cells[at] = bit;
            None
        }
        Act::Read => Some(cells[at]),
        Act::Pause => None,
    }
}

/// The effect of the primitive where the act was its own, and closing.
fn take_effect(prim: &FaultPrimitive, places: Places, cells: &mut [bool], own: bool)
    requires { FitsPlace prim.now places (length cells.old) }
    ensures { cells.new ≡ close_of prim.now places (if own then slice_set cells.old places.vic prim.now.after else cells.old) }
{
    if own {
        cells[places.vic] = prim.after();
    }
    close_cells(prim, places, cells);
}

/// One act on one cell, which is no pause, with what the primitive makes of it. The answer is that of a read.
#[tactic(auto, unfolding(crate::specs::Cells::step_cells, crate::specs::Cells::step_answer))]
pub fn step(
    prim: &FaultPrimitive,
    places: Places,
    cells: &mut [bool],
    at: usize,
    act: Act,
) -> Option<bool>
    requires places { FitsPlace prim.now places (length cells.old) }
    requires within { at < length cells.old }
    requires operates { act ≢ Act.Pause }
    ensures cells { cells.new ≡ step_cells prim.now places cells.old at act }
    ensures answer { result ≡ step_answer prim.now places cells.old at act }
{
    let own = does_act(prim, places, cells, at, act);
    let plain = do_plainly(cells, at, act);
    let answer = if own { prim.answer().or(plain) } else { plain };
    take_effect(prim, places, cells, own);
    answer
}

/// A pause, in which a primitive can lose its victim's state. It is on no cell and answers nothing.
#[tactic(auto, unfolding(crate::specs::Cells::pause_cells))]
pub fn pause_cells(prim: &FaultPrimitive, places: Places, cells: &mut [bool])
    requires { FitsPlace prim.now places (length cells.old) }
    ensures { cells.new ≡ pause_cells prim.now places cells.old }
{
    let own = is_pause(prim.vic().act) && do_states_hold(prim, places, cells);
    take_effect(prim, places, cells, own);
}
