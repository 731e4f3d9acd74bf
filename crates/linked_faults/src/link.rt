//! Two linked primitives on a list of cells.

ghost use Rattle.std.specs.Prelude.{◌≡◌, ◌<◌, ◌&&◌, length};
ghost use Rattle.fault_core.specs.Primitive.{is_retention, is_pause};
ghost use Rattle.fault_core.specs.Cells.{FitsPlace, FitsAgg, states_hold, agg_holds, acts, agg_acts};
ghost use Rattle.linked_faults.specs.Linking.{FitsLinkPlaces, beside, first_places, second_places, linked_cells, linked_answer, linked_pause};

use fault_core::{Act, Places, Prim, Sense, do_plainly};

/// Two primitives with the same victim, the second of which can hide what the first did. Where both have an
/// aggressor, they share it or have one each.
#[derive(Clone, Copy)]
pub struct Link {
    pub first: Prim,
    pub second: Prim,
    pub is_shared: bool,
}

/// Three different cells: the first aggressor's, the second's, and the victim's. A primitive of one cell uses the
/// victim's alone, and an aggressor that is shared is the first.
#[derive(Clone, Copy)]
pub struct LinkPlaces {
    pub a: usize,
    pub b: usize,
    pub v: usize,
}

fn beside(agg: Option<Sense>, at: usize) -> Option<usize>
    ensures { result ≡ beside agg at }
{
    match agg {
        Some(_) => Some(at),
        None => None,
    }
}

/// Where the first primitive stands.
pub fn first_places(link: &Link, spots: LinkPlaces) -> Places
    ensures { result ≡ first_places link.now spots }
{
    Places {
        agg: beside(link.first.agg(), spots.a),
        vic: spots.v,
    }
}

/// Where the second primitive stands.
pub fn second_places(link: &Link, spots: LinkPlaces) -> Places
    ensures { result ≡ second_places link.now spots }
{
    let at = if link.is_shared { spots.a } else { spots.b };
    Places {
        agg: beside(link.second.agg(), at),
        vic: spots.v,
    }
}

/// Whether the aggressor's cell holds its state.
fn does_agg_hold(agg: Option<Sense>, place: Option<usize>, vic: usize, cells: &[bool]) -> bool
    requires { FitsAgg agg place vic (length cells.now) }
    ensures { result ≡ agg_holds agg place cells.now }
{
    match (agg, place) {
        (Some(sense), Some(at)) => cells[at] == sense.state,
        _ => true,
    }
}

/// Whether every state of the primitive holds.
fn do_states_hold(prim: &Prim, places: Places, cells: &[bool]) -> bool
    requires { FitsPlace prim.now places (length cells.now) }
    ensures { result ≡ states_hold prim.now places cells.now }
{
    cells[places.vic] == prim.vic().state
        && does_agg_hold(prim.agg(), places.agg, places.vic, cells)
}

fn does_agg_act(agg: Option<Sense>, place: Option<usize>, at: usize, act: Act) -> bool
    ensures { result ≡ agg_acts agg place at act }
{
    match (agg, place) {
        (Some(sense), Some(own)) => own == at && sense.act == Some(act),
        _ => false,
    }
}

/// Whether this act on this cell is the primitive's own.
#[tactic(auto, unfolding(fault_core::specs::Cells::acts))]
fn does_act(prim: &Prim, places: Places, cells: &[bool], at: usize, act: Act) -> bool
    requires { FitsPlace prim.now places (length cells.now) }
    ensures { result ≡ acts prim.now places cells.now at act }
{
    ((places.vic == at && prim.vic().act == Some(act))
        || does_agg_act(prim.agg(), places.agg, at, act))
        && do_states_hold(prim, places, cells)
}

fn is_paused(act: Option<Act>) -> bool
    ensures { result ≡ is_pause act }
{
    matches!(act, Some(Act::Pause))
}

/// Whether a pause is the primitive's own.
fn does_lose(prim: &Prim, places: Places, cells: &[bool]) -> bool
    requires { FitsPlace prim.now places (length cells.now) }
    ensures { result ≡ is_retention prim.now && states_hold prim.now places cells.now }
{
    is_paused(prim.vic().act) && do_states_hold(prim, places, cells)
}

/// One act on one cell: its plain part, and the effect of the primitive whose act it is.
#[tactic(auto, unfolding(crate::specs::Linking::linked_cells, crate::specs::Linking::linked_answer))]
pub(crate) fn act_on(
    link: &Link,
    spots: LinkPlaces,
    cells: &mut [bool],
    at: usize,
    act: Act,
) -> Option<bool>
    requires spots { FitsLinkPlaces spots (length cells.old) }
    requires within { at < length cells.old }
    ensures cells { cells.new ≡ linked_cells link.now spots cells.old at act }
    ensures answer { result ≡ linked_answer link.now spots cells.old at act }
{
    let first = does_act(&link.first, first_places(link, spots), cells, at, act);
    let second = does_act(&link.second, second_places(link, spots), cells, at, act);
    let plain = do_plainly(cells, at, act);
    if first {
        cells[spots.v] = link.first.after();
        return link.first.answer().or(plain);
    }
    if second {
        cells[spots.v] = link.second.after();
        return link.second.answer().or(plain);
    }
    plain
}

/// A pause.
#[tactic(auto, unfolding(crate::specs::Linking::linked_pause))]
pub(crate) fn pause_on(link: &Link, spots: LinkPlaces, cells: &mut [bool])
    requires { FitsLinkPlaces spots (length cells.old) }
    ensures { cells.new ≡ linked_pause link.now spots cells.old }
{
    if does_lose(&link.first, first_places(link, spots), cells) {
        cells[spots.v] = link.first.after();
        return;
    }
    if does_lose(&link.second, second_places(link, spots), cells) {
        cells[spots.v] = link.second.after();
    }
}
