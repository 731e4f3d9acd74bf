//! What an instance does to an array of cells.
ghost use Rattle.std.specs.Prelude.{◌≡◌, ◌<◌, ◌≤◌, ◌&&◌, length};
ghost use Rattle.fault_core.specs.Cells.{same_act};
ghost use Rattle.std.specs.List.{AllByRecursion};
ghost use Rattle.sequence_faults.specs.Primitive.{IsSequence, victim_index};
ghost use Rattle.sequence_faults.specs.Stepping.{victim_at, actor_at, states_hold, held_as, nothing, done_by, begun, is_whole, set_where, seq_step, seq_answer};

use crate::primitive::{SeqPrim, left_by};
use fault_core::{Act, do_plainly, is_same_act};

/// Of each beginning of the operations, the shortest first, whether it was done just now.
pub(crate) type Done = [bool; 16];

/// None was done.
pub(crate) const NOTHING: Done = [false; 16];

fn do_states_hold(states: &[bool], places: &[usize], cells: &[bool]) -> bool
    requires within { AllByRecursion (λ x. x < length cells.now) places.now }
    requires enough { length states.now ≤ length places.now }
    ensures { result ≡ states_hold states.now places.now cells.now }
{
    for i in 0..states.len() {
        if cells[places[i]] != states[i] {
            return false;
        }
    }
    true
}

/// Whether a beginning is done with this act, where the acts before its last were done.
fn goes_on(before: bool, act: Act, own: Act) -> bool
    ensures { result ≡ (before && same_act act own) }
{
    before && is_same_act(act, own)
}

/// Notes which beginnings are done with this act. `holds` says whether the states held before it.
fn note(done: &mut Done, acts: &[Act], holds: bool, act: Act)
    requires { length acts.now ≤ length done.old }
    ensures { done.new ≡ done_by act holds acts.now done.old }
{
    let mut before = holds;
    for (k, own) in acts.iter().enumerate() {
        let was = done[k];
        done[k] = goes_on(before, act, *own);
        before = was;
    }
}

fn begin(prim: &SeqPrim, places: &[usize], cells: &[bool], done: Done, at: usize, act: Act) -> Done
    requires within { AllByRecursion (λ x. x < length cells.now) places.now }
    requires enough { length prim.now.states ≤ length places.now }
    requires sixteen { length done ≡ 16 }
    ensures { result ≡ begun prim.now places.now (held_as cells.now done) at act }
{
    prim.known();
    if places[prim.actor()] != at {
        return NOTHING;
    }
    let mut begun = done;
    let holds = do_states_hold(prim.states(), places, cells);
    note(&mut begun, prim.acts(), holds, act);
    begun
}

fn set_where(hit: bool, cells: &mut [bool], at: usize, bit: bool)
    requires { at < length cells.old }
    ensures { cells.new ≡ set_where hit cells.old at bit }
{
    if hit {
        cells[at] = bit;
    }
}

/// One act on one cell, with what the primitive makes of it. The answer is that of a read.
#[tactic(auto, unfolding(crate::specs::Stepping::seq_step, crate::specs::Stepping::seq_cells, crate::specs::Stepping::seq_answer))]
pub(crate) fn act_on(
    prim: &SeqPrim,
    places: &[usize],
    cells: &mut [bool],
    done: &mut Done,
    at: usize,
    act: Act,
) -> Option<bool>
    requires places { AllByRecursion (λ x. x < length cells.old) places.now }
    requires enough { length prim.now.states ≤ length places.now }
    requires within { at < length cells.old }
    requires sixteen { length done.old ≡ 16 }
    ensures cells { cells.new ≡ (seq_step prim.now places.now (held_as cells.old done.old) at act).cells }
    ensures done { done.new ≡ (seq_step prim.now places.now (held_as cells.old done.old) at act).done }
    ensures answer { result ≡ seq_answer prim.now places.now (held_as cells.old done.old) at act }
{
    prim.known();
    let begun = begin(prim, places, cells, *done, at, act);
    let hit = begun[prim.acts().len() - 1];
    let left = left_by(cells[at], act);
    let plain = do_plainly(cells, at, act);
    set_where(hit, cells, places[prim.states().len() - 1], prim.after());
    *done = if cells[at] == left { begun } else { NOTHING };
    if hit { prim.answer().or(plain) } else { plain }
}
