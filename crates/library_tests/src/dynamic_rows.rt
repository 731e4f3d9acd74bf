//! Dynamic primitives in parts, and what one array shows of them.

ghost use Rattle.std.specs.Prelude.{◌≡◌, ◌<◌, None, IfOk};

use crate::given::{all_hold, march_of};
use dynamic_core::{DynInstance, DynPrim, DynSense, dyn_one, dyn_two, print_dyn, simulate_dyn};
use fault_core::{Act, PrimFault};
use march_core::{March, Miss};

/// A write of 1 and its read stand side by side at the end cells alone.
const ENDS: &[u8] = b"{any(w0);up(w1);down(r1);up(w0);down(w1);up(r1)}";

/// `uududu`.
const DOWN_AT_2_AND_4: u64 = 0b101 << 59;

/// `<0w1r1/0/0>`.
fn loses_a_written_one() -> Result<DynPrim, PrimFault>
    ensures { IfOk result (λ prim. prim.agg ≡ None) }
{
    let acts = Some([Act::Write(true), Act::Read]);
    let state = false;
    DynPrim::new(None, DynSense { state, acts }, false, Some(false))
}

fn loses_it_at_once(prim: &DynPrim) -> bool {
    print_dyn(prim).as_str() == "<0w1r1/0/0>"
        && prim.agg().is_none()
        && !prim.vic().state
        && !prim.after()
        && prim.answer() == Some(false)
        && !prim.is_two_cell()
}

/// Whether two acts on both cells are refused, and what a good cell does.
fn are_others_refused(vic: DynSense) -> bool {
    let two = DynPrim::new(Some(vic), vic, false, Some(false));
    let as_good = DynPrim::new(None, vic, true, Some(true));
    matches!(two, Err(PrimFault::TooManyOperations)) && matches!(as_good, Err(PrimFault::NotAFault))
}

fn classes_are_whole() -> bool {
    dyn_one().len() == 30 && dyn_two().len() == 96
}

/// Where a march first misses, of three cells, that one is faulty.
fn first_miss(march: &March, prim: &DynPrim, vic: usize) -> Option<Miss>
    requires one { prim.now.agg ≡ None }
    requires victim { vic < 3 }
{
    if !march.fits_directions(DOWN_AT_2_AND_4) {
        return None;
    }
    let instance = DynInstance {
        prim: *prim,
        agg: None,
        vic,
    };
    let mut cells = [false, false, false];
    simulate_dyn(march, &instance, &mut cells, DOWN_AT_2_AND_4)
}

/// Whether a fault of the last cell is first missed where the elements come back to it.
fn an_end_is_caught(march: &March, prim: &DynPrim) -> bool
    requires { prim.now.agg ≡ None }
{
    let miss = Miss {
        element: 2,
        address: 2,
        op: 0,
    };
    first_miss(march, prim, 2) == Some(miss)
}

#[test]
fn dynamic_primitives(rt: HostRuntime) {
    let prim = loses_a_written_one().expect(&rt, "a primitive");
    let march = march_of(&rt, ENDS);
    all_hold(
        &rt,
        &[
            loses_it_at_once(&prim),
            are_others_refused(prim.vic()),
            classes_are_whole(),
            march.fits_directions(DOWN_AT_2_AND_4),
            first_miss(&march, &prim, 1).is_none(),
            an_end_is_caught(&march, &prim),
        ],
    );
}
