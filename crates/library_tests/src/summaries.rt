//! What some elements of a march lead to.

ghost use Rattle.std.specs.Prelude.{IsSome, IfOk};

use crate::given::{MATS_PLUS, UP_UP_DOWN, all_hold, march_of};
use cell_machine::Pair;
use fault_core::{Act, Prim, PrimFault, Sense};
use march_core::March;
use pair_tracker::{Placement, Summary, Survivor};

const ZEROS: Pair = Pair { a: false, v: false };

const ONES: Pair = Pair { a: true, v: true };

/// `<0w1;0/1/->`.
fn sets_its_victim() -> Result<Prim, PrimFault>
    ensures { IfOk result (λ prim. IsSome prim.agg) }
{
    let act = Some(Act::Write(true));
    let state = false;
    let victim = Sense { state, act: None };
    Prim::new(Some(Sense { state, act }), victim, true, None)
}

/// Whether one run survives, which ends with this pair and had these directions.
fn is_survivor(survivors: &[Survivor], pair: Pair, directions: u64) -> bool {
    survivors == [Survivor { pair, directions }].as_slice()
}

/// Whether the first elements of MATS+ lead to ones beside a lower aggressor and nowhere beside a higher one.
fn elements_lead_to_ones(march: &March, prim: &Prim) -> bool
    requires { IsSome prim.now.agg }
{
    if march.len() != 3 {
        return false;
    }
    let above = Summary::element(march, prim, Placement::Above, 1);
    let below = Summary::element(march, prim, Placement::Below, 1);
    let both = Summary::element(march, prim, Placement::Above, 0).then(&above);
    is_survivor(&above.ends(ZEROS), ONES, 0)
        && below.ends(ZEROS).is_empty()
        && is_survivor(&both.ends(ONES), ONES, 0)
}

fn a_march_leads_to_zeros(march: &March, prim: &Prim) -> bool
    requires { IsSome prim.now.agg }
{
    let whole = Summary::whole(march, prim, Placement::Above);
    is_survivor(&whole.survivors([false, false]), ZEROS, UP_UP_DOWN)
}

#[test]
fn elements_are_summed_up(rt: HostRuntime) {
    let march = march_of(&rt, MATS_PLUS);
    let prim = sets_its_victim().expect(&rt, "a primitive");
    all_hold(
        &rt,
        &[
            elements_lead_to_ones(&march, &prim),
            a_march_leads_to_zeros(&march, &prim),
        ],
    );
}
