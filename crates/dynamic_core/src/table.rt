ghost use Rattle.std.specs.Prelude.{◌≡◌, ◌≢◌, ◌+◌, ◌≤◌, ◌++◌, false, true, Some, None, All, AllPairs, Contains, length, map, IsSome};
ghost use Rattle.std.specs.List.{flat_map};
ghost use Rattle.fault_core.specs.declared.primitive.Act.{Act};
ghost use Rattle.dynamic_core.specs.Primitive.{DynamicPrimitive, IsDynamic, TwoActs, AreAccesses, aggressor_acts, has_aggressor};
ghost use Rattle.dynamic_core.specs.Table.{accesses, acting, acting_senses, holding, wrong_acts, wrong_victims, disturbed, disturbs, dyn_one_table, dyn_two_table};

use crate::primitive::{DynPrim, DynSense, left_by};
use arrayvec::ArrayVec;
use fault_core::Act;

const ACCESSES: [Act; 3] = [Act::Write(false), Act::Write(true), Act::Read];

/// A state and two acts.
fn acting(state: bool, first: Act, second: Act) -> DynSense
    ensures { result ≡ acting state first second }
{
    DynSense {
        state,
        acts: Some([first, second]),
    }
}

/// A state alone.
fn holding(state: bool) -> DynSense
    ensures { result ≡ holding state }
{
    DynSense { state, acts: None }
}

/// Appends the senses of a state and a first act.
fn append_seconds(senses: &mut ArrayVec<DynSense, 18>, state: bool, first: Act)
    requires { length senses.old.items + 3 ≤ 18 }
    ensures { senses.new.items ≡ senses.old.items ++ map (acting state first) accesses }
{
    for second in &ACCESSES {
        senses.push(acting(state, first, *second));
    }
}

/// Appends the senses of a state that have acts.
fn append_acting(senses: &mut ArrayVec<DynSense, 18>, state: bool)
    requires { length senses.old.items + 9 ≤ 18 }
    ensures { senses.new.items ≡ senses.old.items ++ flat_map (λ (first : Act). map (acting state first) accesses) accesses }
{
    for first in &ACCESSES {
        append_seconds(senses, state, *first);
    }
}

/// The senses that have acts, in order.
fn acting_senses() -> ArrayVec<DynSense, 18>
    ensures { result.items ≡ acting_senses }
{
    let mut senses = ArrayVec::new();
    append_acting(&mut senses, false);
    append_acting(&mut senses, true);
    senses
}

/// Appends the primitives in which the acts of a victim go wrong, beside an aggressor that doesn't act.
fn append_wrong<const N: usize>(
    prims: &mut ArrayVec<DynPrim, N>,
    agg: &Option<DynSense>,
    vic: &DynSense,
)
    requires aggressor { aggressor_acts agg.now ≡ None }
    requires accesses { (acts : TwoActs) → vic.now.acts ≡ Some acts → AreAccesses acts }
    requires room { length prims.old.items + length (wrong_acts agg.now vic.now) ≤ N }
    ensures { prims.new.items ≡ prims.old.items ++ wrong_acts agg.now vic.now }
{
    let Some(acts) = vic.acts else {
        return;
    };
    let left = left_by(vic.state, acts[0]);
    match acts[1] {
        Act::Write(bit) => prims.push(DynPrim::of_parts(*agg, *vic, !bit, None)),
        Act::Read => {
            prims.push(DynPrim::of_parts(*agg, *vic, !left, Some(!left)));
            prims.push(DynPrim::of_parts(*agg, *vic, !left, Some(left)));
            prims.push(DynPrim::of_parts(*agg, *vic, left, Some(!left)));
        }
        Act::Pause => {}
    }
}

/// Appends all in which the acts of a victim go wrong, beside an aggressor that doesn't act.
fn append_victims<const N: usize>(prims: &mut ArrayVec<DynPrim, N>, agg: &Option<DynSense>)
    requires aggressor { aggressor_acts agg.now ≡ None }
    requires room { length prims.old.items + 30 ≤ N }
    ensures { prims.new.items ≡ prims.old.items ++ wrong_victims agg.now }
{
    for vic in acting_senses().as_slice() {
        append_wrong(prims, agg, vic);
    }
}

/// The acts of an aggressor flip the victim.
fn disturbed(agg: &DynSense, state: bool) -> DynPrim
    requires acts { IsSome agg.now.acts }
    requires accesses { (acts : TwoActs) → agg.now.acts ≡ Some acts → AreAccesses acts }
    ensures { result ≡ disturbed agg.now state }
{
    DynPrim::of_parts(Some(*agg), holding(state), !state, None)
}

/// Appends the primitives in which the acts of an aggressor flip the victim.
fn append_disturbed<const N: usize>(prims: &mut ArrayVec<DynPrim, N>, agg: &DynSense)
    requires acts { IsSome agg.now.acts }
    requires accesses { (acts : TwoActs) → agg.now.acts ≡ Some acts → AreAccesses acts }
    requires room { length prims.old.items + length (disturbs agg.now) ≤ N }
    ensures { prims.new.items ≡ prims.old.items ++ disturbs agg.now }
{
    prims.push(disturbed(agg, false));
    prims.push(disturbed(agg, true));
}

/// Appends all in which the acts of an aggressor flip the victim.
fn append_aggressors<const N: usize>(prims: &mut ArrayVec<DynPrim, N>)
    requires { length prims.old.items + 36 ≤ N }
    ensures { prims.new.items ≡ prims.old.items ++ flat_map disturbs acting_senses }
{
    for agg in acting_senses().as_slice() {
        append_disturbed(prims, agg);
    }
}

/// The thirty dynamic primitives of one cell, in order: by the state, then by the first operation (write 0,
/// write 1, read), then by the second. A second operation that reads has three.
pub fn dyn_one() -> ArrayVec<DynPrim, 30>
    ensures rows { result.items ≡ dyn_one_table }
    ensures every { (p : DynamicPrimitive) → IsDynamic p → has_aggressor p ≡ false → Contains result.items p }
    ensures primitives { All (λ p. IsDynamic p × (has_aggressor p ≡ false)) result.items }
    ensures distinct { AllPairs (λ p q. p ≢ q) result.items }
{
    let mut prims = ArrayVec::new();
    append_victims(&mut prims, &None);
    prims
}

/// The ninety-six dynamic primitives of two cells, in order: those whose operations are on the aggressor, each
/// with the two states of its victim; then the thirty beside an aggressor that holds 0, and beside one that
/// holds 1.
pub fn dyn_two() -> ArrayVec<DynPrim, 96>
    ensures rows { result.items ≡ dyn_two_table }
    ensures every { (p : DynamicPrimitive) → IsDynamic p → has_aggressor p ≡ true → Contains result.items p }
    ensures primitives { All (λ p. IsDynamic p × (has_aggressor p ≡ true)) result.items }
    ensures distinct { AllPairs (λ p q. p ≢ q) result.items }
{
    let mut prims = ArrayVec::new();
    append_aggressors(&mut prims);
    append_victims(&mut prims, &Some(holding(false)));
    append_victims(&mut prims, &Some(holding(true)));
    prims
}
