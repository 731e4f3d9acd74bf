//! Verdicts compared with runs of every array of two to four cells.

ghost use Rattle.std.specs.Prelude.{◌≡◌, ◌≢◌, ◌<◌, ◌≤◌};
ghost use Rattle.fault_core.specs.Cells.{FitsPlace};
ghost use Rattle.march_core.specs.Visits.{FitsWord};
ghost use Rattle.array_sim.specs.Run.{places_of};

use crate::given::{MATS_PLUS, all_hold, march_of};
use array_sim::{Instance, simulate};
use coverage::{Verdict, judge};
use fault_core::{Prim, one_cell, two_cell};
use march_core::March;

/// The instance of a primitive with its victim in one cell and, where it has an aggressor, that in another.
fn instance_at(prim: &Prim, agg: usize, vic: usize, size: usize) -> Instance
    requires aggressor { agg < size }
    requires victim { vic < size }
    requires apart { agg ≢ vic }
    ensures { FitsPlace result.prim (places_of result) size }
{
    match prim.agg() {
        Some(_) => Instance {
            prim: *prim,
            agg: Some(agg),
            vic,
        },
        None => Instance {
            prim: *prim,
            agg: None,
            vic,
        },
    }
}

/// Whether the march catches the instance from this content: cell i holds bit i of the number.
fn is_caught(march: &March, instance: &Instance, size: usize, directions: u64, number: u8) -> bool
    requires places { FitsPlace instance.now.prim (places_of instance.now) size }
    requires four_cells { size ≤ 4 }
    requires fits { FitsWord march.now directions }
{
    let mut cells = [
        number % 2 == 1,
        number / 2 % 2 == 1,
        number / 4 % 2 == 1,
        number / 8 % 2 == 1,
    ];
    simulate(march, instance, &mut cells[..size], directions).is_some()
}

/// Whether it does so from every content.
fn is_always_caught(march: &March, instance: &Instance, size: usize, directions: u64) -> bool
    requires places { FitsPlace instance.now.prim (places_of instance.now) size }
    requires four_cells { size ≤ 4 }
    requires fits { FitsWord march.now directions }
{
    for number in 0..16 {
        if !is_caught(march, instance, size, directions, number) {
            return false;
        }
    }
    true
}

/// Whether it does so in every choice of directions of four elements at most.
fn is_found(march: &March, instance: &Instance, size: usize) -> bool
    requires places { FitsPlace instance.now.prim (places_of instance.now) size }
    requires four_cells { size ≤ 4 }
{
    for choice in 0..16u64 {
        let directions = choice << 60;
        if march.fits_directions(directions)
            && !is_always_caught(march, instance, size, directions)
        {
            return false;
        }
    }
    true
}

/// Whether it does so beside every victim.
fn is_found_at(march: &March, prim: &Prim, size: usize, vic: usize) -> bool
    requires victim { vic < size }
    requires four_cells { size ≤ 4 }
{
    for agg in 0..size {
        if agg != vic && !is_found(march, &instance_at(prim, agg, vic, size), size) {
            return false;
        }
    }
    true
}

/// Whether the march detects the primitive in arrays of this size, by running every one.
fn is_detected(march: &March, prim: &Prim, size: usize) -> bool
    requires { size ≤ 4 }
{
    for vic in 0..size {
        if !is_found_at(march, prim, size, vic) {
            return false;
        }
    }
    true
}

fn is_covered(verdict: &Verdict) -> bool {
    match verdict {
        Verdict::Covered => true,
        Verdict::Escape(_) => false,
    }
}

/// Whether the verdict is that of every array of two to four cells.
fn is_confirmed(march: &March, prim: &Prim) -> bool {
    let covered = is_covered(&judge(march, prim));
    is_detected(march, prim, 2) == covered
        && is_detected(march, prim, 3) == covered
        && is_detected(march, prim, 4) == covered
}

fn are_confirmed(march: &March, prims: &[Prim]) -> bool {
    for prim in prims {
        if !is_confirmed(march, prim) {
            return false;
        }
    }
    true
}

/// Whether it is so for each static primitive.
fn are_all_confirmed(march: &March) -> bool {
    are_confirmed(march, &one_cell()) && are_confirmed(march, &two_cell())
}

/// Marches of four elements at most, so that every choice of directions can be walked.
#[test]
fn verdicts_are_those_of_every_small_array(rt: HostRuntime) {
    let mats = march_of(&rt, MATS_PLUS);
    let any = march_of(&rt, b"{any(w0);any(r0,w1);any(w0);down(r0,w1)}");
    let long = march_of(&rt, b"{any(w1);up(r1,w0,r0);any(r0);down(r0,w1)}");
    let again = march_of(&rt, b"{any(w0);any(w0,r0);any(w1,r1,w1,r1)}");
    let claims = [
        are_all_confirmed(&mats),
        are_all_confirmed(&any),
        are_all_confirmed(&long),
        are_all_confirmed(&again),
    ];
    all_hold(&rt, &claims);
}
