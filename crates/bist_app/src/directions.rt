ghost use Rattle.std.specs.Prelude.{◌≡◌, ◌≤◌, ◌-◌, ◌%◌, ◌^◌, length, OnOk, IfErr, IsTrue};
ghost use Rattle.march_core.specs.Visits.{directions_of, is_direction};
ghost use Rattle.bist_inputs.specs.Inputs.{IsOwnRefusal};
ghost use Rattle.bist_app.specs.Sim.{directions_of_letters, FitsDirections};

use bist_endings::{Misfit, Refusal};
use march_core::March;

/// The direction word of letters `u` and `d`: the first stands at bit 63, and a `d` is 1.
pub fn direction_word(letters: &[u8]) -> u64
    requires least { 1 ≤ length letters.now }
    requires most { length letters.now ≤ 64 }
    ensures directions { directions_of result (length letters.now) ≡ directions_of_letters letters.now }
    ensures rest { result % 2 ^ (64 - length letters.now) ≡ 0 }
{
    let mut value = 0u64;
    for letter in letters {
        value = value * 2 + u64::from(*letter == b'd');
    }
    value * (1 << (64 - letters.len()))
}

/// Refuses letters that aren't one per element, as its order allows.
pub fn fit_directions(letters: &[u8], march: &March) -> Result<(), Refusal>
    requires least { 1 ≤ length letters.now }
    requires most { length letters.now ≤ 64 }
    ensures answer { FitsDirections letters.now march.now result }
    ensures own { IfErr result IsOwnRefusal }
    ensures fits { OnOk result (IsTrue (is_direction march.now (directions_of_letters letters.now))) }
{
    if letters.len() != march.len() {
        return Err(Refusal::Misfit(Misfit::Directions));
    }
    if !march.fits_directions(direction_word(letters)) {
        return Err(Refusal::Misfit(Misfit::Directions));
    }
    Ok(())
}
