ghost use Rattle.std.specs.Prelude.{◌≡◌, ◌≤◌, ◌↔◌, ◌⊎◌, ℕ, [], length, All, IfOk, IfErr, OnOk, IsTrue, MatchOption, Option};
ghost use Rattle.bist_host.specs.Files.{OnlyReads};
ghost use Rattle.march_core.specs.Visits.{is_direction};
ghost use Rattle.fault_core.specs.Primitive.{has_aggressor};
ghost use Rattle.fault_core.specs.Cells.{FitsPlace};
ghost use Rattle.bist_app.specs.declared.sim.SimShape.{SimShape};
ghost use Rattle.bist_endings.specs.Ending.{plain, done_of};
ghost use Rattle.bist_inputs.specs.Inputs.{HasCause, IsOwnRefusal};
ghost use Rattle.bist_endings.specs.Conclude.{NamesWords};
ghost use Rattle.bist_endings.specs.Words.{word};
ghost use Rattle.bist_app.specs.Shared.{FitsAggressor};
ghost use Rattle.bist_app.specs.Sim.{IsAggressorWord, IsSimShape, content_of, directions_of_letters, sim_line, LeavesSim, DecidesSim, sim_form};
ghost use Rattle.bist_app.specs.Forms.{HasForm};

use crate::directions::{direction_word, fit_directions};
use array_sim::{Instance, simulate};
use bist_bits::NoMemory;
use bist_endings::{Effects, Misfit, Refusal, number_of, put_number};
use bist_host::Host;
use bist_inputs::{give_prim, read_march_input};
use bist_text::{put, put_number_between};
use fault_core::{Places, Prim};
use march_core::{March, Miss};
use std::alloc::{AllocError, Global};

// The places of the words.
const MARCH: usize = 1;

const FAULT: usize = 2;

const SIZE: usize = 3;

const CONTENT: usize = 4;

const AGGRESSOR: usize = 5;

const VICTIM: usize = 6;

const DIRECTIONS: usize = 7;

/// What the words of `sim` say beside their texts.
#[derive(Clone, Copy)]
pub struct SimShape {
    pub size: usize,
    pub aggressor: Option<usize>,
    pub victim: usize,
}

/// What the words say beside their texts, if they do.
fn sim_shape(words: &[&str]) -> Option<SimShape>
    requires { HasForm sim_form words.now }
    ensures { MatchOption result ((shape : SimShape) → IsSimShape words.now shape → ⊥) (λ shape. IsSimShape words.now shape) }
{
    let content = words[CONTENT];
    let letters = words[DIRECTIONS];
    let size = number_of(words[SIZE])?;
    let victim = number_of(words[VICTIM])?;
    let aggressor = aggressor_of(words[AGGRESSOR], size, victim)?;
    if size < 2
        || size > 4096
        || victim >= size
        || content.len() != size
        || letters.is_empty()
        || letters.len() > 64
        || !are_of(content.as_bytes(), b'0', b'1')
        || !are_of(letters.as_bytes(), b'u', b'd')
    {
        return None;
    }
    Some(SimShape {
        size,
        aggressor,
        victim,
    })
}

/// The aggressor's cell that a word names, or none.
fn aggressor_of(word: &str, size: usize, victim: usize) -> Option<Option<usize>>
    ensures { MatchOption result ((cell : Option ℕ) → IsAggressorWord word.now size victim cell → ⊥)
        (λ cell. IsAggressorWord word.now size victim cell) }
{
    if word == "none" {
        return Some(None);
    }
    let cell = number_of(word)?;
    if cell >= size || cell == victim {
        return None;
    }
    Some(Some(cell))
}

/// Whether each of the bytes is one of two.
fn are_of(bytes: &[u8], first: u8, second: u8) -> bool
    ensures { IsTrue result ↔ All (λ byte. (byte ≡ first) ⊎ (byte ≡ second)) bytes.now }
{
    for byte in bytes {
        if *byte != first && *byte != second {
            return false;
        }
    }
    true
}

/// The cells whose digits these are.
fn cells_of(alloc: Global, digits: &[u8]) -> Result<Vec<bool>, AllocError>
    ensures { IfOk result (λ cells. cells.items ≡ content_of digits.now) }
{
    digits.iter().map(|digit| *digit == b'1').collect(alloc)
}

/// The line of a run.
fn line_of(alloc: Global, miss: Option<Miss>) -> Result<Vec<u8>, NoMemory>
    ensures { IfOk result (λ line. line.items ≡ sim_line miss) }
{
    let mut line = Vec::new(alloc);
    match miss {
        None => put(&mut line, b"passes\n")?,
        Some(miss) => {
            put_number(&mut line, b"caught element ", miss.element)?;
            put_number(&mut line, b" address ", miss.address)?;
            put_number_between(&mut line, b" operation ", miss.op as u64, b"\n")?;
        }
    }
    Ok(line)
}

/// Refuses an aggressor for a primitive of one cell, and none for one of two cells.
pub fn fit_aggressor(given: bool, prim: &Prim) -> Result<(), Refusal>
    ensures answer { FitsAggressor given prim.now result }
    ensures own { IfErr result IsOwnRefusal }
    ensures given { OnOk result (given ≡ has_aggressor prim.now) }
{
    if given != prim.is_two_cell() {
        return Err(Refusal::Misfit(Misfit::Aggressor));
    }
    Ok(())
}

/// The run, and its line.
#[tactic(auto, unfolding(crate::specs::Sim::LeavesSim))]
fn plan_sim(
    alloc: Global,
    march: &March,
    prim: &Prim,
    places: Places,
    digits: &[u8],
    letters: &[u8],
) -> Result<Effects, Refusal>
    requires places { FitsPlace prim.now places (length digits.now) }
    requires least { 1 ≤ length letters.now }
    requires most { length letters.now ≤ 64 }
    requires fits { IsTrue (is_direction march.now (directions_of_letters letters.now)) }
    ensures own { IfErr result IsOwnRefusal }
    ensures answer { LeavesSim march.now prim.now places digits.now letters.now (plain result) }
    ensures outputs { IfOk result (λ plan. plan.outputs.items ≡ []) }
{
    let Ok(mut cells) = cells_of(alloc, digits) else {
        return Err(Refusal::NoMemory);
    };
    let instance = Instance {
        prim: *prim,
        agg: places.agg,
        vic: places.vic,
    };
    let miss = simulate(
        march,
        &instance,
        cells.as_mut_slice(),
        direction_word(letters),
    );
    let line = line_of(alloc, miss)?;
    Ok(Effects {
        found: miss.is_some(),
        outputs: Vec::new(alloc),
        line,
    })
}

/// Runs one array.
pub fn decide_sim<H: Host>(alloc: Global, words: &[&str], host: &mut H) -> Result<Effects, Refusal>
    requires { HasForm sim_form words.now }
    ensures kept { OnlyReads (H.state host.old) (H.state host.new) }
    ensures outputs { IfOk result (λ plan. NamesWords words.now (done_of plan).outputs) }
    ensures answer { DecidesSim (H.state host.old).files words.now (plain result) }
    ensures cause { HasCause (H.state host.old) (H.state host.new) result }
{
    let Some(shape) = sim_shape(words) else {
        return Err(Refusal::Usage);
    };
    let march = read_march_input(host, words, MARCH)?;
    let prim = give_prim(words[FAULT].as_bytes())?;
    fit_aggressor(shape.aggressor.is_some(), &prim)?;
    fit_directions(words[DIRECTIONS].as_bytes(), &march)?;
    let places = Places {
        agg: shape.aggressor,
        vic: shape.victim,
    };
    plan_sim(
        alloc,
        &march,
        &prim,
        places,
        words[CONTENT].as_bytes(),
        words[DIRECTIONS].as_bytes(),
    )
}
