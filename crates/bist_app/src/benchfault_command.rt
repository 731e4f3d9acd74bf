//! The command `benchfault`: the self-test of a march and a memory against the first box, in which an instance of a primitive is planted.

ghost use Rattle.std.specs.Prelude.{◌≡◌, ◌↔◌, [], Some, IfOk, IfErr, IsTrue, MatchOption, Option, is_some, map};
ghost use Rattle.bist_host.specs.Files.{OnlyReads};
ghost use Rattle.fault_core.specs.Primitive.{has_aggressor};
ghost use Rattle.bist_endings.specs.Ending.{plain, done_of};
ghost use Rattle.bist_endings.specs.Conclude.{NamesWords};
ghost use Rattle.bist_inputs.specs.Inputs.{HasCause, IsOwnRefusal};
ghost use Rattle.bist_app.specs.declared.benchfault_command.NamedPlace.{NamedPlace};
ghost use Rattle.bist_app.specs.declared.benchfault_command.FaultShape.{FaultShape};
ghost use Rattle.bist_app.specs.inner.RunsBeside.{CanPlant};
ghost use Rattle.bist_app.specs.BenchFault.{IsPlaceWord, IsAggressorPlace, IsFaultShape, IsWithin, ArePlaces, FitsPlaces, place_in, planted_of, TestsFault, RunsFault, DecidesFault, bench_fault_form};
ghost use Rattle.bist_app.specs.Forms.{HasForm};

use crate::benching::test_beside;
use crate::boxes::{fit_room, want_box};
use crate::shared::fit_length;
use crate::sim::fit_aggressor;
use bist_endings::{DeviceRefusal, Effects, Refusal, number_of};
use bist_host::Host;
use bist_inputs::{give_prim, read_march_input, read_memory_input};
use fault_core::Prim;
use march_core::March;
use memory_desc::Memory;
use std::alloc::Global;
use word_device::{BitPlace, Device, Planted, closing, planted_fails};

// The places of the words.
const MARCH: usize = 1;

const MEMORY: usize = 2;

const FAULT: usize = 3;

const AGGRESSOR: usize = 4;

const VICTIM: usize = 5;

/// A bit of a word of a memory, as words name it.
#[derive(Clone, Copy)]
pub struct NamedPlace {
    pub word: usize,
    pub bit: usize,
}

/// What the words of `benchfault` say beside their texts.
#[derive(Clone, Copy)]
pub struct FaultShape {
    pub aggressor: Option<NamedPlace>,
    pub victim: NamedPlace,
}

/// The place that a word names.
fn place_of(text: &str) -> Option<NamedPlace>
    ensures { MatchOption result ((place : NamedPlace) → IsPlaceWord text.now place → ⊥) (λ place. IsPlaceWord text.now place) }
{
    let (word, bit) = text.split_once('.')?;
    let word = number_of(word)?;
    let bit = number_of(bit)?;
    Some(NamedPlace { word, bit })
}

/// The aggressor's place that a word names, or none.
fn aggressor_place(text: &str) -> Option<Option<NamedPlace>>
    ensures { MatchOption result ((place : Option NamedPlace) → IsAggressorPlace text.now place → ⊥)
        (λ place. IsAggressorPlace text.now place) }
{
    if text == "none" {
        return Some(None);
    }
    place_of(text).map(Some)
}

/// What the words say beside their texts, if they do.
fn fault_shape(words: &[&str]) -> Option<FaultShape>
    requires { HasForm bench_fault_form words.now }
    ensures { MatchOption result ((shape : FaultShape) → IsFaultShape words.now shape → ⊥) (λ shape. IsFaultShape words.now shape) }
{
    let aggressor = aggressor_place(words[AGGRESSOR])?;
    let victim = place_of(words[VICTIM])?;
    Some(FaultShape { aggressor, victim })
}

fn is_within(place: NamedPlace, memory: &Memory) -> bool
    ensures { IsTrue result ↔ IsWithin memory.now place }
{
    place.word < memory.words() as usize && place.bit < usize::from(memory.bits())
}

/// Refuses a place outside the memory, and two places in one word.
fn fit_places(shape: FaultShape, memory: &Memory) -> Result<(), Refusal>
    ensures answer { FitsPlaces memory.now shape result }
    ensures own { IfErr result IsOwnRefusal }
    ensures fit { IfOk result (λ _. ArePlaces memory.now shape) }
{
    let is_apart = match shape.aggressor {
        None => true,
        Some(place) => is_within(place, memory) && place.word != shape.victim.word,
    };
    if is_apart && is_within(shape.victim, memory) {
        return Ok(());
    }
    Err(Refusal::Device(DeviceRefusal::BadPlace))
}

fn place_in(place: NamedPlace, memory: &Memory) -> BitPlace
    requires { IsWithin memory.now place }
    ensures { result ≡ place_in place }
{
    memory.known();
    BitPlace {
        word: place.word as u32,
        bit: place.bit as u8,
    }
}

/// The instance of a primitive that the words name.
fn planted_for(prim: &Prim, shape: FaultShape, memory: &Memory) -> Planted
    requires places { ArePlaces memory.now shape }
    requires given { is_some shape.aggressor ≡ has_aggressor prim.now }
    ensures value { result ≡ planted_of prim.now shape }
    ensures fits { CanPlant memory.now (Some result) }
{
    let agg = match shape.aggressor {
        None => None,
        Some(place) => Some(place_in(place, memory)),
    };
    Planted {
        prim: *prim,
        agg,
        vic: place_in(shape.victim, memory),
    }
}

/// The checks behind the inputs, in their order, and the run.
fn test_fault(
    alloc: Global,
    march: &March,
    memory: &Memory,
    prim: &Prim,
    shape: FaultShape,
    devices: &mut Vec<Box<dyn Device>>,
) -> Result<Effects, Refusal>
    ensures own { IfErr result IsOwnRefusal }
    ensures answer { TestsFault march.now memory.now prim.now shape (map (λ b. told b) devices.old.items)
        (map (λ b. told b) devices.new.items) (plain result) }
    ensures outputs { IfOk result (λ plan. (done_of plan).outputs ≡ []) }
{
    fit_aggressor(shape.aggressor.is_some(), prim)?;
    fit_length(march, memory)?;
    want_box(devices)?;
    fit_places(shape, memory)?;
    fit_room(devices, memory)?;
    let planted = planted_for(prim, shape, memory);
    // a chip in which it was just planted answers some read wrong, where the march detects the primitive
    memory.known();
    planted.prim.known();
    closing();
    planted_fails(march, memory);
    test_beside(alloc, march, memory, &Some(planted), devices)
}

/// Runs the self-test, with the instance in the places that the words say.
fn run_fault<H: Host>(
    alloc: Global,
    words: &[&str],
    shape: FaultShape,
    host: &mut H,
    devices: &mut Vec<Box<dyn Device>>,
) -> Result<Effects, Refusal>
    requires { HasForm bench_fault_form words.now }
    ensures kept { OnlyReads (H.state host.old) (H.state host.new) }
    ensures outputs { IfOk result (λ plan. NamesWords words.now (done_of plan).outputs) }
    ensures answer { RunsFault (H.state host.old).files (map (λ b. told b) devices.old.items)
        (map (λ b. told b) devices.new.items) words.now shape (plain result) }
    ensures cause { HasCause (H.state host.old) (H.state host.new) result }
{
    let march = read_march_input(host, words, MARCH)?;
    let memory = read_memory_input(host, words, MEMORY)?;
    let prim = give_prim(words[FAULT].as_bytes())?;
    test_fault(alloc, &march, &memory, &prim, shape, devices)
}

/// Runs the self-test of a memory by a march against the first box, in which an instance of a primitive is planted.
pub fn decide_fault<H: Host>(
    alloc: Global,
    words: &[&str],
    host: &mut H,
    devices: &mut Vec<Box<dyn Device>>,
) -> Result<Effects, Refusal>
    requires { HasForm bench_fault_form words.now }
    ensures kept { OnlyReads (H.state host.old) (H.state host.new) }
    ensures outputs { IfOk result (λ plan. NamesWords words.now (done_of plan).outputs) }
    ensures answer { DecidesFault (H.state host.old).files (map (λ b. told b) devices.old.items)
        (map (λ b. told b) devices.new.items) words.now (plain result) }
    ensures cause { HasCause (H.state host.old) (H.state host.new) result }
{
    match fault_shape(words) {
        Some(shape) => run_fault(alloc, words, shape, host, devices),
        None => Err(Refusal::Usage),
    }
}
