ghost use Rattle.std.specs.Prelude.{◌≡◌, ◌<◌, ◌≤◌, ◌+◌, ◌^◌, Some, None, Ok, Err, Option, List, map, IsOk, IfOk, IfErr, IfNone};
ghost use Rattle.controller.specs.States.{State};
ghost use Rattle.verilog_cycle.specs.Nets.{valued};
ghost use Rattle.verilog_cycle.specs.Design.{names, registers_of, with_registers};
ghost use Rattle.self_test.specs.Pins.{ArePins};
ghost use Rattle.self_test.specs.Refusals.{Refuses};
ghost use Rattle.self_test.specs.WrongPort.{ArePorts};
ghost use Rattle.word_device.specs.Ports.{shape_of as memory_shape};
ghost use Rattle.self_test.specs.SelfTest.{SelfTest};
ghost use Rattle.word_device.specs.Boxes.{IsTold};
ghost use Rattle.bench.specs.Endings.{Runs};
ghost use Rattle.bench.specs.Laws.{EndsSelfTest};
ghost use Rattle.bench.specs.inner.Cycles.{seen_by, done_by, watched_by, FirstWatched, Stage};

use crate::cycle::{CycleEnd, turn};
use crate::ending::{BenchEnd, BenchRefused, Seen};
use controller::Control;
use march_core::March;
use memory_desc::Memory;
use microcode::assemble;
use self_test::{Pins, pins_of, refusal};
use verilog_cycle::Design;
use word_device::Device;
use word_march::cycle_count;

/// What was seen so far.
#[derive(Clone, Copy)]
pub struct Watch {
    /// The word on `rdata` in the cycle to come.
    pub rdata: u64,
    /// The port `fail` in the last cycle.
    pub fail: bool,
    /// The first cycle with `done`; `None` where there was none so far.
    pub done_cycle: Option<u32>,
    /// The first read that was answered wrong; `None` where there was none so far.
    pub first: Option<Seen>,
}

/// The first read that was answered wrong, with the one that is answered in this cycle.
fn seen_with(first: Option<Seen>, cycle: u32, expected: Option<u64>, returned: u64) -> Option<Seen>
    ensures { result ≡ seen_by first cycle expected returned }
{
    if first.is_some() {
        return first;
    }
    let expected = expected?;
    if expected == returned {
        return None;
    }
    Some(Seen {
        cycle,
        expected,
        returned,
    })
}

/// The first cycle with `done`, with this one.
fn done_with(done_cycle: Option<u32>, done: bool, cycle: u32) -> Option<u32>
    ensures { result ≡ done_by done_cycle done cycle }
{
    match done_cycle {
        Some(first) => Some(first),
        None => { if done { Some(cycle) } else { None } }
    }
}

/// What was seen, with a cycle more.
fn watched(watch: Watch, cycle: u32, expected: Option<u64>, end: CycleEnd) -> Watch
    ensures { result ≡ watched_by watch cycle expected end }
{
    Watch {
        rdata: end.rdata,
        fail: end.fail,
        done_cycle: done_with(watch.done_cycle, end.done, cycle),
        first: seen_with(watch.first, cycle, expected, watch.rdata),
    }
}

/// The first cycle, that of the reset.
fn first_cycle(
    design: &mut Design,
    pins: Pins,
    memory: &Memory,
    device: &mut Box<dyn Device>,
) -> Watch
    requires ports { ArePorts memory.now design.old.tree.ports }
    requires pins { ArePins design.old.tree.ports pins }
    requires fitted { (told device.old).shape ≡ Some (memory_shape memory.now) }
    ensures kept { design.new ≡ with_registers design.old design.new.registers }
    ensures device { ((told device.new).room ≡ (told device.old).room) × ((told device.new).shape ≡ (told device.old).shape) }
    ensures low { result.rdata < 2 ^ memory.now.bits }
    ensures watched { FirstWatched design.old.tree memory.now design.old.registers design.new.registers
        (told device.old).tells (told device.new).tells result }
{
    let end = turn(design, pins, memory, device, 0, 0);
    let watch = Watch {
        rdata: 0,
        fail: false,
        done_cycle: None,
        first: None,
    };
    watched(watch, 0, None, end)
}

/// The cycles of a run, one after another.
fn run_cycles(
    design: &mut Design,
    pins: Pins,
    march: &March,
    memory: &Memory,
    device: &mut Box<dyn Device>,
    cycles: u32,
) -> Watch
    requires ports { ArePorts memory.now design.old.tree.ports }
    requires pins { ArePins design.old.tree.ports pins }
    requires fitted { (told device.old).shape ≡ Some (memory_shape memory.now) }
    requires some { 1 ≤ cycles }
    ensures kept { design.new ≡ with_registers design.old design.new.registers }
    ensures device { ((told device.new).room ≡ (told device.old).room) × ((told device.new).shape ≡ (told device.old).shape) }
    ensures stage { (control : State) × Stage design.old.tree march.now memory.now design.old.registers
        (told device.old).tells cycles design.new.registers result (told device.new).tells control }
{
    march.known();
    let code = assemble(march);
    let mut control = Control::reset(&code, memory);
    let mut watch = first_cycle(design, pins, memory, device);
    for cycle in 1..cycles {
        let expected = control.expected();
        control.step(watch.rdata);
        let end = turn(design, pins, memory, device, cycle, watch.rdata);
        watch = watched(watch, cycle, expected, end);
    }
    watch
}

fn is_fitted(device: &Box<dyn Device>) -> bool
    ensures { IsTold (told device.now).shape (told device.now).tells }
{
    device.fitted()
}

/// Runs a design against a box that is fitted with the memory's shape: the cycles from 0 to span + 1 + latency, in which a self-test is
/// done (the last answer stands on `rdata`, and is compared, a cycle earlier at the latest), with `reset` at 1 in cycle 0 alone and the
/// word 0 on `rdata` there. In each cycle the design's command goes to the box once, and the low bits of its answer are the next `rdata`.
/// Takes no memory.
///
/// Refused with B1 where the run takes more than 2,000,000 cycles, and then with B2 where the ports aren't those of a self-test; then the
/// box wasn't called, and the design is as before.
#[tactic(auto, using(crate::proofs::Refusing::not_both))]
pub fn bench(
    design: &mut Design,
    march: &March,
    memory: &Memory,
    device: Box<dyn Device>,
) -> Result<BenchEnd, BenchRefused>
    requires fitted { (told device).shape ≡ Some (memory_shape memory.now) }
    ensures accepted { IfOk result (λ _. Refuses march.now memory.now design.old.tree.ports None) }
    ensures ran { Refuses march.now memory.now design.old.tree.ports None → IsOk result }
    ensures runs { IfOk result (λ end. Runs design.old.tree march.now memory.now design.old.registers design.new.registers (told device).tells (told end.device).tells end.fail end.done_cycle end.first) }
    ensures self_test { IfOk result (λ end. SelfTest design.old.tree march.now memory.now
        → EndsSelfTest march.now memory.now (told device).tells end.fail end.done_cycle end.first) }
    ensures kept { IfOk result (λ _. design.new ≡ with_registers design.old design.new.registers) }
    ensures device { IfOk result (λ end. ((told end.device).room ≡ (told device).room) × ((told end.device).shape ≡ (told device).shape)) }
    ensures refused { IfErr result (λ refused. Refuses march.now memory.now design.old.tree.ports (Some refused.fault)) }
    ensures as_before { IfErr result (λ refused. (design.new ≡ design.old) × (told refused.device ≡ told device)) }
{
    let mut device = device;
    if let Some(fault) = refusal(design.ports(), march, memory) {
        return Err(BenchRefused { fault, device });
    }
    let _ = is_fitted(&device);
    let pins = pins_of(design.ports());
    let cycles = cycle_count(march, memory);
    let watch = run_cycles(design, pins, march, memory, &mut device, cycles as u32);
    Ok(BenchEnd {
        fail: watch.fail,
        done_cycle: watch.done_cycle,
        first: watch.first,
        device,
    })
}
