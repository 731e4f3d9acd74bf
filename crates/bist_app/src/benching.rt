//! A module against a box, and the line that tells how the run ended. The self-test module is made, written and read back before.

ghost use Rattle.std.specs.Prelude.{◌≡◌, ◌≤◌, ◌<◌, ◌++◌, ◌∷◌, [], Some, None, true, IsTrue, IfOk, IfErr, OnOk, map, vec_len};
ghost use Rattle.verilog_tree.specs.declared.fault.TreeFault.{TreeFault};
ghost use Rattle.verilog_tree.specs.Plain.{ModuleTree, plain_module};
ghost use Rattle.verilog_tree.specs.Rules.{first_break};
ghost use Rattle.verilog_tree.specs.Formed.{formed};
ghost use Rattle.verilog_tree.specs.Spells.{Spells};
ghost use Rattle.verilog_tree.specs.declared.fault.ReadFault.{ReadFault};
ghost use Rattle.verilog_cycle.specs.Design.{IsNew, NoLoop, registers_of};
ghost use Rattle.self_test.specs.SelfTest.{SelfTest};
ghost use Rattle.word_device.specs.Ports.{shape_of as memory_shape};
ghost use Rattle.bench.specs.Laws.{EndsSelfTest};
ghost use Rattle.bist_endings.specs.Ending.{done_of, plain};
ghost use Rattle.self_test.specs.Refusals.{IsShort};
ghost use Rattle.self_test.specs.WrongPort.{wrong_port};
ghost use Rattle.bist_app.specs.Shared.{LeavesFirst};
ghost use Rattle.bist_app.specs.Bench.{seen_text, bench_line, benched_done, ready, IsBenched};
ghost use Rattle.bist_app.specs.BenchFile.{zero_registers};
ghost use Rattle.bist_app.specs.inner.RunsBeside.{FirstHasRoom, AreWords, CanPlant, RunsBeside};
ghost use Rattle.bist_app.specs.inner.BenchedBoxes.{EndsRun};

use crate::boxes::take_fitted;
use crate::compile::module_text;
use bench::{BenchEnd, Seen, bench};
use bist_bits::NoMemory;
use bist_endings::{Effects, Refusal};
use bist_text::{put, put_decimal, put_number_between, put_word};
use march_core::March;
use memory_desc::Memory;
use std::alloc::Global;
use verilog_cycle::{Design, elaborate};
use verilog_read::read_module;
use verilog_tree::{Module, ReadFault, TreeFault};
use word_device::{Device, Planted};

/// What is wanting where a text that spells a module isn't read: nothing but memory.
fn want_of_text(fault: ReadFault) -> NoMemory
    requires { fault ≡ ReadFault.NoMemory }
{
    match fault {
        ReadFault::NoMemory => NoMemory,
        _ => unreachable!(),
    }
}

/// The module that a text spells.
fn read_back(alloc: Global, text: &[u8]) -> Result<Module, NoMemory>
    requires { (mo : ModuleTree) × Spells text.now mo }
    ensures spells { IfOk result (λ m. Spells text.now (plain_module m)) }
    ensures sizes { IfOk result (λ m. formed (plain_module m) ≡ true) }
{
    match read_module(alloc, text) {
        Ok(module) => Ok(module),
        Err(fault) => Err(want_of_text(fault)),
    }
}

/// What is wanting where a module that can be run isn't: nothing but memory.
fn want_of_module(fault: TreeFault) -> NoMemory
    requires { fault ≡ TreeFault.NoMemory }
{
    match fault {
        TreeFault::NoMemory => NoMemory,
        _ => unreachable!(),
    }
}

/// The design of a module that breaks no rule and whose wires form no loop.
fn designed(alloc: Global, module: Module) -> Result<Design, NoMemory>
    requires sizes { IsTrue (formed (plain_module «module»)) }
    requires legal { first_break (plain_module «module») ≡ None }
    requires loopless { NoLoop (plain_module «module») }
    ensures { IfOk result (IsNew (plain_module «module»)) }
{
    match elaborate(alloc, module) {
        Ok(design) => Ok(design),
        Err(fault) => Err(want_of_module(fault)),
    }
}

/// The self-test of the memory by the march as a design, from its written text.
pub fn self_test_design(alloc: Global, march: &March, memory: &Memory) -> Result<Design, NoMemory>
    ensures test { IfOk result (λ design. SelfTest design.tree march.now memory.now) }
    ensures zero { IfOk result (λ design. design.registers ≡ map (λ _. 0) (registers_of design.tree)) }
{
    let text = module_text(alloc, march, memory)?;
    let read = read_back(alloc, &text)?;
    designed(alloc, read)
}

/// Appends the first read that was answered wrong, if one was.
fn put_seen(line: &mut Vec<u8>, bits: u8, seen: Option<Seen>) -> Result<(), NoMemory>
    requires bits { bits ≤ 64 }
    requires fits { AreWords bits seen }
    ensures { OnOk result (line.new.items ≡ line.old.items ++ seen_text bits seen) }
{
    match seen {
        Some(seen) => {
            put_number_between(line, b" cycle ", u64::from(seen.cycle), b" expected ")?;
            put_word(line, bits, seen.expected)?;
            put(line, b" returned ")?;
            put_word(line, bits, seen.returned)
        }
        None => Ok(()),
    }
}

/// Appends the line that tells how a run ended.
fn put_end(line: &mut Vec<u8>, bits: u8, end: RunEnd) -> Result<(), NoMemory>
    requires bits { bits ≤ 64 }
    requires fits { AreWords bits end.first }
    ensures { OnOk result (line.new.items ≡ line.old.items ++ bench_line bits end.fail end.done_cycle end.first) }
{
    put(
        line,
        if end.fail {
            b"fail 1 done "
        } else {
            b"fail 0 done "
        },
    )?;
    match end.done_cycle {
        Some(cycle) => put_decimal(line, u64::from(cycle))?,
        None => put(line, b"none")?,
    }
    put_seen(line, bits, end.first)?;
    put(line, b"\n")
}

/// The plan of a run that ended so.
fn end_plan(alloc: Global, bits: u8, end: RunEnd) -> Result<Effects, NoMemory>
    requires bits { bits ≤ 64 }
    requires fits { AreWords bits end.first }
    ensures { IfOk result (λ plan. done_of plan ≡ benched_done bits end.fail end.done_cycle end.first) }
{
    let mut line = Vec::new(alloc);
    put_end(&mut line, bits, end)?;
    Ok(Effects {
        found: end.fail,
        outputs: Vec::new(alloc),
        line,
    })
}

/// How a run beside a box ended.
#[derive(Clone, Copy)]
pub struct RunEnd {
    pub fail: bool,
    pub done_cycle: Option<u32>,
    pub first: Option<Seen>,
}

/// Runs a design with the ports of a self-test against a box that is fitted, which is gone then.
pub fn run_design(
    design: &mut Design,
    march: &March,
    memory: &Memory,
    device: Box<dyn Device>,
) -> RunEnd
    requires short { IsShort march.now memory.now }
    requires ports { wrong_port memory.now design.old.tree.ports ≡ None }
    requires fitted { (told device).shape ≡ Some (memory_shape memory.now) }
    ensures runs { EndsRun design.old.tree march.now memory.now design.old.registers (told device).tells result }
    ensures test { SelfTest design.old.tree march.now memory.now
        → EndsSelfTest march.now memory.now (told device).tells result.fail result.done_cycle result.first }
    ensures kept { design.new.tree ≡ design.old.tree }
{
    match bench(design, march, memory, device) {
        Ok(
            BenchEnd {
                fail,
                done_cycle,
                first,
                device,
            },
        ) => {
            drop(device);
            RunEnd {
                fail,
                done_cycle,
                first,
            }
        }
        Err(_) => unreachable!(),
    }
}

/// Runs a design from registers 0 against the first box, which is fitted, planted and taken.
pub fn run_beside(
    alloc: Global,
    design: &mut Design,
    march: &March,
    memory: &Memory,
    planted: &Option<Planted>,
    devices: &mut Vec<Box<dyn Device>>,
) -> Result<Effects, Refusal>
    requires zero { design.old.registers ≡ zero_registers design.old.tree }
    requires short { IsShort march.now memory.now }
    requires ports { wrong_port memory.now design.old.tree.ports ≡ None }
    requires some { 0 < vec_len devices.old }
    requires room { FirstHasRoom memory.now.words (map (λ b. told b) devices.old.items) }
    requires fits { CanPlant memory.now planted.now }
    ensures wants { IfErr result (λ refusal. refusal ≡ Refusal.NoMemory) }
    ensures run { IfOk result (λ plan. (b : _) (rest : _) → devices.old.items ≡ b ∷ rest
        → RunsBeside design.old.tree march.now memory.now (ready memory.now planted.now (told b).tells)
        (done_of plan)) }
    ensures outputs { IfOk result (λ plan. (done_of plan).outputs ≡ []) }
    ensures left { LeavesFirst (map (λ b. told b) devices.old.items) (map (λ b. told b) devices.new.items) (plain result) }
{
    let device = take_fitted(devices, memory, planted)?;
    let bits = memory.bits();
    let end = run_design(design, march, memory, device);
    let plan = end_plan(alloc, bits, end)?;
    Ok(plan)
}

/// Runs the self-test of the memory by the march against the first box, which is fitted, planted and taken.
pub fn test_beside(
    alloc: Global,
    march: &March,
    memory: &Memory,
    planted: &Option<Planted>,
    devices: &mut Vec<Box<dyn Device>>,
) -> Result<Effects, Refusal>
    requires short { IsShort march.now memory.now }
    requires some { 0 < vec_len devices.old }
    requires room { FirstHasRoom memory.now.words (map (λ b. told b) devices.old.items) }
    requires fits { CanPlant memory.now planted.now }
    ensures wants { IfErr result (λ refusal. refusal ≡ Refusal.NoMemory) }
    ensures benched { IfOk result (λ plan. (b : _) (rest : _) → devices.old.items ≡ b ∷ rest
        → IsBenched march.now memory.now planted.now (told b).tells (done_of plan)) }
    ensures outputs { IfOk result (λ plan. (done_of plan).outputs ≡ []) }
    ensures left { LeavesFirst (map (λ b. told b) devices.old.items) (map (λ b. told b) devices.new.items) (plain result) }
{
    let mut design = self_test_design(alloc, march, memory)?;
    let plan = run_beside(alloc, &mut design, march, memory, planted, devices);
    drop(design);
    plan
}
