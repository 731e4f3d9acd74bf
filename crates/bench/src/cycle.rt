//! One cycle of a design and a box.

ghost use Rattle.std.specs.Prelude.{◌≡◌, ◌<◌, ◌≤◌, ◌%◌, ◌^◌, ◌==◌, IsSome, Some, List, ℕ, length};
ghost use Rattle.verilog_cycle.specs.Design.{Cycle, Fit, inputs_of, outputs_of, with_registers};
ghost use Rattle.self_test.specs.Pins.{ArePins};
ghost use Rattle.self_test.specs.WrongPort.{ArePorts};
ghost use Rattle.word_device.specs.Ports.{shape_of as memory_shape};
ghost use Rattle.word_device.specs.Boxes.{Answers, after_cycle};
ghost use Rattle.bench.specs.inner.Cycles.{AreWithin, Turned, input_values, outputs_at};

use bist_bits::all_ones;
use memory_desc::Memory;
use self_test::Pins;
use verilog_cycle::Design;
use word_device::{Device, PortCmd};

/// An address that the box takes is below this.
const ADDRESSES: u64 = 4_294_967_296;

/// The outputs of a cycle.
#[derive(Clone, Copy)]
pub struct Outputs {
    pub cmd: PortCmd,
    pub done: bool,
    pub fail: bool,
}

/// What a cycle leaves for the next, and shows.
#[derive(Clone, Copy)]
pub struct CycleEnd {
    /// The word on `rdata` in the next cycle.
    pub rdata: u64,
    pub done: bool,
    pub fail: bool,
}

fn inputs(pins: Pins, reset: bool, rdata: u64) -> [u64; 2]
    ensures { result ≡ input_values pins.reset_first reset rdata }
{
    let reset = u64::from(reset);
    if pins.reset_first {
        [reset, rdata]
    } else {
        [rdata, reset]
    }
}

fn read_outputs(values: &[u64], pins: Pins) -> Outputs
    requires { AreWithin pins (length values.now) }
    ensures { result ≡ outputs_at values.now pins }
{
    Outputs {
        cmd: PortCmd {
            en: values[pins.en] == 1,
            we: values[pins.we] == 1,
            addr: (values[pins.addr] % ADDRESSES) as u32,
            wdata: values[pins.wdata],
        },
        done: values[pins.done] == 1,
        fail: values[pins.fail] == 1,
    }
}

/// One cycle of the design.
fn clock(design: &mut Design, pins: Pins, reset: bool, rdata: u64) -> Outputs
    requires fit { Fit (inputs_of design.old.tree) (input_values pins.reset_first reset rdata) }
    requires within { AreWithin pins (length (outputs_of design.old.tree)) }
    ensures kept { design.new ≡ with_registers design.old design.new.registers }
    ensures cycle { (outs : List ℕ) × Cycle design.old.tree design.old.registers
        (input_values pins.reset_first reset rdata) outs design.new.registers × (result ≡ outputs_at outs pins) }
{
    let inputs = inputs(pins, reset, rdata);
    let values = design.clock(&inputs);
    read_outputs(values, pins)
}

/// One cycle of the box.
fn cycle_box(device: &mut Box<dyn Device>, cmd: &PortCmd) -> u64
    requires { IsSome (told device.old).shape }
    ensures new { told device.new ≡ record
        (told device.old) { tells = after_cycle (told device.old).shape cmd.now (told device.old).tells } }
    ensures answer { Answers (told device.old).shape cmd.now (told device.old).tells result }
{
    device.cycle(cmd)
}

/// The low `bits` bits of a word.
#[tactic(auto, using(std::proofs::lemmas::Nat::and_mask))]
fn low_bits(word: u64, bits: u8) -> u64
    requires { (1 ≤ bits) × (bits ≤ 64) }
    ensures value { result ≡ word % 2 ^ bits }
    ensures low { result < 2 ^ bits }
{
    word & all_ones(bits)
}

/// One cycle of the design and the box, with this word on `rdata`.
#[tactic(auto, using(crate::proofs::Inputs::given, crate::proofs::Outputs::within, crate::proofs::Outputs::shown))]
pub fn turn(
    design: &mut Design,
    pins: Pins,
    memory: &Memory,
    device: &mut Box<dyn Device>,
    cycle: u32,
    rdata: u64,
) -> CycleEnd
    requires ports { ArePorts memory.now design.old.tree.ports }
    requires pins { ArePins design.old.tree.ports pins }
    requires word { rdata < 2 ^ memory.now.bits }
    requires fitted { (told device.old).shape ≡ Some (memory_shape memory.now) }
    ensures kept { design.new ≡ with_registers design.old design.new.registers }
    ensures device { ((told device.new).room ≡ (told device.old).room) × ((told device.new).shape ≡ (told device.old).shape) }
    ensures low { result.rdata < 2 ^ memory.now.bits }
    ensures turned { Turned design.old.tree memory.now cycle design.old.registers design.new.registers rdata result.rdata (told device.old).tells (told device.new).tells result.done result.fail }
{
    let outputs = clock(design, pins, cycle == 0, rdata);
    let answer = cycle_box(device, &outputs.cmd);
    CycleEnd {
        rdata: low_bits(answer, memory.bits()),
        done: outputs.done,
        fail: outputs.fail,
    }
}
