ghost use Rattle.std.specs.Prelude.{◌≡◌, ℕ, zero, suc, true, ◌+◌, ◌-◌, ◌<◌, ◌≤◌, ◌==◌, ◌&&◌, not, if◌then◌else◌, List, length, replicate};
ghost use Rattle.scrambler.specs.Scrambling.{logical};
ghost use Rattle.march_core.specs.March.{MarchElement, IsMarch};
ghost use Rattle.memory_desc.specs.Descriptions.{Description, IsMemory};
ghost use Rattle.controller.specs.Machine.{blank, compared};
ghost use Rattle.microcode.specs.Code.{assemble, IsCode};
ghost use Rattle.controller.specs.Running.{IsAt, IsSomewhere};
ghost use Rattle.word_march.specs.PortRule.{PortRule};
ghost use Rattle.controller.specs.inner.States.{IsTurned, stage_from};
ghost use Rattle.controller.specs.States.{StandsIn, values, IsExpected};

use crate::place::{extent_of, word_at};
use crate::stage::{Stage, push_stage};
use arrayvec::ArrayVec;
use memory_desc::Memory;
use microcode::{CodePlace, FIRST, Instr, Program, instr_at, place_behind};
use std::marker::Model;

/// The values of the outputs in a cycle. `addr` is the logical address and `wdata` the word as it stands at the port; both
/// mean something in a cycle with `en` alone, and `wdata` in that of a write.
#[derive(Clone, Copy)]
pub struct Ports {
    pub en: bool,
    pub we: bool,
    pub addr: u32,
    pub wdata: u64,
    pub done: bool,
    pub fail: bool,
}

/// The controller of the self-test, over the code of a march.
#[derive(Drop)]
pub struct Control<'a> {
    code: &'a [Instr],
    memory: &'a Memory,
    place: CodePlace,
    run: bool,
    stages: ArrayVec<Stage, 4>,
    reads: bool,
    over: bool,
    want: u64,
    bad: bool,
}

impl<'a> Model for Control<'a> {
    ghost use Rattle.controller.specs.States.{State, IsControl};

    ghost Value = { State };

    ghost view = { λ c. record { code = c.code.now; memory = c.memory.now; place = c.place; run = c.run; stages = c.stages.items; reads = c.reads; over = c.over; want = c.want; bad = c.bad } };

    ghost invariant = { λ c. IsControl (record { code = c.code.now; memory = c.memory.now; place = c.place; run = c.run; stages = c.stages.items; reads = c.reads; over = c.over; want = c.want; bad = c.bad }) };
}

impl<'a> Control<'a> {
    /// The controller of cycle 1.
    pub fn reset(code: &'a Program, memory: &'a Memory) -> Control<'a>
        requires { IsCode code.now.items }
        ensures { (march : List MarchElement) (returned : ℕ → ℕ) → IsMarch march → code.now.items ≡ assemble march
            → StandsIn march memory.now result returned 0 }
    {
        Control {
            code: code.as_slice(),
            memory,
            place: FIRST,
            run: true,
            stages: blank_stages(memory.latency()),
            reads: false,
            over: false,
            want: 0,
            bad: false,
        }
    }

    /// The outputs in this cycle.
    pub fn outputs(&self) -> Ports
        ensures { (march : List MarchElement) (d : Description) (returned : ℕ → ℕ) (k : ℕ) → StandsIn march d self.now returned k
            → PortRule march d returned (suc k) (values result) }
    {
        let instr = instr_at(self.code, self.place);
        let wdata = word_at(self.memory, self.place.back, instr.bit);
        let live = is_live(self.run, instr.pause);
        Ports {
            en: live,
            we: instr.write,
            addr: address(self.memory, live, instr.down, self.place.visit),
            wdata,
            done: self.over,
            fail: self.bad,
        }
    }

    /// The word that the read expects whose answer stands on `rdata` in this cycle; none where no read is answered.
    pub fn expected(&self) -> Option<u64>
        ensures { (march : List MarchElement) (d : Description) (returned : ℕ → ℕ) (k : ℕ) → StandsIn march d self.now returned k
            → IsExpected march d (suc k) result }
    {
        self.memory.known();
        if self.reads { Some(self.want) } else { None }
    }

    /// One cycle, with the word on `rdata`.
    pub fn step(&mut self, rdata: u64)
        ensures { (march : List MarchElement) (d : Description) (returned : ℕ → ℕ) (k : ℕ) → returned (suc k) ≡ rdata → StandsIn march d self.old returned k
            → StandsIn march d self.new returned (suc k) }
    {
        let instr = instr_at(self.code, self.place);
        let entering = stage_of(instr, self.run, self.place.back);
        let turned = turn(self.code, self.memory, self.place, self.run);
        let leaving = push_stage(&mut self.stages, entering);
        self.bad = compare(self.reads, rdata, self.want, self.bad);
        self.reads = leaving.reads;
        self.over = leaving.over;
        self.want = word_at(self.memory, leaving.back, leaving.value);
        self.place = turned.place;
        self.run = turned.run;
    }
}

/// A pipe of stages in which nothing was read.
fn blank_stages(latency: u8) -> ArrayVec<Stage, 4>
    requires { (1 ≤ latency) × (latency ≤ 4) }
    ensures { result.items ≡ replicate (latency - 1) blank }
{
    let mut stages = ArrayVec::new();
    for _stage in 0..latency - 1 {
        stages.push(Stage {
            reads: false,
            over: false,
            value: false,
            back: 0,
        });
    }
    stages
}

/// What a cycle leaves for the comparison.
fn stage_of(instr: Instr, run: bool, back: usize) -> Stage
    ensures { result ≡ stage_from instr run back }
{
    Stage {
        reads: run && !instr.pause && !instr.write,
        over: !run,
        value: instr.bit,
        back,
    }
}

/// Whether the memory is enabled.
fn is_live(run: bool, pause: bool) -> bool
    ensures { result ≡ (run && not pause) }
{
    run && !pause
}

/// The address of a visit; 0 where the memory isn't enabled.
fn address(memory: &Memory, live: bool, down: bool, visit: u32) -> u32
    requires { live ≡ true → visit < memory.now.words }
    ensures { result ≡ (if live then logical memory.now.scramble (if down then memory.now.words - 1 - visit else visit) else 0) }
{
    let words = memory.words();
    if !live {
        return 0;
    }
    let index = if down { words - 1 - visit } else { visit };
    memory.scramble().logical_of(index)
}

/// Whether some answer was wrong, with the one on `rdata` if a read waits for it.
fn compare(reads: bool, rdata: u64, want: u64, bad: bool) -> bool
    ensures { result ≡ compared reads (rdata == want) bad }
{
    if reads && rdata != want {
        return true;
    }
    bad
}

/// Where a controller stands a cycle later, and whether the run goes on.
#[derive(Clone, Copy)]
struct Turned {
    place: CodePlace,
    run: bool,
}

fn turn(code: &[Instr], memory: &Memory, place: CodePlace, run: bool) -> Turned
    requires { IsSomewhere code.now memory.now place }
    ensures turned { (march : List MarchElement) → IsAt march code.now memory.now place
        → IsTurned march code.now memory.now place run result.place result.run }
    ensures memory { IsMemory memory.now }
{
    memory.known();
    if !run {
        return Turned { place, run: false };
    }
    match place_behind(code, extent_of(memory), place) {
        Some(place) => Turned { place, run: true },
        None => Turned {
            place: FIRST,
            run: false,
        },
    }
}
