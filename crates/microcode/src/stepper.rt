ghost use Rattle.std.specs.Prelude.{◌≡◌, ◌≤◌, ◌<◌, ◌-◌, ◌∷◌, [], List, MatchOption, if◌then◌else◌};
ghost use Rattle.march_core.specs.March.{MarchElement, IsMarch};
ghost use Rattle.microcode.specs.Code.{assemble, IsCode};
ghost use Rattle.microcode.specs.Steps.{Step, steps, one_run, Leaves};

use crate::code::{Instr, Program};
use crate::place::{CodePlace, Extent, FIRST, instr_at, place_behind};
use std::marker::Model;

/// One run of a march on the words of a memory.
#[derive(Drop)]
pub struct Stepper<'a> {
    code: &'a [Instr],
    words: u32,
    place: Option<CodePlace>,
}

impl<'a> Model for Stepper<'a> {
    ghost use Rattle.microcode.specs.Steps.{Stepping, IsStepping};

    ghost Value = { Stepping };

    ghost view = { λ s. record { code = s.code.now; words = s.words; place = s.place } };

    ghost invariant = { λ s. IsStepping (record { code = s.code.now; words = s.words; place = s.place }) };
}

impl<'a> Stepper<'a> {
    /// All steps of the march whose code this is are left.
    pub fn new(code: &'a Program, words: u32) -> Stepper<'a>
        requires code { IsCode code.now.items }
        requires words { (2 ≤ words) × (words ≤ 65536) }
        ensures { (march : List MarchElement) → IsMarch march → code.now.items ≡ assemble march → Leaves march result (steps march words) }
    {
        Stepper {
            code: code.as_slice(),
            words,
            place: Some(FIRST),
        }
    }

    /// The next step: the index of a word, 0 in a pause, and the instruction; None behind the last.
    pub fn next(&mut self) -> Option<(u32, Instr)>
        ensures { (march : List MarchElement) (left : List Step) → Leaves march self.old left
            → MatchOption result ((left ≡ []) × (self.new ≡ self.old)) (λ s. (more : List Step) × (left ≡ (record { index = s.0; instr = s.1 }) ∷ more) × Leaves march self.new more) }
    {
        let place = self.place?;
        let instr = instr_at(self.code, place);
        let index = index_of(instr, self.words, place.visit);
        self.place = place_behind(self.code, one_run(self.words), place);
        Some((index, instr))
    }
}

fn one_run(words: u32) -> Extent
    ensures { result ≡ one_run words }
{
    Extent {
        words,
        pause: 1,
        runs: 1,
    }
}

/// The index of a visit.
fn index_of(instr: Instr, words: u32, visit: u32) -> u32
    requires { visit < words }
    ensures { result ≡ (if instr.pause then 0 else (if instr.down then words - 1 - visit else visit)) }
{
    if instr.pause {
        return 0;
    }
    if instr.down { words - 1 - visit } else { visit }
}
