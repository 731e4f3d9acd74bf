ghost use Rattle.std.specs.Prelude.{◌≡◌, map};
ghost use Rattle.chip_desc.specs.Chips.{IsChip, unit_of};

use arrayvec::{ArrayString, ArrayVec};
use std::marker::Model;

/// A memory of a chip.
#[derive(Clone, Copy, Default)]
pub struct ChipUnit {
    /// What its test weighs against the budget.
    pub weight: u32,
    /// The name of the file of the march that tests it.
    pub march: ArrayString<255>,
    /// The name of the file of its description.
    pub memory: ArrayString<255>,
}

/// A chip: its name, the budget of its tests, and its memories. It has some nine kilobytes.
#[derive(Drop)]
pub struct ChipDesc {
    pub(crate) name: ArrayString<48>,
    pub(crate) budget: u32,
    pub(crate) units: ArrayVec<ChipUnit, 16>,
}

impl Model for ChipDesc {
    ghost use Rattle.chip_desc.specs.Chips.{ChipDescription, IsChip, described_as};

    ghost Value = { ChipDescription };

    ghost view = { λ c. described_as c.name.bytes c.budget c.units.items };

    ghost invariant = { λ c. IsChip (described_as c.name.bytes c.budget c.units.items) };
}

impl ChipDesc {
    /// The chip's name: a simple identifier of Verilog of at most 48 bytes.
    pub fn name(&self) -> &str
        ensures value { result.now ≡ self.now.name }
        ensures chip { IsChip self.now }
    {
        self.name.as_str()
    }

    /// The most that the tests that run at once may weigh together: 1 to 1,000,000.
    pub fn budget(&self) -> u32
        ensures value { result ≡ self.now.budget }
        ensures chip { IsChip self.now }
    {
        self.budget
    }

    /// Recalls to the prover what holds of every chip. It does nothing.
    pub fn known(&self)
        ensures { IsChip self.now }
    {
        let _budget = self.budget;
    }

    /// Its memories, 1 to 16, in the order of their lines.
    pub fn units(&self) -> &[ChipUnit]
        ensures value { map unit_of result.now ≡ self.now.units }
        ensures chip { IsChip self.now }
    {
        self.units.as_slice()
    }
}
