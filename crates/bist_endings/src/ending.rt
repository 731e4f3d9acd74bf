ghost use Rattle.std.specs.Prelude.{◌≡◌};

use bist_bits::NoMemory;
use chip_desc::ChipFault;
use fault_syntax::FaultFault;
use march_core::MarchFault;
use memory_desc::MemoryFault;
use verilog_tree::{Name, ReadFault, TreeFault};

/// What the program ends with.
#[derive(Clone, Copy)]
pub struct Ended {
    pub status: u8,
}

/// What doesn't fit together.
#[derive(Clone, Copy)]
pub enum Misfit {
    /// An aggressor is given for a primitive of one cell, or none for one of two cells.
    Aggressor,
    /// The directions aren't one per element, as its order allows.
    Directions,
}

/// Why the first box isn't taken.
#[derive(Clone, Copy)]
pub enum DeviceRefusal {
    /// V1: it has room for fewer words than the memory has.
    TooSmall { words: u32, room: u32 },
    /// V2: a place is outside the memory, or both are in one word.
    BadPlace,
    /// V4: there is no box.
    NoBox,
}

/// Why the text of a module gives none that can be run beside a memory. Want of memory is a refusal of its own.
#[derive(Drop)]
pub enum VerilogRefusal {
    /// L1 to L5: it is the text of no module.
    Read(ReadFault),
    /// N1 to N7, N9 and N10: the module breaks a rule, or its wires form a loop.
    Tree(TreeFault),
    /// B2: this port is missing, goes another way or has another width; or else it is one too many.
    WrongPort { name: Name },
}

/// Why a chip isn't tested.
#[derive(Clone, Copy)]
pub enum ChipRefusal {
    /// C1 to C7 and C9: the file describes no chip.
    File(ChipFault),
    /// C8: the memory of this unit has the name of an earlier one, or its module that of the chip.
    SameName { unit: usize },
}

/// Why an input is refused. A position is that of what names its file.
#[derive(Clone, Copy)]
pub enum InputRefusal {
    March(MarchFault),
    Memory(MemoryFault),
    TooLarge { position: usize },
    ReadFailed { position: usize },
    Absent { position: usize },
}

/// Why a command is refused. A position is that of a file's word, the command itself being 0.
#[derive(Drop)]
pub enum Refusal {
    /// The words have no command's shape.
    Usage,
    /// The file is no text of an accepted march.
    March(MarchFault),
    /// The file is no description of a memory.
    Memory(MemoryFault),
    /// The text is no fault primitive or no fault list.
    Fault(FaultFault),
    TooLarge { position: usize },
    ReadFailed { position: usize },
    Absent { position: usize },
    Misfit(Misfit),
    Device(DeviceRefusal),
    /// The test takes this many cycles, which is too many.
    TooLong { cycles: u64 },
    /// The file is no module that can be run beside the memory.
    Verilog(VerilogRefusal),
    Chip(ChipRefusal),
    /// An input of this unit of a chip is refused. The name of the march has position 1, and that of the memory 2.
    Unit { unit: usize, refusal: InputRefusal },
    NoMemory,
}

impl From<NoMemory> for Refusal {
    ghost use Rattle.bist_endings.specs.declared.ending.Refusal.TheVariants as R;

    ghost from_gives = { λ _ e. e ≡ R.NoMemory };

    fn from(_: NoMemory) -> Refusal {
        Refusal::NoMemory
    }
}

/// Bytes for the file that a word names.
#[derive(Drop)]
pub struct Output {
    pub position: usize,
    pub bytes: Vec<u8>,
}

/// What a command that isn't refused leaves: the files to write, and then the line to say. `found` tells whether
/// its status is 1.
#[derive(Drop)]
pub struct Effects {
    pub found: bool,
    pub outputs: Vec<Output>,
    pub line: Vec<u8>,
}
