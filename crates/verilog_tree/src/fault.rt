//! What a text and what a module is refused for.

ghost use Rattle.std.specs.Prelude.{◌≡◌};

use crate::tree::Name;
use bist_bits::NoMemory;

/// Why a text is refused. The first byte at which one of L1, L3, L4 and L5 stands decides.
#[derive(Clone, Copy)]
pub enum ReadFault {
    /// L1: with this byte no text of the grammar begins so.
    Unexpected { byte: usize },
    /// L2: the text ends too early.
    Truncated,
    /// L3: the opening that begins at this byte makes 65 open at once, or the operator that begins there is the
    /// 257th of an expression that stands in no other.
    TooDeep { byte: usize },
    /// L4: this is the 65th byte of an identifier.
    LongName { byte: usize },
    /// L5: at this byte a number in brackets exceeds 63, the size of a literal 64, or its value what its size
    /// holds; or it is the `'` after a size of 0.
    OutOfRange { byte: usize },
    /// There was no memory.
    NoMemory,
}

/// A rule that a module breaks, or that there was no memory.
#[derive(Drop)]
pub enum TreeFault {
    /// N1: a name is neither a port nor declared in an earlier item.
    Unknown { name: Name },
    /// N2: a name is declared twice, or a wire or plain output has a second `assign`.
    Twice { name: Name },
    /// N3: two widths that must be equal differ, left and then right, or a concatenation is wider
    /// than 64, told as 64 and its width.
    Width { left: u64, right: u64 },
    /// N4: an `always` block sets a register that an earlier block sets.
    TwoBlocks { name: Name },
    /// N5: `assign` names an input or a register, or `<=` names something that isn't a register.
    NotAssignable { name: Name },
    /// N6: a select has its high place not below the width of its name, or its low place above its
    /// high one, or stands on a name of one bit.
    SelectRange { name: Name },
    /// N7: each of these names has an expression that uses the next, and the last uses the first.
    Loop { names: Vec<Name> },
    /// There was no memory.
    NoMemory,
    /// N9: no `assign` names this wire or plain output.
    Undriven { name: Name },
    /// N10: a clock isn't an input of one bit named `clk`, or `clk` stands in an expression, or is
    /// declared as anything but an input of one bit.
    Clock { name: Name },
}

impl From<NoMemory> for TreeFault {
    ghost use Rattle.verilog_tree.specs.declared.fault.TreeFault.TheVariants as T;

    ghost from_gives = { λ _ e. e ≡ T.NoMemory };

    fn from(_: NoMemory) -> TreeFault {
        TreeFault::NoMemory
    }
}
