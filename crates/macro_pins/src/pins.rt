//! The pins of a macro.

use arrayvec::{ArrayString, ArrayVec};

/// The name of a pin: a simple identifier of Verilog of at most 62 bytes, so that a net can be named after it.
pub type PinName = ArrayString<62>;

/// What an input of a macro is to its port.
#[derive(Clone, Copy, Default)]
pub enum PinKind {
    #[default]
    /// Every bit is on in a command.
    Enable,
    /// Every bit is on in a write, and off in a read.
    Write,
    /// On in a read, and off in a write and where there is no command.
    ReadAlone,
    /// On in a write, and off in a read and where there is no command.
    WriteAlone,
    /// The address, in the low bits; the others are off.
    Address,
    /// The word to write.
    Data,
    /// Every bit is on in a command: a bit for each part of a word.
    Mask,
    /// A further input, which the chip drives.
    Pass,
    /// A further input, which the chip drives, and which has one value in test.
    Fixed,
    /// A further input that has one value.
    Tie,
}

/// An input of a macro.
#[derive(Clone, Copy, Default)]
pub struct Pin {
    pub kind: PinKind,
    pub name: PinName,
    /// Whether 0 is on.
    pub low: bool,
    pub width: u8,
    /// The value of a pin that is fixed or tied.
    pub value: u64,
}

/// A further output of a macro, for the chip.
#[derive(Clone, Copy, Default)]
pub struct Output {
    pub name: PinName,
    pub width: u8,
}

/// A macro with a memory behind one port.
#[derive(Drop)]
pub struct Macro {
    /// The name of its module.
    pub name: PinName,
    /// Its clock.
    pub clk: PinName,
    /// The word that was read.
    pub rdata: PinName,
    pub pins: ArrayVec<Pin, 32>,
    /// Its further outputs.
    pub outputs: ArrayVec<Output, 8>,
    /// Further inputs that hang on the clock.
    pub clocks: ArrayVec<PinName, 8>,
    /// How many registers stand between the self-test and the macro.
    pub before: u8,
    /// How many registers stand between the macro and the self-test.
    pub after: u8,
}
