ghost use Rattle.std.specs.Prelude.{◌≡◌, ◌<◌, ◌≤◌};
ghost use Rattle.memory_desc.specs.Descriptions.{IsMemory, assembled};

use arrayvec::{ArrayString, ArrayVec};
use scrambler::Scramble;
use std::marker::Model;

/// A memory: its name, its size, when it answers, which bits it stores inverted, how its addresses are scrambled, and the
/// backgrounds and the pauses of its test.
#[derive(Drop)]
pub struct Memory {
    pub(crate) name: ArrayString<48>,
    pub(crate) words: u32,
    pub(crate) bits: u8,
    /// How many cycles it takes to answer a read.
    pub(crate) latency: u8,
    pub(crate) polarity: u64,
    /// How many cycles a pause has.
    pub(crate) pause: u32,
    pub(crate) scramble: Scramble,
    pub(crate) backgrounds: ArrayVec<u64, 8>,
}

impl Model for Memory {
    ghost use Rattle.memory_desc.specs.Descriptions.{Description, IsMemory, assembled};

    ghost Value = { Description };

    ghost view = { λ m. assembled m.name.bytes m.words m.bits m.latency m.polarity m.pause m.scramble m.backgrounds.items };

    ghost invariant = { λ m. IsMemory (assembled m.name.bytes m.words m.bits m.latency m.polarity m.pause m.scramble m.backgrounds.items) };
}

impl Memory {
    /// The memory's name: a simple identifier of Verilog of at most 48 bytes.
    pub fn name(&self) -> &str
        ensures { result.now ≡ self.now.name }
    {
        self.name.as_str()
    }

    /// How many words it has: 2 to 65,536.
    pub fn words(&self) -> u32
        ensures value { result ≡ self.now.words }
        ensures memory { IsMemory self.now }
    {
        self.words
    }

    /// Recalls to the prover what holds of every memory. It does nothing.
    pub fn known(&self)
        ensures { IsMemory self.now }
    {
        let _words = self.words;
    }

    /// How many bits a word has: 1 to 64.
    pub fn bits(&self) -> u8
        ensures value { result ≡ self.now.bits }
        ensures memory { IsMemory self.now }
    {
        self.bits
    }

    /// How many cycles after a read its answer stands on the port: 1 to 4.
    pub fn latency(&self) -> u8
        ensures value { result ≡ self.now.latency }
        ensures memory { IsMemory self.now }
    {
        self.latency
    }

    /// The bits of a word that it stores inverted.
    pub fn polarity(&self) -> u64
        ensures value { result ≡ self.now.polarity }
        ensures memory { IsMemory self.now }
    {
        self.polarity
    }

    /// How many cycles a pause of its test has: 1 to 65,535.
    pub fn pause(&self) -> u32
        ensures value { result ≡ self.now.pause }
        ensures memory { IsMemory self.now }
    {
        self.pause
    }

    /// How many bits an address has: 1 to 16.
    pub fn address_bits(&self) -> u8
        ensures value { result ≡ self.now.scramble.width }
        ensures bounds { (1 ≤ result) × (result ≤ 16) }
        ensures memory { IsMemory self.now }
    {
        self.scramble.width()
    }

    /// How the physical index of a word becomes its address.
    pub fn scramble(&self) -> &Scramble
        ensures { result.now ≡ self.now.scramble }
    {
        &self.scramble
    }

    /// The backgrounds of its test, 1 to 8 of them, in their order.
    pub fn backgrounds(&self) -> &[u64]
        ensures value { result.now ≡ self.now.backgrounds }
        ensures memory { IsMemory self.now }
    {
        self.backgrounds.as_slice()
    }
}
