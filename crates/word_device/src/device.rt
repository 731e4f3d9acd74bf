ghost use Rattle.std.specs.Prelude.{◌≡◌, ◌≢◌, ℕ, ◌<◌, ◌↔◌, Option, Some, IsTrue, IsSome, IsOk, IfErr, is_some, Err, OnOk, OnErr};
ghost use Rattle.fault_core.specs.Primitive.{has_aggressor};
ghost use Rattle.word_device.specs.Boxes.{Told, IsShape, IsTold, FitsBox, after_fit, after_plant, after_fill, after_cycle, Answers};

use crate::shape::Shape;
use fault_core::Prim;

/// A bit of a word, by the word's physical index.
#[derive(Clone, Copy)]
pub struct BitPlace {
    pub word: u32,
    pub bit: u8,
}

/// One instance of a primitive, and where its cells stand.
#[derive(Clone, Copy)]
pub struct Planted {
    pub prim: Prim,
    /// The aggressor's place, exactly for a primitive of two cells.
    pub agg: Option<BitPlace>,
    pub vic: BitPlace,
}

/// What stands at the port in a cycle.
#[derive(Clone, Copy)]
pub struct PortCmd {
    /// Whether the memory is enabled; else the cycle is idle.
    pub en: bool,
    /// Whether it writes; else it reads.
    pub we: bool,
    /// The logical address.
    pub addr: u32,
    /// The word to write.
    pub wdata: u64,
}

/// Why a box takes no shape or no instance.
#[derive(Clone, Copy, Debug, PartialEq, Eq)]
pub enum DeviceFault {
    /// V1: it has room for fewer words.
    TooBig,
    /// V2: a place is outside the shape, or both are in one word.
    BadPlace,
    /// V3: no memory was found.
    NoMemory,
}

/// A memory behind a port, in a box.
///
/// It tells its chip, or the script of its answers, or nothing; which of them never changes.
pub trait Device: Drop {
    /// How many words it has room for, its shape once it has one, and what it tells.
    ghost told: { Self → Told };

    /// How many words it has room for.
    fn room(&self) -> u32
        ensures { result ≡ (told self.now).room };

    /// Whether it has a shape.
    fn fitted(&self) -> bool
        ensures fitted { IsTrue result ↔ IsSome (told self.now).shape }
        ensures told { IsTold (told self.now).shape (told self.now).tells };

    /// Takes a shape: all words are 0, nothing is planted, the answers under way are 0, and no idle cycle is counted. A script goes on where
    /// it stands. Refused with V1 exactly where it has room for fewer words, and else with V3 where no memory is found. After a refusal the
    /// box is as before.
    fn fit(&mut self, shape: &Shape) -> Result<(), DeviceFault>
        requires { IsShape shape.now }
        ensures ok { OnOk result (told self.new
            ≡ record (told self.old) { shape = Some shape.now; tells = after_fit shape.now (told self.old).tells }) }
        ensures err { OnErr result (told self.new ≡ told self.old) }
        ensures too_big { result ≡ Err DeviceFault.TooBig ↔ ((told self.old).room < shape.now.words) }
        ensures places { IfErr result (λ fault. fault ≢ DeviceFault.BadPlace) };

    /// Plants an instance in place of an earlier one, and closes the words. Refused, with V2, exactly where the instance doesn't fit.
    fn plant(&mut self, planted: &Planted) -> Result<(), DeviceFault>
        requires fitted { IsSome (told self.old).shape }
        requires places { is_some planted.now.agg ≡ has_aggressor planted.now.prim }
        ensures ok { OnOk result (told self.new
            ≡ record (told self.old) { tells = after_plant planted.now (told self.old).tells }) }
        ensures err { OnErr result (told self.new ≡ told self.old) }
        ensures fits { IsOk result ↔ FitsBox (told self.old).shape planted.now }
        ensures bad_place { IfErr result (λ fault. fault ≡ DeviceFault.BadPlace) };

    /// Stores the words that a number stands for, and closes them: word k is the low bits of `x ^ (x >> 32)`, where x is the number times
    /// 2k + 1, modulo 2^64; so the number 0 stands for zeros. They are stored as they are, the polarity isn't applied. The answers under way
    /// and the count of idle cycles stay. A script starts over.
    fn fill(&mut self, number: u64)
        requires fitted { IsSome (told self.old).shape }
        ensures { told self.new
            ≡ record (told self.old) { tells = after_fill (told self.old).shape number (told self.old).tells } };

    /// Acts on the command, and answers the word that stands at the port in the next cycle.
    fn cycle(&mut self, cmd: &PortCmd) -> u64
        requires fitted { IsSome (told self.old).shape }
        ensures new { told self.new
            ≡ record (told self.old) { tells = after_cycle (told self.old).shape cmd.now (told self.old).tells } }
        ensures answer { Answers (told self.old).shape cmd.now (told self.old).tells result };
}
