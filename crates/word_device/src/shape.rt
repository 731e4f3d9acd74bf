ghost use Rattle.std.specs.Prelude.{◌≡◌, ◌≤◌, ◌↔◌, Some, IsOk, IfErr, OnOk, OnErr};
ghost use Rattle.word_device.specs.Ports.{shape_of};
ghost use Rattle.word_device.specs.Boxes.{IsShape};

use crate::device::DeviceFault;
use memory_desc::Memory;
use scrambler::Scramble;

/// The shape of a memory.
#[derive(Drop)]
pub struct Shape {
    /// How many words it has: 2 to 65,536.
    pub words: u32,
    /// How many bits a word has: 1 to 64.
    pub bits: u8,
    /// How the physical index of a word becomes its address.
    pub scramble: Scramble,
    /// How many cycles after a read its answer stands on the port: 1 to 4.
    pub latency: u8,
    /// The bits of a word that are stored inverted.
    pub polarity: u64,
    /// How many cycles a pause has: 1 to 65,535.
    pub pause: u32,
}

impl Shape {
    /// The same shape once more.
    pub(crate) fn duplicate(&self) -> Shape
        ensures { result ≡ self.now }
    {
        Shape {
            words: self.words,
            bits: self.bits,
            scramble: self.scramble.duplicate(),
            latency: self.latency,
            polarity: self.polarity,
            pause: self.pause,
        }
    }
}

/// The shape of a memory that is described.
pub fn shape_of(memory: &Memory) -> Shape
    ensures value { result ≡ shape_of memory.now }
    ensures shape { IsShape result }
{
    Shape {
        words: memory.words(),
        bits: memory.bits(),
        scramble: memory.scramble().duplicate(),
        latency: memory.latency(),
        polarity: memory.polarity(),
        pause: memory.pause(),
    }
}

/// Keeps the shape, where there is room for its words.
pub(crate) fn take_shape(
    kept: &mut Option<Shape>,
    room: u32,
    shape: &Shape,
) -> Result<(), DeviceFault>
    ensures fits { IsOk result ↔ (shape.now.words ≤ room) }
    ensures ok { OnOk result (kept.new ≡ Some shape.now) }
    ensures err { OnErr result (kept.new ≡ kept.old) }
    ensures too_big { IfErr result (λ fault. fault ≡ DeviceFault.TooBig) }
{
    if shape.words > room {
        return Err(DeviceFault::TooBig);
    }
    *kept = Some(shape.duplicate());
    Ok(())
}
