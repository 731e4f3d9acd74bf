ghost use Rattle.std.specs.Prelude.{◌≡◌, ◌<◌, length};
ghost use Rattle.memory_desc.specs.Descriptions.{IsMemory};
ghost use Rattle.controller.specs.Places.{extent_of, word_at};

use backgrounds::word_of;
use memory_desc::Memory;
use microcode::Extent;

/// How often the parts of a march are gone through on a memory.
pub fn extent_of(memory: &Memory) -> Extent
    ensures extent { result ≡ extent_of memory.now }
    ensures memory { IsMemory memory.now }
{
    Extent {
        words: memory.words(),
        pause: memory.pause(),
        runs: memory.backgrounds().len(),
    }
}

/// The word of a data value at the port, in a background by its number.
pub fn word_at(memory: &Memory, back: usize, value: bool) -> u64
    requires { back < length memory.now.backgrounds }
    ensures word { result ≡ word_at memory.now back value }
    ensures memory { IsMemory memory.now }
{
    let background = memory.backgrounds()[back];
    word_of(background, value, memory.bits()) ^ memory.polarity()
}
