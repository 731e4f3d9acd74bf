ghost use Rattle.bench.specs.Laws.{PlantedFails, PlainPasses, AnyBox, SeenAlone, SeenScript};

use march_core::March;
use memory_desc::Memory;
use word_march::span;

/// A self-test beside a memory with a planted instance of a detected primitive ends with `fail`, whatever its registers and the memory
/// hold at first.
pub fn planted_fails(march: &March, memory: &Memory)
    ensures { PlantedFails march.now memory.now }
{
    march.known();
    memory.known();
}

/// Beside a sound memory it ends without `fail`, and no read differs.
pub fn plain_passes(march: &March, memory: &Memory)
    ensures { PlainPasses march.now memory.now }
{
    march.known();
    memory.known();
}

/// Beside any box it is done in its time, and ends with `fail` exactly where a read is seen that is answered wrong.
pub fn any_box(march: &March, memory: &Memory)
    ensures { AnyBox march.now memory.now }
{
    march.known();
    memory.known();
}

/// Beside a box that tells its chip, that read is the first that the chip alone answers wrong.
pub fn seen_alone(march: &March, memory: &Memory)
    ensures { SeenAlone march.now memory.now }
{
    march.known();
    memory.known();
}

/// Beside a box that tells its script, it is the first that the script answers wrong.
pub fn seen_script(march: &March, memory: &Memory)
    ensures { SeenScript march.now memory.now }
{
    march.known();
    memory.known();
    let _ = span(march, memory);
}
