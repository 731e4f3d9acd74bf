ghost use Rattle.memory_desc.specs.Descriptions.{Description, IsMemory};
ghost use Rattle.word_device.specs.declared.shape.Shape.{Shape};
ghost use Rattle.word_device.specs.Boxes.{IsShape};
ghost use Rattle.word_device.specs.Runs.{Closes, FailsPlanted, FailsAlone, FailsFresh, PassesPlain, PassesAlone};
ghost use Rattle.word_device.specs.Joint.{JointFails, JointPasses, JointEnds, SameWords, SameFirst};
ghost use Rattle.word_device.specs.Answers.{PlantedWrong};

use march_core::March;
use memory_desc::Memory;

/// Closed words stay as they are.
pub fn closing()
    ensures { Closes }
{}

/// A chip with a planted instance of a detected primitive answers some read of the march wrong, whatever its words, the answers under
/// way and the count of idle cycles are at the start, and whatever the data of a read are.
pub fn planted_fails(march: &March, memory: &Memory)
    ensures commands { FailsPlanted march.now memory.now }
    ensures alone { FailsAlone march.now memory.now }
{
    memory.known();
}

/// So does a chip in which it was just planted.
pub fn freshly_planted_fails(march: &March, memory: &Memory)
    ensures { FailsFresh march.now memory.now }
{
    memory.known();
}

/// The same of a memory of words behind its port, at any place that fits.
pub fn planted_answers_wrong(march: &March, memory: &Memory)
    ensures { PlantedWrong march.now memory.now }
{
    memory.known();
}

/// A chip with nothing planted answers every read right.
pub fn unplanted_passes(march: &March, memory: &Memory)
    ensures commands { PassesPlain march.now memory.now }
    ensures alone { PassesAlone march.now memory.now }
{
    march.known();
    memory.known();
}

/// A self-test beside a chip with a planted instance of a detected primitive ends with `fail`.
pub fn joint_fails(march: &March, memory: &Memory)
    ensures { JointFails march.now memory.now }
{
    memory.known();
}

/// Beside a chip with nothing planted it ends without `fail`, and no read differs.
pub fn joint_passes(march: &March, memory: &Memory)
    ensures { JointPasses march.now memory.now }
{
    march.known();
    memory.known();
}

/// Beside any chip a self-test sees what the chip alone answers to the march: the same words, so it fails exactly where one of them is
/// wrong, and the first that is wrong is the same.
pub fn first_differs(march: &March, memory: &Memory)
    ensures words { SameWords march.now memory.now }
    ensures ends { JointEnds march.now memory.now }
    ensures first { SameFirst march.now memory.now }
{}

/// The pauses that shapes have are those that memories have: a memory with the pause of any shape is one.
pub fn pauses_are_those_of_memories()
    ensures { (shape : Shape) (memory : Description) → IsShape shape → IsMemory memory → IsMemory (record memory { pause = shape.pause }) }
{}
