ghost use Rattle.word_faults.specs.Alike.{LinkedAsOne, DecodedByBits, DecodedPlainly, DynamicByCells, DynamicInPlace, DynamicAnswers, DynamicRests};
ghost use Rattle.word_faults.specs.There.{AreThere};
ghost use Rattle.word_faults.specs.Reached.{EachAnswersWrong};
ghost use Rattle.word_faults.specs.Laws.{LinkedWrong, DecoderWrong, DynamicWrong};

use march_core::March;
use memory_desc::Memory;

/// A memory with a detected linked fault answers some read of the march wrong.
pub fn linked_answers_wrong(march: &March, memory: &Memory)
    ensures { LinkedWrong march.now memory.now }
{
    march.known();
    memory.known();
}

/// A memory whose decoder has a detected fault answers some read of the march wrong.
pub fn decoder_answers_wrong(march: &March, memory: &Memory)
    ensures { DecoderWrong march.now memory.now }
{
    march.known();
    memory.known();
}

/// A memory with an instance of a detected dynamic primitive answers some read of the march wrong, where a run of the background 0 begins afresh.
pub fn dynamic_answers_wrong(march: &March, memory: &Memory)
    ensures { DynamicWrong march.now memory.now }
{
    memory.known();
}

/// What these memories do at an operation: linked primitives what an instance of one of them does alone, a wrong decoder at each bit what it does to
/// cells, and nothing wrong where each address reaches its own word, and a dynamic primitive
/// at the bits of its words what it does to cells, where it changes the victim's bit at most.
pub fn memories_do_as_known()
    ensures linked { LinkedAsOne }
    ensures decoded { DecodedByBits }
    ensures plainly { DecodedPlainly }
    ensures by_cells { DynamicByCells }
    ensures in_place { DynamicInPlace }
    ensures answers { DynamicAnswers }
    ensures rests { DynamicRests }
{}

/// What the laws above ask for is there: in a memory of this description each content, each count of answers under way and of idle cycles, each place,
/// and a run that begins afresh where the background 0 is the first or the march ends elsewhere than it begins.
pub fn memories_are_there(memory: &Memory)
    ensures { AreThere memory.now }
{
    memory.known();
}

/// Each memory with an instance of a detected primitive, static, linked or dynamic, or with a detected fault of the decoder, answers some read wrong:
/// from each content, with each count of answers under way and of idle cycles, at each place.
pub fn each_memory_answers_wrong(march: &March, memory: &Memory)
    ensures { EachAnswersWrong march.now memory.now }
{
    march.known();
    memory.known();
}
