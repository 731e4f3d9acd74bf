ghost use Rattle.word_coupling.specs.Alike.{AreAlike, Forgets};
ghost use Rattle.word_coupling.specs.Digits.{DigitsAreOfPlaces};
ghost use Rattle.word_coupling.specs.Joint.{AreDetectedChips, FailsInWord, JointFailsInWord, AreEscapeChips, JointPassesInWord};
ghost use Rattle.word_coupling.specs.Memories.{InWordWrong, EachInWordWrong, BeforeIsPlanted};
ghost use Rattle.word_coupling.specs.Report.{OneInWordText};

use march_core::March;
use memory_desc::Memory;

/// A chip with an instance at two bits of one word, of a primitive that the test detects there, answers some read wrong; and a self-test
/// beside it ends with `fail`. A chip finds the states of its instance before an operation, so this is about that reading alone.
/// Each content is that of such a chip.
pub fn planted_in_word_fails(march: &March, memory: &Memory)
    ensures there { AreDetectedChips march.now memory.now }
    ensures alone { FailsInWord march.now memory.now }
    ensures joint { JointFailsInWord march.now memory.now }
{
    memory.known();
}

/// A memory with an instance at two bits of one word, of a primitive that the test detects there in a reading, answers some read wrong in that reading:
/// whatever it holds, and whatever answers are under way. In the reading before it is a memory with the planted instance.
pub fn in_word_answers_wrong(march: &March, memory: &Memory)
    ensures wrong { InWordWrong march.now memory.now }
    ensures each { EachInWordWrong march.now memory.now }
    ensures before { BeforeIsPlanted }
{
    memory.known();
}

/// A self-test beside a chip with an instance at the two bits of an escape in that reading, with its content, ends without `fail`.
pub fn escape_in_word_passes(march: &March, memory: &Memory)
    ensures there { AreEscapeChips march.now memory.now }
    ensures joint { JointPassesInWord march.now memory.now }
{
    memory.known();
}

/// Of a primitive whose act is no write both readings say the same. Of another, in the reading `Behind`, what the bit beside the act held
/// before a write of the word plays no part.
pub fn readings_are_alike(march: &March, memory: &Memory)
    ensures alike { AreAlike march.now memory.now }
    ensures forgets { Forgets }
{}

/// The bytes of a report are determined by the march, the memory and the items.
pub fn in_word_report_is_one()
    ensures { OneInWordText }
{}

/// The digits of an escape's line are the bits that a word which holds the escape has at the places that the line names, in their order.
pub fn digits_are_of_places()
    ensures { DigitsAreOfPlaces }
{}
