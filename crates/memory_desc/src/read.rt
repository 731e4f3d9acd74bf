//! The reader of memory descriptions.

ghost use Rattle.std.specs.Prelude.{◌≡◌, ◌↔◌, List, Ok, Err};
ghost use Rattle.bist_text.specs.Lines.{text_lines};
ghost use Rattle.bist_text.specs.keyed.Texts.{checked};
ghost use Rattle.memory_desc.specs.declared.fault.MemoryFault.{MemoryFault};
ghost use Rattle.memory_desc.specs.Descriptions.{Description};
ghost use Rattle.memory_desc.specs.Names.{IsName};
ghost use Rattle.memory_desc.specs.Statements.{Statement};
ghost use Rattle.memory_desc.specs.Values.{words_said};
ghost use Rattle.memory_desc.specs.inner.Heard.{statements};
ghost use Rattle.memory_desc.specs.Table.{is_scrambled, of_lines, unscramblable, unsized, AreStatements, Describes, Reads};

use crate::building::{backgrounds_from, scramble_from};
use crate::content::Subject;
use crate::fault::{Field, MemoryFault};
use crate::lines::check_lines;
use crate::memory::Memory;
use crate::search::{Sought, check_none, check_repeats, check_there, first_line};
use crate::values::{name_said, number_said};
use arrayvec::ArrayString;
use bist_bits::width_of;
use bist_text::keyed_lines::TextFault;
use std::str;

/// The text of a name.
pub fn name_from(bytes: &[u8]) -> ArrayString<48>
    requires { IsName bytes.now }
    ensures { result.bytes ≡ bytes.now }
{
    let Ok(text) = str::from_utf8(bytes) else {
        unreachable!()
    };
    ArrayString::from(text).unwrap()
}

/// A scrambling needs a number of words that is a power of two.
fn check_power_of_two(scrambled: bool, words: u32) -> Result<(), MemoryFault>
    ensures { (ss : List Statement) → scrambled ≡ is_scrambled ss → words ≡ words_said ss → result ≡ checked (unscramblable ss) }
{
    if scrambled && !words.is_power_of_two() {
        Err(MemoryFault::ScrambleNeedsPowerOfTwo)
    } else {
        Ok(())
    }
}

/// No two lines speak of the same, the fields that a description must have are there, and each is within its range.
fn check_fields(bytes: &[u8]) -> Result<(), MemoryFault>
    ensures { result ≡ checked (unsized (statements (text_lines bytes.now))) }
{
    check_repeats(bytes)?;
    check_there(bytes, Subject::Name, Field::Name)?;
    check_there(bytes, Subject::Words, Field::Words)?;
    check_there(bytes, Subject::Bits, Field::Bits)?;
    check_none(bytes, Sought::OutOfRange)
}

/// The memory that the statements of a text describe.
fn described(bytes: &[u8]) -> Result<Memory, MemoryFault>
    ensures { Describes (statements (text_lines bytes.now)) result }
{
    check_fields(bytes)?;
    let words = number_said(bytes, Subject::Words, 0) as u32;
    let bits = number_said(bytes, Subject::Bits, 0) as u8;
    let width = width_of(u64::from(words - 1));
    let scrambled = first_line(bytes, Sought::Row).is_some();
    check_power_of_two(scrambled, words)?;
    check_none(bytes, Sought::TooWide { width, bits })?;
    let scramble = scramble_from(bytes, scrambled, width)?;
    let backgrounds = backgrounds_from(bytes, bits)?;
    let latency = number_said(bytes, Subject::Latency, 1) as u8;
    let pause = number_said(bytes, Subject::Pause, 1) as u32;
    Ok(Memory {
        name: name_from(name_said(bytes)),
        words,
        bits,
        latency,
        polarity: number_said(bytes, Subject::Polarity, 0),
        pause,
        scramble,
        backgrounds,
    })
}

/// The refusal of a text for its lines.
fn of_lines(fault: TextFault) -> MemoryFault
    ensures { result ≡ of_lines fault }
{
    match fault {
        TextFault::Unexpected { line, byte } => MemoryFault::Unexpected { line, byte },
        TextFault::Truncated => MemoryFault::Truncated,
        TextFault::OtherVersion => MemoryFault::OtherVersion,
    }
}

/// Reads a memory description. The first refusal decides, in the order of the table.
#[tactic(auto, using(crate::proofs::OneText::statements_one))]
pub fn read_memory(bytes: &[u8]) -> Result<Memory, MemoryFault>
    // What is read is the memory that the text's statements describe, and each text that describes one is read as it.
    ensures ok { (d : Description) → (result ≡ Ok d) ↔ Reads bytes.now (Ok d) }

    // D1 to D9 and D11, exactly where they come.
    ensures refused { (fault : MemoryFault) → (result ≡ Err fault) ↔ Reads bytes.now (Err fault) }

    // A text has no two readings.
    ensures one_reading { (ss : List Statement) (ts : List Statement) → AreStatements bytes.now ss → AreStatements bytes.now ts → ss ≡ ts }
{
    match check_lines(bytes) {
        Ok(()) => described(bytes),
        Err(fault) => Err(of_lines(fault)),
    }
}
