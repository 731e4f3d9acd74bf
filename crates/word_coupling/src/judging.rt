ghost use Rattle.std.specs.Prelude.{◌≡◌, ◌≢◌, ◌<◌, MatchOption, false, IsTrue};
ghost use Rattle.cell_machine.specs.declared.pair.Pair.{Pair};
ghost use Rattle.fault_core.specs.Primitive.{has_aggressor};
ghost use Rattle.word_coupling.specs.Escapes.{IsWordVerdict, content_number};
ghost use Rattle.word_coupling.specs.inner.Searching.{end_in, run_by, passes_by, IsLeastContent, NoneAt, IsLeastAt, NoneBeside, IsLeastBeside, IsVerdictBy, found_of};

use crate::couple::bits_at;
use crate::ends::{EndTable, end_in, table_of};
use crate::reading::{Reading, Readings};
use cell_machine::{Pair, close};
use fault_core::Prim;
use march_core::March;
use memory_desc::Memory;

/// Two bits of one word, of an aggressor and its victim, and their content before closing.
#[derive(Clone, Copy)]
pub struct WordEscape {
    pub agg: u8,
    pub vic: u8,
    pub content: Pair,
}

/// In which readings a primitive escapes, and such bits, which pass in the first of these.
#[derive(Clone, Copy)]
pub struct FoundEscape {
    pub readings: Readings,
    pub at: WordEscape,
}

/// The two bits behind the whole test, unless a read is wrong.
fn run_by(table: &EndTable, memory: &Memory, agg: u8, vic: u8, start: Pair) -> Option<Pair>
    requires agg { agg < memory.now.bits }
    requires vic { vic < memory.now.bits }
    ensures { result ≡ run_by (end_in table.now) agg vic memory.now.backgrounds start }
{
    let mut pair = start;
    for background in memory.backgrounds() {
        pair = end_in(table, bits_at(*background, agg, vic), pair)?;
    }
    Some(pair)
}

/// Whether every read is right at two bits from this content.
#[tactic(auto, unfolding(crate::specs::inner::Searching::passes_by))]
fn does_pass(
    table: &EndTable,
    prim: &Prim,
    memory: &Memory,
    agg: u8,
    vic: u8,
    content: Pair,
) -> bool
    requires agg { agg < memory.now.bits }
    requires vic { vic < memory.now.bits }
    ensures { result ≡ passes_by (end_in table.now) prim.now memory.now.backgrounds agg vic content }
{
    run_by(table, memory, agg, vic, close(prim, content)).is_some()
}

/// The content with this number: the aggressor's digit, then the victim's.
fn content_of(number: u8) -> Pair
    requires { number < 4 }
    ensures { content_number result ≡ number }
{
    Pair {
        a: number >= 2,
        v: number % 2 == 1,
    }
}

/// The least content from which two bits pass.
fn least_content(table: &EndTable, prim: &Prim, memory: &Memory, agg: u8, vic: u8) -> Option<Pair>
    requires agg { agg < memory.now.bits }
    requires vic { vic < memory.now.bits }
    ensures { MatchOption result
        ((c : Pair) → passes_by (end_in table.now) prim.now memory.now.backgrounds agg vic c ≡ false)
        (IsLeastContent (end_in table.now) prim.now memory.now.backgrounds agg vic) }
{
    for number in 0..4 {
        let content = content_of(number);
        if does_pass(table, prim, memory, agg, vic, content) {
            return Some(content);
        }
    }
    None
}

/// The least escape at two bits.
fn least_at(table: &EndTable, prim: &Prim, memory: &Memory, agg: u8, vic: u8) -> Option<WordEscape>
    requires agg { agg < memory.now.bits }
    requires vic { vic < memory.now.bits }
    ensures { MatchOption result
        (NoneAt (end_in table.now) prim.now memory.now.bits memory.now.backgrounds agg vic)
        (IsLeastAt (end_in table.now) prim.now memory.now.bits memory.now.backgrounds agg vic) }
{
    if agg == vic {
        return None;
    }
    let content = least_content(table, prim, memory, agg, vic)?;
    Some(WordEscape { agg, vic, content })
}

/// The least escape with the victim at a bit.
fn least_beside(table: &EndTable, prim: &Prim, memory: &Memory, vic: u8) -> Option<WordEscape>
    requires { vic < memory.now.bits }
    ensures { MatchOption result
        (NoneBeside (end_in table.now) prim.now memory.now.bits memory.now.backgrounds vic)
        (IsLeastBeside (end_in table.now) prim.now memory.now.bits memory.now.backgrounds vic) }
{
    for agg in 0..memory.bits() {
        if let Some(escape) = least_at(table, prim, memory, agg, vic) {
            return Some(escape);
        }
    }
    None
}

/// The verdict in one reading.
fn judge_by(reading: Reading, march: &March, memory: &Memory, prim: &Prim) -> Option<WordEscape>
    requires { IsTrue (has_aggressor prim.now) }
    ensures { IsVerdictBy reading march.now memory.now prim.now result }
{
    let table = table_of(reading, prim, march);
    march.known();
    prim.known();
    for vic in 0..memory.bits() {
        if let Some(escape) = least_beside(&table, prim, memory, vic) {
            return Some(escape);
        }
    }
    None
}

/// What is found by the verdicts of both readings.
fn found_of(before: Option<WordEscape>, behind: Option<WordEscape>) -> Option<FoundEscape>
    ensures { result ≡ found_of before behind }
{
    match before {
        Some(at) => {
            let readings = if behind.is_some() {
                Readings::Both
            } else {
                Readings::BeforeAlone
            };
            Some(FoundEscape { readings, at })
        }
        None => match behind {
            Some(at) => Some(FoundEscape {
                readings: Readings::BehindAlone,
                at,
            }),
            None => None,
        },
    }
}

/// The verdict on a primitive of two cells whose cells are two bits of one word, for the whole test of a memory: none exactly where every
/// two bits of every word are caught from every content, in each reading. Else in which readings they aren't, and the least escape of the
/// first of these: by the victim's bit, the aggressor's and their content. In a word of one bit there is nothing to catch.
pub fn judge_in_word(march: &March, memory: &Memory, prim: &Prim) -> Option<FoundEscape>
    requires { IsTrue (has_aggressor prim.now) }
    ensures { IsWordVerdict march.now memory.now prim.now result }
{
    let before = judge_by(Reading::Before, march, memory, prim);
    let behind = judge_by(Reading::Behind, march, memory, prim);
    found_of(before, behind)
}
