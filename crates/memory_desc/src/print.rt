//! The printer of memory descriptions.

ghost use Rattle.std.specs.Prelude.{◌≡◌, ℕ, ◌+◌, ◌<◌, ◌≤◌, ◌^◌, List, ◌++◌, [], ◌∷◌, All, Ok, OnOk, IfOk, codes, decimal};
ghost use Rattle.memory_desc.specs.LineText.{Content, backgrounds};
ghost use Rattle.memory_desc.specs.Table.{Reads};
ghost use Rattle.memory_desc.specs.Printed.{is_plain, lines_text, printed, row_terms, rows_printed, terms_text, version_number, with_head, with_ports, with_rows};
ghost use Rattle.memory_desc.specs.inner.Printed.{Adds, further};

use crate::memory::Memory;
use bist_bits::NoMemory;
use bist_text::{put, put_between, put_decimal, put_word};
use scrambler::Scramble;
use std::alloc::Global;

fn put_number(out: &mut Vec<u8>, word: &[u8], n: u64) -> Result<(), NoMemory>
    ensures { OnOk result (out.new.items ≡ out.old.items ++ (word.now ++ decimal n)) }
{
    put(out, word)?;
    put_decimal(out, n)
}

/// Whether version 1 can say all of a memory.
fn is_plain(memory: &Memory) -> bool
    ensures { result ≡ is_plain memory.now }
{
    memory.latency() == 1 && memory.polarity() == 0 && memory.pause() == 1
}

/// What stands before the name.
fn opening(plain: bool) -> &'static [u8]
    ensures { result.now ≡ codes "memory " ++ (decimal (version_number plain) ++ codes "\nname ") }
{
    if plain {
        b"memory 1\nname "
    } else {
        b"memory 2\nname "
    }
}

/// What stands before the rows: the name and the sizes, and what version 2 says besides, where it is needed. Here and below
/// each line's end is written with the line behind it.
fn put_head(out: &mut Vec<u8>, memory: &Memory) -> Result<(), NoMemory>
    ensures { OnOk result ((cs : List Content)
        → out.new.items ++ further memory.now.bits cs ≡ out.old.items
        ++ lines_text memory.now.bits (with_head memory.now (is_plain memory.now)
        (with_ports memory.now (is_plain memory.now) cs))) }
{
    let plain = is_plain(memory);
    put_between(out, opening(plain), memory.name().as_bytes(), b"\nwords ")?;
    put_decimal(out, u64::from(memory.words()))?;
    put_number(out, b"\nbits ", u64::from(memory.bits()))?;
    if plain {
        return Ok(());
    }
    put_number(out, b"\nlatency ", u64::from(memory.latency()))?;
    put(out, b"\npolarity ")?;
    put_word(out, memory.bits(), memory.polarity())?;
    put_number(out, b"\npause ", u64::from(memory.pause()))
}

/// A row: the index bits that it names, and 1 where its constant is 1.
fn put_row(out: &mut Vec<u8>, scramble: &Scramble, i: u8) -> Result<(), NoMemory>
    requires { i < scramble.now.width }
    ensures { OnOk result (out.new.items ≡ out.old.items
        ++ (codes "\nscramble a" ++ (decimal i ++ terms_text 61 (row_terms scramble.now i)))) }
{
    put_number(out, b"\nscramble a", u64::from(i))?;
    let names = scramble.row(i);
    let mut mark = b'=';
    for j in 0..scramble.width() {
        if (names >> j) & 1 == 1 {
            put_number(out, &[b' ', mark, b' ', b'p'], u64::from(j))?;
            mark = b'^';
        }
    }
    if (scramble.constant() >> i) & 1 == 1 {
        put(out, &[b' ', mark, b' ', b'1'])
    } else {
        Ok(())
    }
}

/// The rows, unless they change nothing.
fn put_rows(out: &mut Vec<u8>, scramble: &Scramble) -> Result<(), NoMemory>
    ensures { OnOk result ((size : ℕ) → Adds size (with_rows scramble.now (rows_printed scramble.now)) out.old.items out.new.items) }
{
    if scramble.is_identity() {
        return Ok(());
    }
    for i in 0..scramble.width() {
        put_row(out, scramble, i)?;
    }
    Ok(())
}

/// The backgrounds, in as many digits as they need.
fn put_backgrounds(out: &mut Vec<u8>, set: &[u64], bits: u8) -> Result<(), NoMemory>
    requires width { bits ≤ 64 }
    requires fit { All (λ b. b < 2 ^ bits) set.now }
    ensures { OnOk result (out.new.items ≡ out.old.items ++ further bits (backgrounds set.now ∷ [])) }
{
    put(out, b"\nbackgrounds")?;
    for word in set {
        put(out, b" ")?;
        put_word(out, bits, *word)?;
    }
    put(out, b"\n")
}

/// The printed form of a memory, which `read_memory` reads back.
pub fn print_memory(alloc: Global, memory: &Memory) -> Result<Vec<u8>, NoMemory>
    ensures form { IfOk result (λ out. out.items ≡ printed memory.now) }
    ensures read_back { IfOk result (λ out. Reads out.items (Ok memory.now)) }
{
    let mut out = Vec::new(alloc);
    put_head(&mut out, memory)?;
    put_rows(&mut out, memory.scramble())?;
    put_backgrounds(&mut out, memory.backgrounds(), memory.bits())?;
    Ok(out)
}
