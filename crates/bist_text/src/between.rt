//! Texts and numbers that are written with what stands before and behind them.
ghost use Rattle.std.specs.Prelude.{◌≡◌, ◌++◌, OnOk, decimal};

use crate::numbers::put_decimal;
use crate::writing::put;
use bist_bits::NoMemory;

/// Appends a text between two others.
pub fn put_between(
    out: &mut Vec<u8>,
    before: &[u8],
    text: &[u8],
    behind: &[u8],
) -> Result<(), NoMemory>
    ensures { OnOk result (out.new.items ≡ out.old.items ++ (before.now ++ text.now ++ behind.now)) }
{
    put(out, before)?;
    put(out, text)?;
    put(out, behind)
}

/// Appends a number in decimal, without leading zeros, between two texts.
pub fn put_number_between(
    out: &mut Vec<u8>,
    before: &[u8],
    n: u64,
    behind: &[u8],
) -> Result<(), NoMemory>
    ensures { OnOk result (out.new.items ≡ out.old.items ++ (before.now ++ decimal n ++ behind.now)) }
{
    put(out, before)?;
    put_decimal(out, n)?;
    put(out, behind)
}
