ghost use Rattle.std.specs.Prelude.{◌≡◌, ℕ, ◌+◌, ◌<◌, ◌≤◌, ◌^◌, ◌++◌, length, OnOk, OnErr, IfSome, decimal, false};
ghost use Rattle.std.specs.Option.{SomeIff};
ghost use Rattle.std.specs.Fmt.{digit_glyph};
ghost use Rattle.std.specs.Str.Parse.{AllDigits, digits_value};
ghost use Rattle.bist_text.specs.Numbers.{IsNumber, hex_digits, word_text};

use bist_bits::NoMemory;
use itoa::Buffer;

/// The number that these digits write; None where one of them is no digit in the radix.
#[tactic(auto, using(crate::proofs::Powers::digit_below))]
fn number(bytes: &[u8], radix: u32) -> Option<u64>
    requires low { 2 ≤ radix }
    requires high { radix ≤ 16 }
    requires fits { radix ^ length bytes.now ≤ 2 ^ 64 }
    ensures value { SomeIff result (AllDigits radix bytes.now) (digits_value radix bytes.now) }
    ensures small { IfSome result (λ n. n < radix ^ length bytes.now) }
{
    let mut value: u64 = 0;
    for byte in bytes {
        let digit = char::from(*byte).to_digit(radix)?;
        value = value * u64::from(radix) + u64::from(digit);
    }
    Some(value)
}

/// The number that one to nine decimal digits write; None for any other bytes.
pub fn decimal(bytes: &[u8]) -> Option<u32>
    ensures { SomeIff result (IsNumber 10 9 bytes.now) (digits_value 10 bytes.now) }
{
    if bytes.is_empty() || bytes.len() > 9 {
        return None;
    }
    let value = number(bytes, 10)?;
    Some(value as u32)
}

/// The number that one to sixteen hexadecimal digits write, in either case; None for any other bytes.
pub fn hex(bytes: &[u8]) -> Option<u64>
    ensures { SomeIff result (IsNumber 16 16 bytes.now) (digits_value 16 bytes.now) }
{
    if bytes.is_empty() || bytes.len() > 16 {
        return None;
    }
    number(bytes, 16)
}

/// Appends a number in decimal, without leading zeros. Where no memory is found nothing is appended.
pub fn put_decimal(out: &mut Vec<u8>, n: u64) -> Result<(), NoMemory>
    ensures ok { OnOk result (out.new.items ≡ out.old.items ++ decimal n) }
    ensures err { OnErr result (out.new.items ≡ out.old.items) }
{
    let mut digits = Buffer::new();
    out.extend_from_slice(digits.format(n).as_bytes())
        .map_err(|_| NoMemory)
}

/// Appends a value in lower case hexadecimal, with this many digits. Where no memory is found nothing is appended.
pub fn put_hex(out: &mut Vec<u8>, value: u64, digits: u8) -> Result<(), NoMemory>
    requires fits { value < 16 ^ digits }
    ensures ok { OnOk result (out.new.items ≡ out.old.items ++ hex_digits digits value) }
    ensures err { OnErr result (out.new.items ≡ out.old.items) }
{
    let mut text = [b'0'; 255];
    let text = &mut text[..digits as usize];
    write_hex(text, value);
    out.extend_from_slice(text).map_err(|_| NoMemory)
}

/// Appends a word of so many bits in lower case hexadecimal, with as many digits as they need. Where no memory is found nothing is
/// appended.
pub fn put_word(out: &mut Vec<u8>, bits: u8, word: u64) -> Result<(), NoMemory>
    requires bits { bits ≤ 64 }
    requires fits { word < 2 ^ bits }
    ensures ok { OnOk result (out.new.items ≡ out.old.items ++ word_text bits word) }
    ensures err { OnErr result (out.new.items ≡ out.old.items) }
{
    put_hex(out, word, (bits + 3) / 4)
}

/// Writes the last hexadecimal digits of a value, as many as there is room.
fn write_hex(text: &mut [u8], value: u64)
    ensures { text.new ≡ hex_digits (length text.old) value }
{
    let mut left = value;
    for i in (0..text.len()).rev() {
        text[i] = hex_digit((left % 16) as u8);
        left /= 16;
    }
}

fn hex_digit(digit: u8) -> u8
    requires { digit < 16 }
    ensures { result ≡ digit_glyph false digit }
{
    if digit < 10 {
        b'0' + digit
    } else {
        b'a' + (digit - 10)
    }
}
