ghost use Rattle.std.specs.Prelude.{◌≡◌, ◌↔◌, ℕ, Some, IfSome, IsTrue};
ghost use Rattle.bist_endings.specs.Words.{IsPlain, ArePlain, IsNumber};

use itoa::Buffer;

/// Whether no word is empty and none begins with a hyphen.
pub fn are_plain(words: &[&str]) -> bool
    ensures { IsTrue result ↔ ArePlain words.now }
{
    for word in words {
        if !is_plain(word) {
            return false;
        }
    }
    true
}

fn is_plain(word: &str) -> bool
    ensures { IsTrue result ↔ IsPlain word.now }
{
    match word.as_bytes() {
        [] => false,
        [first, ..] => *first != b'-',
    }
}

/// The number that a word writes in decimal, without a leading zero, with at most 9 digits.
pub fn number_of(word: &str) -> Option<usize>
    ensures number { IfSome result (IsNumber word.now) }
    ensures every { (n : ℕ) → IsNumber word.now n → result ≡ Some n }
{
    let Ok(number) = word.parse::<usize>() else {
        return None;
    };
    if number >= 1_000_000_000 {
        return None;
    }
    if Buffer::new().format(number) != word {
        return None;
    }
    Some(number)
}
