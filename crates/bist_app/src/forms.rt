//! The form of a command's words: its name, how many there are, and which of them name files.

ghost use Rattle.std.specs.Prelude.{◌≤◌, ◌<◌, ◌↔◌, IsTrue};
ghost use Rattle.bist_app.specs.Forms.{AreDistinct, HasForm};

use bist_endings::are_plain;

/// Whether no two words are the same.
fn are_distinct(words: &[&str]) -> bool
    ensures { IsTrue result ↔ AreDistinct words.now }
{
    match words {
        [] => true,
        [first, rest @ ..] => !rest.contains(first) && are_distinct(rest),
    }
}

/// Whether the words have the name and the count, are plain, and those from `first` up to `last`, which name files, are distinct.
pub fn has_form(words: &[&str], name: &str, count: usize, first: usize, last: usize) -> bool
    requires some { 0 < count }
    requires begins { first ≤ last }
    requires ends { last ≤ count }
    ensures { IsTrue result ↔ HasForm (record { name = name.now; count = count; first = first; last = last }) words.now }
{
    words.len() == count
        && words[0] == name
        && are_plain(words)
        && are_distinct(&words[first..last])
}
