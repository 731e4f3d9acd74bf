//! Words of a table that are read letter by letter.
ghost use Rattle.std.specs.Prelude.{◌≡◌, [], map};
ghost use Rattle.bist_text.specs.Keywords.{word_of, letters_of, goes_on, spelled_as, seek, spell};

/// A word of a table, and what it stands for.
pub struct Keyword<T>(pub &'static str, pub T);

/// The letters of a word that are read: the first so many of a word of a table, and not all of them.
#[derive(Clone, Copy)]
pub struct Letters {
    pub word: usize,
    pub count: usize,
}

/// What a further letter makes of the letters that are read.
#[derive(Drop)]
pub enum Spelled<T> {
    /// They begin a word.
    More(Letters),
    /// They are the word that stands for this.
    Whole(T),
}

/// The letters that are read.
fn letters_of<T: Copy>(words: &[Keyword<T>], letters: Letters) -> &'static [u8]
    ensures { result.now ≡ letters_of (map word_of words.now) letters }
{
    let Some(word) = words.get(letters.word) else {
        return b"";
    };
    let text = word.0.as_bytes();
    if letters.count < text.len() {
        &text[..letters.count]
    } else {
        b""
    }
}

/// Whether a word goes on behind these letters by this one.
fn goes_on(letters: &[u8], letter: u8, text: &[u8]) -> bool
    ensures { result ≡ goes_on letters.now letter text.now }
{
    letters.len() < text.len() && &text[..letters.len()] == letters && text[letters.len()] == letter
}

/// What is read behind these letters of a word.
fn spelled_as<T: Copy>(letters: &[u8], place: usize, word: &Keyword<T>) -> Spelled<T>
    ensures { result ≡ spelled_as letters.now place (word_of word.now) }
{
    let count = letters.len() + 1;
    if word.0.len() == count {
        Spelled::Whole(word.1)
    } else {
        Spelled::More(Letters { word: place, count })
    }
}

/// What a letter makes of these; None where no word goes on so.
fn seek<T: Copy>(words: &[Keyword<T>], letters: &[u8], letter: u8) -> Option<Spelled<T>>
    ensures { result ≡ seek letters.now letter 0 (map word_of words.now) }
{
    for (i, word) in words.iter().enumerate() {
        if goes_on(letters, letter, word.0.as_bytes()) {
            return Some(spelled_as(letters, i, word));
        }
    }
    None
}

/// What the first letter of a word begins; None where no word begins so.
pub fn first_letter<T: Copy>(words: &[Keyword<T>], letter: u8) -> Option<Spelled<T>>
    ensures { result ≡ seek [] letter 0 (map word_of words.now) }
{
    seek(words, b"", letter)
}

/// What one more letter makes of those that are read; None where no word goes on so.
pub fn next_letter<T: Copy>(
    words: &[Keyword<T>],
    letters: Letters,
    letter: u8,
) -> Option<Spelled<T>>
    ensures { result ≡ spell (map word_of words.now) letters letter }
{
    seek(words, letters_of(words, letters), letter)
}
