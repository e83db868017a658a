//! The words of a line before the one that is at fault.
ghost use Rattle.std.specs.Prelude.{◌≡◌, drop, length, slice_get, option_map};
ghost use Rattle.plant_words.specs.Words.{words_of};
ghost use Rattle.shown_fault.specs.Front.{is_word_at, has_word};

use plant_words::Words;
use plant_words::reading::next_word;

/// The word with this number, from 0.
pub(crate) fn word_at(front: &[u8], number: usize) -> Option<&[u8]>
    ensures { option_map (λ word. word.now) result ≡ slice_get (words_of front.now) number }
{
    let mut words = Words::new(front);
    let mut left = number;
    while let Some(word) = words.next_word() {
        if left == 0 {
            return Some(word);
        }
        left -= 1;
    }
    None
}

/// How many words there are.
pub(crate) fn count_words(front: &[u8]) -> usize
    ensures { result ≡ length (words_of front.now) }
{
    let mut words = Words::new(front);
    let mut count = 0;
    while words.next_word().is_some() {
        count += 1;
    }
    count
}

/// Whether the word with this number is there, and is this one.
pub(crate) fn is_word_at(front: &[u8], number: usize, word: &[u8]) -> bool
    ensures { result ≡ is_word_at (words_of front.now) number word.now }
{
    match word_at(front, number) {
        Some(found) => found == word,
        None => false,
    }
}

/// Whether one of the words is this one.
pub(crate) fn has_word(front: &[u8], word: &[u8]) -> bool
    ensures { result ≡ has_word (words_of front.now) word.now }
{
    let mut words = Words::new(front);
    while let Some(found) = words.next_word() {
        if found == word {
            return true;
        }
    }
    false
}

/// Takes so many words, or all if there are fewer.
pub(crate) fn skip_words(words: &mut Words<'_>, number: usize)
    ensures { words.new ≡ drop number words.old }
{
    for _taken in 0..number {
        let _ = next_word(words);
    }
}
