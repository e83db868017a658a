//! `at ATOM PLACE` as one word.
ghost use Rattle.std.specs.Prelude.{◌≡◌, IfOk};
ghost use Rattle.plant_words.specs.Words.{words_of};
ghost use Rattle.run_watches.specs.Joined.{joined_text};

use plant_words::Words;
use std::alloc::{AllocError, Global};

/// The text with each `at ATOM PLACE` as the one word `at.ATOM.PLACE`, and with a space behind each word.
pub(crate) fn joined(alloc: Global, text: &[u8]) -> Result<Vec<u8>, AllocError>
    ensures { IfOk result (λ joined. joined.items ≡ joined_text (words_of text.now)) }
{
    let mut joined = Vec::new(alloc);
    let mut words = Words::new(text);
    // How many of the next words belong to an `at` before them.
    let mut owned = 0usize;
    while let Some(word) = words.next_word() {
        joined.extend_from_slice(word)?;
        if owned == 0 && word == b"at".as_slice() {
            owned = 2;
        } else if owned > 0 {
            owned -= 1;
        }
        joined.push(if owned == 0 { b' ' } else { b'.' })?;
    }
    Ok(joined)
}
