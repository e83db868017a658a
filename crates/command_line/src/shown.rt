//! Words of the command line as they are shown.
ghost use Rattle.std.specs.Prelude.{◌≡◌, IfOk, map, string_bytes};
ghost use Rattle.shown_fault.specs.Shown.{shown};

use shown_fault::shown_name;
use std::alloc::{AllocError, Global};

/// A word as it is shown, byte by byte as a line of a plant text is.
pub fn shown_word(alloc: Global, word: &str) -> Result<String, AllocError>
    ensures { IfOk result (λ text. string_bytes text ≡ shown word.now) }
{
    // What is shown is ASCII, so it is text in any case.
    String::from_utf8(shown_name(alloc, word.as_bytes())?).map_err(|_| AllocError)
}

/// The words as they are shown.
pub(crate) fn shown_words(alloc: Global, words: &[String]) -> Result<Vec<String>, AllocError>
    ensures { IfOk result (λ texts. map string_bytes texts.items ≡ map (λ word. shown (string_bytes word)) words.now) }
{
    let mut texts = Vec::new(alloc);
    for word in words {
        texts
            .push(shown_word(alloc, word)?)
            .map_err(AllocError::from)?;
    }
    Ok(texts)
}
