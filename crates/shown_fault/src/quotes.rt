//! A quote of a tree that does not stand after its port.
ghost use Rattle.std.specs.Prelude.{◌≡◌, IfOk};
ghost use Rattle.plant_words.specs.Words.{words_of};
ghost use Rattle.shown_fault.specs.Quotes.{can_be_marked, quoted_line, quote_advice};

use crate::front::{count_words, word_at};
use crate::shown::advice_line;
use plant_words::split_port;
use std::alloc::{AllocError, Global};

/// Whether a quote may be put after the word.
fn can_be_marked(word: &[u8]) -> bool
    ensures { result ≡ can_be_marked word.now }
{
    match split_port(word) {
        Some(parts) => !parts.quoted,
        None => word == b"]".as_slice(),
    }
}

/// Where a quote stands: after this word, if it may.
fn quoted_line(alloc: Global, word: &[u8]) -> Result<Vec<u8>, AllocError>
    ensures { IfOk result (λ text. text.items ≡ quoted_line word.now) }
{
    if can_be_marked(word) {
        advice_line(
            alloc,
            &[
                b"a quote stands directly after its port or bracket: write ",
                word,
                b"'",
            ],
        )
    } else {
        advice_line(
            alloc,
            &[b"a quote stands directly after its port or bracket: write A.t'"],
        )
    }
}

/// Where the quote stands that a word of a tree begins with, after these words; nothing if it begins with none.
#[tactic(auto, unfolding(crate::specs::Quotes::quote_advice))]
pub(crate) fn quote_advice(alloc: Global, front: &[u8], word: &[u8]) -> Result<Vec<u8>, AllocError>
    ensures { IfOk result (λ text. text.items ≡ quote_advice (words_of front.now) word.now) }
{
    match word {
        [b'\''] => {
            let last = word_at(front, count_words(front).saturating_sub(1));
            quoted_line(alloc, last.unwrap_or(b""))
        }
        [b'\'', marked @ ..] => quoted_line(alloc, marked),
        _ => Ok(Vec::new(alloc)),
    }
}
