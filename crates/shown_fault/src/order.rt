//! What is wrong with a word where it stands, by the words before it.
ghost use Rattle.std.specs.Prelude.{◌≡◌};
ghost use Rattle.plant_words.specs.Words.{words_of};
ghost use Rattle.shown_fault.specs.Order.{guard_text, has_comma, comma_text, order_text};

use crate::front::has_word;
use crate::spelling::{either_text, is_round};
use crate::table::has_part;

/// What is wrong with a word that stands after these, whatever has to stand there; empty if that is not known.
pub(crate) fn order_text(front: &[u8], word: &[u8]) -> &'static str
    ensures { result.now ≡ order_text (words_of front.now) word.now }
{
    either_text(guard_text(front, word), comma_text(front, word))
}

/// What is wrong with a `when` that stands after the `do` of a transition; empty if the word is something else.
#[tactic(auto, unfolding(crate::specs::Order::guard_text))]
fn guard_text(front: &[u8], word: &[u8]) -> &'static str
    ensures { result.now ≡ guard_text (words_of front.now) word.now }
{
    if word == b"when".as_slice() && has_word(front, b"do") {
        "'when' comes before 'do': the guard stands before the updates"
    } else {
        ""
    }
}

/// Whether the word has a comma, and no bracket.
pub(crate) fn has_comma(word: &[u8]) -> bool
    ensures { result ≡ has_comma word.now }
{
    !is_round(word) && has_part(word, b",")
}

/// What is wrong with a word that has a comma; empty if it has none.
#[tactic(auto, unfolding(crate::specs::Order::comma_text))]
fn comma_text(front: &[u8], word: &[u8]) -> &'static str
    ensures { result.now ≡ comma_text (words_of front.now) word.now }
{
    if !has_comma(word) {
        ""
    } else if has_word(front, b"do") {
        "';' stands between two updates, as a word of its own"
    } else {
        "spaces alone stand between words, and no comma"
    }
}
