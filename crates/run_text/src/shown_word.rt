//! A word of a line as it is shown.
ghost use Rattle.std.specs.Prelude.{◌≡◌, ◌<◌, ◌++◌, ◌∷◌, [], true, length, map, take};
ghost use Rattle.std.specs.List.{list_all};
ghost use Rattle.run_text.specs.ShownWord.{is_printable, shown_byte, shown_word};
ghost use Rattle.run_text.specs.declared.shown_word.TheConstants.{MOST_CHARACTERS, MOST_SHOWN};

use std::marker::Model;
use std::{fmt, str};

/// How many bytes of a word are shown: more than the longest `ATOM.PORT/NUMBER` has, which is two names and a number of three digits.
pub const MOST_SHOWN: usize = 72;

/// How many characters a word has at most as it is shown: these bytes, and `..` behind them.
const MOST_CHARACTERS: usize = MOST_SHOWN + 2;

/// A word of a line as it is shown: a byte that is no printable ASCII character as `?`, and of a long word the first 72 bytes and `..`
/// behind them. In a contract it is the list of these characters. It takes no memory.
#[derive(Clone, Copy, Debug, PartialEq, Eq)]
pub struct Word {
    characters: [u8; MOST_CHARACTERS],
    count: usize,
}

impl Model for Word {
    ghost use Rattle.std.specs.Prelude.{◌≡◌, ◌≤◌, ℕ, List, true, length, take};
    ghost use Rattle.std.specs.List.{list_all};
    ghost use Rattle.std.proofs.Common.{sym};
    ghost use Rattle.std.proofs.lemmas.List.{length-take-le};
    ghost use Rattle.run_text.specs.ShownWord.{is_printable, kept_row};

    ghost Value = { List ℕ };

    ghost view = { λ w. take w.count w.characters };

    ghost invariant = { λ w. (w.count ≤ length w.characters)
        × (w.characters ≡ kept_row (take w.count w.characters))
        × (list_all is_printable (take w.count w.characters) ≡ true) };

    ghost inverse = { λ text. record { characters = kept_row text; count = length text } };

    ghost inverse_ok = { λ w h i. record {
      characters = sym h.1 i;
      count = length-take-le w.count w.characters h.0 i;
    } };
}

impl Word {
    /// The word with these bytes, as it is shown.
    pub fn of(word: &[u8]) -> Word
        ensures { result ≡ shown_word word.now }
    {
        let mut shown = Word::front_of(word);
        if word.len() > MOST_SHOWN {
            shown.push(b'.');
            shown.push(b'.');
        }
        shown
    }

    /// Its characters.
    pub fn as_bytes(&self) -> &[u8]
        ensures value { result.now ≡ self.now }
        ensures printable { list_all is_printable self.now ≡ true }
    {
        &self.characters[..self.count]
    }

    /// The first bytes of a word, as they are shown, and no more.
    fn front_of(word: &[u8]) -> Word
        ensures { result ≡ map shown_byte (take MOST_SHOWN word.now) }
    {
        let mut shown = Word::empty();
        for byte in &word[..MOST_SHOWN.min(word.len())] {
            shown.push(shown_byte(*byte));
        }
        shown
    }

    /// No character.
    fn empty() -> Word
        ensures { result ≡ [] }
    {
        Word {
            characters: [0; MOST_CHARACTERS],
            count: 0,
        }
    }

    /// Adds a character at the end.
    fn push(&mut self, character: u8)
        requires room { length self.old < MOST_CHARACTERS }
        requires printable { is_printable character ≡ true }
        ensures { self.new ≡ self.old ++ character ∷ [] }
    {
        self.characters[self.count] = character;
        self.count += 1;
    }
}

impl fmt::Display for Word {
    ghost use Rattle.std.specs.Prelude.{Some};

    ghost output = { λ word. Some word };

    fn fmt<W: fmt::Write>(&self, f: &mut fmt::Formatter<W>) -> fmt::Result {
        match str::from_utf8(self.as_bytes()) {
            Ok(text) => f.write_str(text),
            Err(_) => unreachable!(),
        }
    }
}

/// A byte as it is shown.
fn shown_byte(byte: u8) -> u8
    ensures value { result ≡ shown_byte byte }
    ensures printable { is_printable result ≡ true }
{
    if 32 <= byte && byte <= 126 {
        byte
    } else {
        b'?'
    }
}
