//! The words of a line.
ghost use Rattle.std.specs.Prelude.{◌≡◌, ◌≤◌, List, [], ◌∷◌, length, drop, IfNone, MatchOption};
ghost use Rattle.std.specs.List.{prefix_len, position_or_len};
ghost use Rattle.plant_words.specs.Words.{is_blank, words_of, is_passed_over};

use std::marker::Model;

/// Reads a line word by word. In a contract it is the list of the words that are left.
///
/// It remembers where it looked last, so that who shows a fault can show the word that is at fault.
#[derive(Drop)]
pub struct Words<'a> {
    rest: &'a [u8],
    seen: &'a [u8],
}

impl<'a> Model for Words<'a> {
    ghost use Rattle.std.specs.Prelude.{List, ℕ};
    ghost use Rattle.plant_words.specs.Words.{words_of};

    ghost Value = { List (List ℕ) };

    ghost view = { λ w. words_of w.rest.now };
}

impl<'a> Words<'a> {
    /// The words of the line, from its first on.
    #[tactic(auto, using(crate::proofs::Cuts::words_of_count))]
    pub fn new(line: &'a [u8]) -> Self
        ensures words { result ≡ words_of line.now }
        ensures count { length result ≤ length line.now }
    {
        Words {
            rest: line,
            seen: line,
        }
    }

    /// The next word, or `None` if none is left.
    pub fn next_word(&mut self) -> Option<&'a [u8]>
        ensures word { MatchOption result (self.old ≡ []) (λ word. self.old ≡ word.now ∷ self.new) }
        ensures end { IfNone result (self.new ≡ []) }
    {
        let (_, from_word) = self.rest.split_at(blanks_len(self.rest));
        self.seen = from_word;
        if from_word.is_empty() {
            return None;
        }
        let (word, rest) = from_word.split_at(word_len(from_word));
        self.rest = rest;
        Some(word)
    }

    /// The next word, which stays the next, or `None` if none is left. There are no more words than bytes in a line.
    #[tactic(auto, using(crate::proofs::Cuts::words_of_count))]
    pub fn peek(&mut self) -> Option<&'a [u8]>
        ensures word { MatchOption result (self.old ≡ []) (λ word. self.old ≡ word.now ∷ drop 1 self.old) }
        ensures kept { self.new ≡ self.old }
        ensures count { length self.new ≤ usize.MAX }
    {
        let rest = self.rest;
        let word = self.next_word();
        self.rest = rest;
        word
    }

    /// The end of the line that begins with the word that was asked for last, by `next_word` or `peek`; empty if none
    /// was left, and the whole line before the first question.
    pub fn seen(&self) -> &'a [u8] {
        self.seen
    }
}

/// Whether a line says nothing: it has no words, or its first word begins with `#`.
pub fn is_passed_over(line: &[u8]) -> bool
    ensures { result ≡ is_passed_over line.now }
{
    match Words::new(line).next_word() {
        Some(word) => word.first() == Some(&b'#'),
        None => true,
    }
}

fn is_blank(byte: u8) -> bool
    ensures { result ≡ is_blank byte }
{
    byte == b' ' || byte == b'\t'
}

/// How many blanks stand before the first word.
pub fn blanks_len(line: &[u8]) -> usize
    ensures value { result ≡ prefix_len is_blank line.now }
    ensures within { result ≤ length line.now }
{
    line.iter().take_while(|byte| is_blank(**byte)).count()
}

/// How many bytes stand before the first blank.
pub fn word_len(line: &[u8]) -> usize
    ensures value { result ≡ position_or_len is_blank line.now }
    ensures within { result ≤ length line.now }
{
    line.iter().take_while(|byte| !is_blank(**byte)).count()
}
