//! The lines of a text.
ghost use Rattle.std.specs.Prelude.{◌≡◌, ◌≤◌, ◌==◌, List, [], ◌∷◌, length, IfNone, MatchOption};
ghost use Rattle.std.specs.List.{position_or_len};
ghost use Rattle.std.specs.Str.Lines.{strip_carriage_return};
ghost use Rattle.plant_words.specs.Lines.{lines_of, is_legal_byte, is_legal_line};

use std::marker::Model;

const LINE_FEED: u8 = b'\n';

/// Reads a text line by line. In a contract it is the list of the lines that are left.
#[derive(Drop)]
pub struct Lines<'a> {
    rest: &'a [u8],
}

impl<'a> Model for Lines<'a> {
    ghost use Rattle.std.specs.Prelude.{List, ℕ};
    ghost use Rattle.plant_words.specs.Lines.{lines_of};

    ghost Value = { List (List ℕ) };

    ghost view = { λ l. lines_of l.rest.now };
}

impl<'a> Lines<'a> {
    /// The lines of the text, from its first on.
    #[tactic(auto, using(crate::proofs::Cuts::lines_of_count))]
    pub fn new(text: &'a [u8]) -> Self
        ensures lines { result ≡ lines_of text.now }
        ensures count { length result ≤ length text.now }
    {
        Lines { rest: text }
    }

    /// The next line, without its line end, or `None` at the end of the text.
    pub fn next_line(&mut self) -> Option<&'a [u8]>
        ensures line { MatchOption result (self.old ≡ []) (λ line. self.old ≡ line.now ∷ self.new) }
        ensures end { IfNone result (self.new ≡ []) }
    {
        if self.rest.is_empty() {
            return None;
        }
        let (line, behind) = self.rest.split_at(line_len(self.rest));
        match behind {
            [_, rest @ ..] => {
                self.rest = rest;
                Some(without_return(line))
            }
            [] => {
                self.rest = behind;
                Some(line)
            }
        }
    }
}

/// How many bytes stand before the first line feed.
fn line_len(text: &[u8]) -> usize
    ensures value { result ≡ position_or_len (λ byte. byte == 10) text.now }
    ensures within { result ≤ length text.now }
{
    text.iter().take_while(|byte| **byte != LINE_FEED).count()
}

/// The line without the carriage return at its end, if it has one.
fn without_return(line: &[u8]) -> &[u8]
    ensures { result.now ≡ strip_carriage_return line.now }
{
    match line {
        [front @ .., b'\r'] => front,
        _ => line,
    }
}

/// Whether each byte of a line may stand in a plant text: a printed ASCII character, a space or a tab.
pub fn is_legal(line: &[u8]) -> bool
    ensures { result ≡ is_legal_line line.now }
{
    line.iter().all(|byte| is_legal_byte(*byte))
}

fn is_legal_byte(byte: u8) -> bool
    ensures { result ≡ is_legal_byte byte }
{
    (32 <= byte && byte <= 126) || byte == b'\t'
}
