//! The parts of an expression that is written as in other languages, where signs and brackets need no spaces.
ghost use Rattle.std.specs.Prelude.{◌≡◌, IfOk};
ghost use Rattle.shown_fault.specs.declared.tokens.Class.TheVariants.{Name};
ghost use Rattle.plant_words.specs.Words.{words_of};
ghost use Rattle.shown_fault.specs.Lent.{lists_of};
ghost use Rattle.shown_fault.specs.Tokens.{class_of, begins_with_digit, gap, widened, is_bracket, is_turned, plain, level_of};

use crate::names::is_among;
use crate::table::{row_of, text_of};
use plant_words::{Words, is_numeric};
use std::alloc::{AllocError, Global};
use std::slice;

/// Which kind of part a byte belongs to.
#[derive(Clone, Copy, Debug, PartialEq, Eq)]
pub(crate) enum Class {
    /// A name, a number or a blank.
    Name,
    /// An operator.
    Sign,
    /// A bracket or a comma: each is a part of its own.
    Bracket,
}

/// The bytes of operators. A minus is one too, but belongs to a number if a digit follows.
pub(crate) const SIGN_BYTES: [&[u8]; 9] = [b"<", b">", b"=", b"!", b"&", b"|", b"+", b"*", b"/"];

/// The round brackets, and the comma.
pub(crate) const BRACKETS: [&[u8]; 3] = [b"(", b")", b","];

/// The class of a byte that stands before these.
fn class_of(byte: u8, after: &[u8]) -> Class
    ensures { result ≡ class_of byte after.now }
{
    let word = slice::from_ref(&byte);
    if is_bracket(word) {
        Class::Bracket
    } else if is_among(&SIGN_BYTES, word) || (byte == b'-' && !begins_with_digit(after)) {
        Class::Sign
    } else {
        Class::Name
    }
}

/// Whether the first of the bytes is a digit.
fn begins_with_digit(bytes: &[u8]) -> bool
    ensures { result ≡ begins_with_digit bytes.now }
{
    let (first, _) = bytes.split_at(bytes.len().min(1));
    is_numeric(first)
}

/// Whether the word is a round bracket or a comma.
pub(crate) fn is_bracket(word: &[u8]) -> bool
    ensures { result ≡ is_bracket word.now }
{
    is_among(&BRACKETS, word)
}

/// What stands between two bytes of these classes.
fn gap(before: Class, after: Class) -> &'static [u8]
    ensures { result.now ≡ gap before after }
{
    match (before, after) {
        (Class::Name, Class::Name) | (Class::Sign, Class::Sign) => b"",
        _ => b" ",
    }
}

/// The text with spaces round its operators, brackets and commas.
pub(crate) fn widened(alloc: Global, text: &[u8]) -> Result<Vec<u8>, AllocError>
    ensures { IfOk result (λ wide. wide.items ≡ widened Name text.now) }
{
    let mut wide = Vec::new(alloc);
    let mut before = Class::Name;
    let mut rest = text;
    while let Some((byte, after)) = rest.split_first() {
        let class = class_of(*byte, after);
        wide.extend_from_slice(gap(before, class))?;
        wide.push(*byte)?;
        before = class;
        rest = after;
    }
    Ok(wide)
}

/// The words of a line, as a list.
pub(crate) fn words_in<'t>(alloc: Global, line: &'t [u8]) -> Result<Vec<&'t [u8]>, AllocError>
    ensures { IfOk result (λ list. lists_of list.items ≡ words_of line.now) }
{
    let mut list = Vec::new(alloc);
    let mut words = Words::new(line);
    while let Some(word) = words.next_word() {
        list.push(word)?;
    }
    Ok(list)
}

/// Which words plant texts have in the place of others. An operator that is turned has its operands in the other order there.
pub(crate) const PLAIN: [(&str, &str); 12] = [
    ("=", "=="),
    ("===", "=="),
    ("<>", "!="),
    (">", "<"),
    (">=", "<="),
    ("and", "&&"),
    ("&", "&&"),
    ("or", "||"),
    ("|", "||"),
    ("not", "!"),
    ("true", "1"),
    ("false", "0"),
];

/// The word that plant texts have for this one.
#[tactic(auto, unfolding(crate::specs::Tokens::plain))]
pub(crate) fn plain(word: &[u8]) -> &[u8]
    ensures { result.now ≡ plain word.now }
{
    let text = text_of(&PLAIN, word);
    if text.is_empty() {
        word
    } else {
        text.as_bytes()
    }
}

/// Whether the operands of the operator have the other order in plant texts.
#[tactic(auto, unfolding(crate::specs::Tokens::is_turned))]
pub(crate) fn is_turned(word: &[u8]) -> bool
    ensures { result ≡ is_turned word.now }
{
    match word {
        b">" | b">=" => true,
        _ => false,
    }
}

/// How tightly operators bind that stand between their operands, by what plant texts have for them: the looser ones first.
pub(crate) const LEVELS: [(&str, usize); 9] = [
    ("||", 0),
    ("&&", 1),
    ("==", COMPARING),
    ("!=", COMPARING),
    ("<", COMPARING),
    ("<=", COMPARING),
    ("+", ADDING),
    ("-", ADDING),
    ("*", 4),
];

/// The level of comparisons: no side of one is a comparison.
pub(crate) const COMPARING: usize = 2;

/// The level of `-`, which may stand before a single operand too.
pub(crate) const ADDING: usize = 3;

/// How many levels there are.
pub(crate) const LEVEL_COUNT: usize = 5;

/// How tightly the operator binds; none if the word is no operator with two operands.
#[tactic(auto, unfolding(crate::specs::Tokens::level_of))]
pub(crate) fn level_of(word: &[u8]) -> Option<usize>
    ensures { result ≡ level_of word.now }
{
    row_of(&LEVELS, plain(word))
}
