//! What is wrong with a word by itself.
ghost use Rattle.std.specs.Prelude.{◌≡◌};
ghost use Rattle.shown_fault.specs.Spelling.{is_sign, stuck_text, stuck_operator_text, truth_text, is_round, is_minus, is_fraction, value_text, form_text, tree_text, slip_text, word_text, begins_as_name, begins_as_number, name_text, either_text};

use crate::names::is_among;
use crate::table::{has_part, text_of, text_of_part};
use petri_atom::{MAX_NAME, is_name, is_reserved};
use plant_words::is_numeric;

/// What is wrong with the word wherever it stands: that it begins a comment, or that a sign is stuck to it.
#[tactic(auto, unfolding(crate::specs::Spelling::word_text))]
pub(crate) fn word_text(word: &[u8]) -> &'static str
    ensures { result.now ≡ word_text word.now }
{
    if word.first() == Some(&b'#') {
        "nothing more may follow; a comment needs a line of its own"
    } else if is_sign(word) {
        ""
    } else {
        stuck_text(word)
    }
}

/// The operators and the other signs of the plant text.
pub(crate) const SIGNS: [&[u8]; 15] = [
    b"+", b"-", b"*", b"<", b"<=", b"==", b"!=", b"&&", b"||", b"!", b":=", b";", b"[", b"]", b"]'",
];

/// Whether the word is an operator or another sign of the plant text.
fn is_sign(word: &[u8]) -> bool
    ensures { result ≡ is_sign word.now }
{
    is_among(&SIGNS, word)
}

/// What to do about a sign of lines that a part of a word is stuck to.
pub(crate) const STUCK: [(&str, &str); 6] = [
    (":=", "put spaces round ':='"),
    (";", "put spaces round ';'"),
    ("[", "put spaces round '['"),
    ("]", "put spaces round ']'"),
    ("<=", "put spaces round '<='"),
    ("<", "put spaces round '<'"),
];

/// Which sign the word has a part of it stuck to.
#[tactic(auto, unfolding(crate::specs::Spelling::stuck_text))]
fn stuck_text(word: &[u8]) -> &'static str
    ensures { result.now ≡ stuck_text word.now }
{
    text_of_part(&STUCK, word)
}

/// The same of a sign of expressions.
pub(crate) const STUCK_OPERATORS: [(&str, &str); 11] = [
    ("&&", "put spaces round '&&'"),
    ("||", "put spaces round '||'"),
    ("==", "put spaces round '=='"),
    ("!=", "put spaces round '!='"),
    (">=", "there is no operator '>=': write '<= b a'"),
    (">", "there is no operator '>': write '< b a'"),
    ("=", "write '==', with spaces round it"),
    ("+", "put spaces round '+'"),
    ("*", "put spaces round '*'"),
    ("!", "put spaces round '!'"),
    ("/", "there is no division"),
];

/// Which sign of expressions the word has a part of it stuck to; empty if it is a sign itself.
#[tactic(auto, unfolding(crate::specs::Spelling::stuck_operator_text))]
fn stuck_operator_text(word: &[u8]) -> &'static str
    ensures { result.now ≡ stuck_operator_text word.now }
{
    if is_sign(word) {
        ""
    } else {
        text_of_part(&STUCK_OPERATORS, word)
    }
}

/// What to write in the place of a truth value of other languages.
pub(crate) const TRUTHS: [(&str, &str); 2] = [
    ("true", "write 1: every number except 0 counts as true"),
    ("false", "write 0: every number except 0 counts as true"),
];

/// What to write in the place of a truth value; empty if the word is none.
#[tactic(auto, unfolding(crate::specs::Spelling::truth_text))]
fn truth_text(word: &[u8]) -> &'static str
    ensures { result.now ≡ truth_text word.now }
{
    text_of(&TRUTHS, word)
}

/// Whether a bracket that no plant text has stands in the word.
pub(crate) fn is_round(word: &[u8]) -> bool
    ensures { result ≡ is_round word.now }
{
    has_part(word, b"(") || has_part(word, b")")
}

/// Whether the word is a minus stuck to what begins as a name.
fn is_minus(word: &[u8]) -> bool
    ensures { result ≡ is_minus word.now }
{
    match word {
        [b'-', rest @ ..] => begins_as_name(rest),
        _ => false,
    }
}

/// Whether the word begins as a number, and has a dot.
fn is_fraction(word: &[u8]) -> bool
    ensures { result ≡ is_fraction word.now }
{
    let digits = match word {
        [b'-', rest @ ..] => rest,
        _ => word,
    };
    begins_as_number(digits) && has_part(word, b".")
}

/// What is wrong with a word that has to be a number, beside that it is none.
#[tactic(auto, unfolding(crate::specs::Spelling::value_text))]
pub(crate) fn value_text(word: &[u8]) -> &'static str
    ensures { result.now ≡ value_text word.now }
{
    let form = if is_fraction(word) {
        "a number is whole"
    } else {
        word_text(word)
    };
    either_text(truth_text(word), form)
}

/// What is wrong with the form of a word of an expression; empty if that is not known.
#[tactic(auto, unfolding(crate::specs::Spelling::form_text))]
pub(crate) fn form_text(word: &[u8]) -> &'static str
    ensures { result.now ≡ form_text word.now }
{
    if is_round(word) {
        "an expression has no brackets: an operator stands before its operands"
    } else if is_minus(word) {
        "there is no unary minus: write '- 0 a'"
    } else {
        either_text(value_text(word), stuck_operator_text(word))
    }
}

/// What is wrong with a word of a tree by itself; empty if that is not known.
#[tactic(auto, unfolding(crate::specs::Spelling::tree_text))]
pub(crate) fn tree_text(word: &[u8]) -> &'static str
    ensures { result.now ≡ tree_text word.now }
{
    if is_round(word) {
        "the brackets of a tree are '[' and ']', each a word of its own"
    } else {
        word_text(word)
    }
}

/// What to write in the place of an operator of other languages.
pub(crate) const SLIPS: [(&str, &str); 13] = [
    (">", "there is no operator '>': write '< b a'"),
    (">=", "there is no operator '>=': write '<= b a'"),
    ("/", "there is no division"),
    ("%", "there is no division"),
    ("=", "write '=='"),
    ("===", "write '=='"),
    ("<>", "write '!='"),
    ("and", "write '&&'"),
    ("or", "write '||'"),
    ("not", "write '!'"),
    ("&", "write '&&'"),
    ("|", "write '||'"),
    (
        "at",
        "'at' asks for a place where a rule has its condition: 'prio a < b when ATOM at PLACE'",
    ),
];

/// What to write in the place of an operator of other languages; empty if the word is none.
#[tactic(auto, unfolding(crate::specs::Spelling::slip_text))]
pub(crate) fn slip_text(word: &[u8]) -> &'static str
    ensures { result.now ≡ slip_text word.now }
{
    text_of(&SLIPS, word)
}

/// Why the word is no name.
#[tactic(auto, unfolding(crate::specs::Spelling::name_text))]
pub(crate) fn name_text(word: &[u8]) -> &'static str
    ensures { result.now ≡ name_text word.now }
{
    if is_reserved(word) {
        "the word is reserved, one of: from, to, when, do, init, at, min, max"
    } else if word.len() > MAX_NAME {
        "a name has at most 32 bytes"
    } else if !begins_as_name(word) {
        "a name begins with a letter"
    } else {
        "a name has letters, digits and '_' alone"
    }
}

/// Whether the first byte of the word alone is a name.
fn begins_as_name(word: &[u8]) -> bool
    ensures { result ≡ begins_as_name word.now }
{
    let (first, _) = word.split_at(word.len().min(1));
    is_name(first)
}

/// Whether the first byte of the word alone is a number: a digit.
fn begins_as_number(word: &[u8]) -> bool
    ensures { result ≡ begins_as_number word.now }
{
    let (first, _) = word.split_at(word.len().min(1));
    is_numeric(first)
}

/// The text, or the other one if it is empty.
pub(crate) fn either_text(text: &'static str, other: &'static str) -> &'static str
    ensures { result.now ≡ either_text text.now other.now }
{
    if text.is_empty() { other } else { text }
}
