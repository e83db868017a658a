//! An expression that is written as in other languages, with operators between operands and in brackets, put into the form of plant texts.
ghost use Rattle.std.specs.Prelude.{◌≡◌, ◌<◌, ◌-◌, IfOk, option_map};
ghost use Rattle.shown_fault.specs.Lent.{lists_of};
ghost use Rattle.shown_fault.specs.Prefix.{arity, is_operand, is_part, is_exact, plain_text, depth_after, is_at_level, last_at, loosest, form_of, split_form, other_form, is_text_at, is_enclosed, side_level, tighter_level, operation, after_text, in_prefix};

use crate::lists::{text_in, texts_after, texts_before};
use crate::operands::operands_of;
use crate::shown::joined;
use crate::tokens::{ADDING, COMPARING, LEVEL_COUNT, is_bracket, is_turned, level_of, plain};
use petri_atom::{MAX_WORDS, is_name};
use plant_words::{is_numeric, split_export};
use std::alloc::{AllocError, Global};

/// What an expression is made of.
#[derive(Clone, Copy, Debug, PartialEq, Eq)]
pub(crate) enum Form {
    /// It has the form of plant texts, but for brackets.
    Exact,
    /// An operator of this level at this place, with operands on both sides.
    Operation(usize, usize),
    /// A minus before its only operand.
    Minus,
    /// A negation before its operand.
    Negation,
    /// An expression in brackets.
    Enclosed,
    /// Nothing that is known.
    Unclear,
}

/// How many operands the word takes; `at` takes an atom and a place.
fn arity(word: &[u8]) -> usize
    ensures value { result ≡ arity word.now }
    ensures within { result < 3 }
{
    if word == b"at".as_slice() {
        2
    } else {
        operands_of(word)
    }
}

/// Whether the word is a number, or may be a variable.
fn is_operand(word: &[u8]) -> bool
    ensures { result ≡ is_operand word.now }
{
    is_numeric(word)
        || match split_export(word) {
            Some((atom, variable)) => is_name(atom) && is_name(variable),
            None => is_name(word),
        }
}

/// Whether the word, or what plant texts have for it, is a part of an expression.
fn is_part(word: &[u8]) -> bool
    ensures { result ≡ is_part word.now }
{
    !is_turned(word) && (arity(plain(word)) > 0 || is_operand(plain(word)))
}

/// Whether the words are one expression in the form of plant texts, if brackets are left out.
fn is_exact(tokens: &[&[u8]]) -> bool
    ensures { result ≡ is_exact 1 (lists_of tokens.now) }
{
    let mut wanted = 1;
    for token in tokens {
        if !is_bracket(token) {
            if wanted == 0 || wanted > MAX_WORDS || !is_part(token) {
                return false;
            }
            wanted = wanted - 1 + arity(plain(token));
        }
    }
    wanted == 0
}

/// The words as plant texts have them, each after a space; brackets are left out.
fn plain_text(alloc: Global, tokens: &[&[u8]]) -> Result<Vec<u8>, AllocError>
    ensures { IfOk result (λ text. text.items ≡ plain_text (lists_of tokens.now)) }
{
    let mut text = Vec::new(alloc);
    for token in tokens {
        if !is_bracket(token) {
            text.extend_from_slice(b" ")?;
            text.extend_from_slice(plain(token))?;
        }
    }
    Ok(text)
}

/// How many brackets are open after the word, if so many are before it.
fn depth_after(depth: usize, token: &[u8]) -> usize
    ensures { result ≡ depth_after depth token.now }
{
    match token {
        b"(" if depth < MAX_WORDS => depth + 1,
        b")" => depth.saturating_sub(1),
        _ => depth,
    }
}

/// Whether the word is an operator of the level.
fn is_at_level(level: usize, token: &[u8]) -> bool
    ensures { result ≡ is_at_level level token.now }
{
    match level_of(token) {
        Some(found) => found == level,
        None => false,
    }
}

/// The place of the last operator of the level that stands in no brackets.
fn last_at(level: usize, tokens: &[&[u8]]) -> Option<usize>
    ensures { result ≡ last_at None level 0 0 (lists_of tokens.now) }
{
    let mut last = None;
    let mut depth = 0;
    for (index, token) in tokens.iter().enumerate() {
        if depth == 0 && is_at_level(level, token) {
            last = Some(index);
        }
        depth = depth_after(depth, token);
    }
    last
}

/// The loosest level, from this one on, of the operators that stand in no brackets, and the place of the last one of it.
#[tactic(auto, using(crate::proofs::Levels::one_level))]
fn loosest(level: usize, tokens: &[&[u8]]) -> Option<(usize, usize)>
    ensures { result ≡ loosest (LEVEL_COUNT - level) level (lists_of tokens.now) }
{
    for tried in level..LEVEL_COUNT {
        if let Some(place) = last_at(tried, tokens) {
            return Some((tried, place));
        }
    }
    None
}

/// What the words are made of, if no looser operator than of this level has to be looked for.
fn form_of(level: usize, tokens: &[&[u8]]) -> Form
    ensures { result ≡ form_of level (lists_of tokens.now) }
{
    if is_exact(tokens) {
        return Form::Exact;
    }
    match loosest(level, tokens) {
        Some((level, place)) => split_form(level, place, tokens),
        None => other_form(tokens),
    }
}

/// What words are made of whose loosest operator, of this level, has this place.
fn split_form(level: usize, place: usize, tokens: &[&[u8]]) -> Form
    ensures { result ≡ split_form level place (lists_of tokens.now) }
{
    if place > 0 {
        Form::Operation(level, place)
    } else if is_text_at(tokens, 0, b"-") {
        Form::Minus
    } else {
        Form::Unclear
    }
}

/// What words are made of that have no operator between operands.
fn other_form(tokens: &[&[u8]]) -> Form
    ensures { result ≡ other_form (lists_of tokens.now) }
{
    if is_text_at(tokens, 0, b"!") || is_text_at(tokens, 0, b"not") {
        Form::Negation
    } else if is_enclosed(tokens) {
        Form::Enclosed
    } else {
        Form::Unclear
    }
}

/// Whether the word at the place is this one.
fn is_text_at(tokens: &[&[u8]], place: usize, text: &[u8]) -> bool
    ensures { result ≡ is_text_at (lists_of tokens.now) place text.now }
{
    match tokens.get(place) {
        Some(token) => *token == text,
        None => false,
    }
}

/// Whether a bracket is opened first, and one closed last.
fn is_enclosed(tokens: &[&[u8]]) -> bool
    ensures { result ≡ is_enclosed (lists_of tokens.now) }
{
    is_text_at(tokens, 0, b"(") && is_text_at(tokens, tokens.len().saturating_sub(1), b")")
}

/// The loosest level of an operator on the left of one of this level: as loose, but that no side of a comparison is one.
fn side_level(level: usize) -> usize
    ensures { result ≡ side_level level }
{
    if level == COMPARING { ADDING } else { level }
}

/// The loosest level of an operator on the right of one of this level.
fn tighter_level(level: usize) -> usize
    ensures { result ≡ tighter_level level }
{
    level.min(LEVEL_COUNT) + 1
}

/// The operator of the word before its operands; nothing if one of them is not known.
fn operation(
    alloc: Global,
    token: &[u8],
    left: Option<Vec<u8>>,
    right: Option<Vec<u8>>,
) -> Result<Option<Vec<u8>>, AllocError>
    ensures { IfOk result (λ made. option_map (λ text. text.items) made ≡
        operation token.now (option_map (λ text. text.items) left) (option_map (λ text. text.items) right)) }
{
    let (Some(left), Some(right)) = (left, right) else {
        return Ok(None);
    };
    let sign = plain(token);
    let text = if is_turned(token) {
        joined(alloc, &[b" ", sign, &right, &left])?
    } else {
        joined(alloc, &[b" ", sign, &left, &right])?
    };
    Ok(Some(text))
}

/// The text after this one; nothing if it is not known.
fn after_text(
    alloc: Global,
    lead: &[u8],
    text: Option<Vec<u8>>,
) -> Result<Option<Vec<u8>>, AllocError>
    ensures { IfOk result (λ made. option_map (λ text. text.items) made ≡ after_text lead.now (option_map (λ text. text.items) text)) }
{
    match text {
        Some(text) => Ok(Some(joined(alloc, &[lead, &text])?)),
        None => Ok(None),
    }
}

/// The expression that the words are, in the form of plant texts, each word after a space; nothing if they are none, or have parts
/// within parts more than `fuel` times.
#[tactic(auto, using(crate::proofs::Parting::operation_put, crate::proofs::Parting::minus_put, crate::proofs::Parting::negation_put, crate::proofs::Parting::enclosed_put))]
pub(crate) fn in_prefix(
    alloc: Global,
    fuel: usize,
    level: usize,
    tokens: &[&[u8]],
) -> Result<Option<Vec<u8>>, AllocError>
    ensures { IfOk result (λ made. option_map (λ text. text.items) made ≡ in_prefix fuel level (lists_of tokens.now)) }
{
    if fuel == 0 {
        return Ok(None);
    }
    let rest = texts_after(tokens, 1);
    match form_of(level, tokens) {
        Form::Exact => Ok(Some(plain_text(alloc, tokens)?)),
        Form::Operation(found, place) => {
            let left = texts_before(tokens, place);
            let right = texts_after(texts_after(tokens, place), 1);
            let left = in_prefix(alloc, fuel - 1, side_level(found), left)?;
            let right = in_prefix(alloc, fuel - 1, tighter_level(found), right)?;
            operation(alloc, text_in(tokens, place), left, right)
        }
        Form::Minus => {
            let operand = in_prefix(alloc, fuel - 1, tighter_level(ADDING), rest)?;
            after_text(alloc, b" - 0", operand)
        }
        Form::Negation => {
            let operand = in_prefix(alloc, fuel - 1, LEVEL_COUNT, rest)?;
            after_text(alloc, b" !", operand)
        }
        Form::Enclosed => {
            let inner = texts_before(rest, tokens.len().saturating_sub(2));
            Ok(in_prefix(alloc, fuel - 1, 0, inner)?)
        }
        Form::Unclear => Ok(None),
    }
}
