//! Reading an expression from the words of a line.
ghost use Rattle.std.specs.Prelude.{◌≡◌, ℕ, suc, ◌-◌, ◌≤◌, ◌<◌, Ok, IfOk, IfErr, IsOkAnd, OnOk};
ghost use Rattle.petri_atom.specs.Expression.{tree_of, negation, operation};
ghost use Rattle.petri_atom.specs.declared.parts.TheConstants.{MAX_WORDS};
ghost use Rattle.plant_words.specs.Expressions.{expression_in, expressions_in, on_trees, led_by, wanted_after, words_left, PassesOver, Stands};

use crate::expression_fault::ExpressionFault;
use crate::expression_word::{Variables, Word, read_word};
use crate::words::Words;
use petri_atom::{Expression, MAX_WORDS, Operator};
use std::alloc::{AllocError, Global};

/// The expression that stands first in the words, as far as there is memory for it; or the first fault from the left.
/// The words after the expression stay, also if memory is wanting; of a fault it is not said which words stay, but
/// that each one before them means something.
pub fn read_expression<V: Drop, N: Variables<V>>(
    alloc: Global,
    words: &mut Words<'_>,
    names: &N,
) -> Result<Result<Expression<V>, AllocError>, ExpressionFault>
    ensures expression { IfOk result (λ read. IfOk read
        (λ expression. expression_in (N.variable_named names.now) words.old ≡ Ok (tree_of expression, words.new))) }
    ensures behind { OnOk result (words_left (expression_in (N.variable_named names.now) words.old) ≡ Ok words.new) }
    ensures fault { IfErr result (λ fault. expression_in (N.variable_named names.now) words.old ≡ Err fault) }
    ensures passed { PassesOver (N.variable_named names.now) MAX_WORDS words.old words.new }
{
    let mut limit = MAX_WORDS;
    read_operand(alloc, words, &mut limit, names)
}

/// The expression that stands first in the words, of at most so many, as far as there is memory for it; the limit falls
/// by the words that it has. If memory is wanting the words are read on all the same, so that their fault is found.
#[tactic(auto, using(crate::proofs::ExpressionPassing::passes_both))]
fn read_operand<V: Drop, N: Variables<V>>(
    alloc: Global,
    words: &mut Words<'_>,
    limit: &mut usize,
    names: &N,
) -> Result<Result<Expression<V>, AllocError>, ExpressionFault>
    ensures expression { IfOk result (Stands (N.variable_named names.now) limit.old limit.new words.old words.new) }
    ensures fault { IfErr result (λ fault. (more : ℕ) →
        expressions_in (N.variable_named names.now) limit.old (suc more) words.old ≡ Err fault) }
    ensures within { limit.new ≤ limit.old }
    ensures passed { PassesOver (N.variable_named names.now) (limit.old - limit.new) words.old words.new }
{
    match next_word(words, limit, names)? {
        Word::Number(number) => Ok(Ok(Expression::Number(number))),
        Word::Variable(variable) => Ok(Ok(Expression::Variable(variable))),
        Word::Negation => {
            let operand = read_operand(alloc, words, limit, names)?;
            Ok(negation(alloc, operand))
        }
        Word::Operation(operator) => {
            let left = read_operand(alloc, words, limit, names)?;
            let right = read_operand(alloc, words, limit, names)?;
            Ok(operation(alloc, operator, left, right))
        }
    }
}

/// What the next word says; the limit falls by one. A word that is a fault stays the next.
fn next_word<V, N: Variables<V>>(
    words: &mut Words<'_>,
    limit: &mut usize,
    names: &N,
) -> Result<Word<V>, ExpressionFault>
    ensures word { IfOk result (λ word. (more : ℕ) →
        expressions_in (N.variable_named names.now) limit.old (suc more) words.old
        ≡ on_trees (led_by word)
        (expressions_in (N.variable_named names.now) limit.new (wanted_after word more) words.new)) }
    ensures fault { IfErr result (λ fault. (more : ℕ) →
        expressions_in (N.variable_named names.now) limit.old (suc more) words.old ≡ Err fault) }
    ensures falls { OnOk result (limit.new < limit.old) }
    ensures within { limit.new ≤ limit.old }
    ensures passed { PassesOver (N.variable_named names.now) (limit.old - limit.new) words.old words.new }
{
    let word = words.peek().ok_or(ExpressionFault::BadExpression)?;
    let left = limit.checked_sub(1).ok_or(ExpressionFault::Limit)?;
    let meaning = read_word(word, names)?;
    words.next_word();
    *limit = left;
    Ok(meaning)
}

/// The negation of an operand, if there was memory for it.
fn negation<V: Drop>(
    alloc: Global,
    operand: Result<Expression<V>, AllocError>,
) -> Result<Expression<V>, AllocError>
    ensures { IfOk result (λ expression. IsOkAnd operand (λ inner. tree_of expression ≡ negation (tree_of inner))) }
{
    Ok(Expression::Not(Box::new(alloc, operand?)?))
}

/// An operator over its operands, if there was memory for them.
fn operation<V: Drop>(
    alloc: Global,
    operator: Operator,
    left: Result<Expression<V>, AllocError>,
    right: Result<Expression<V>, AllocError>,
) -> Result<Expression<V>, AllocError>
    ensures { IfOk result (λ expression. IsOkAnd left (λ one. IsOkAnd right
        (λ other. tree_of expression ≡ operation operator (tree_of one) (tree_of other)))) }
{
    Ok(Expression::Apply(operator, Box::new(alloc, left?)?, Box::new(alloc, right?)?))
}
