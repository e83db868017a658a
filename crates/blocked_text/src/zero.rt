//! What is said of a guard that is 0: its expression, and the values of its variables.
ghost use Rattle.std.specs.Prelude.{◌≡◌, ◌≤◌, IfOk, codes};
ghost use Rattle.petri_atom.specs.Expression.{word_count};
ghost use Rattle.petri_atom.specs.declared.parts.TheConstants.{MAX_WORDS};
ghost use Rattle.text_io.specs.Printing.{Prints};
ghost use Rattle.part_text.specs.Seen.{tree_of};
ghost use Rattle.blocked_text.specs.Separated.{after_words, separated_after};
ghost use Rattle.blocked_text.specs.Variables.{variables_in};
ghost use Rattle.blocked_text.specs.Zero.{closing, value_text, value_word, value_words, values_text, zero_text};

use crate::variables::{Same, is_before, variable_at};
use part_text::{Names, print_expression};
use petri_atom::{Expression, Valuation};
use std::io::Write;
use text_io::{WriteFault, print_signed, print_text};

/// Prints that a guard is 0: its expression, and the value of each variable that it reads.
pub(crate) fn print_zero<V: Same, N: Names<V>, S: Valuation<V>, W: Write>(
    guard: &Expression<V>,
    names: &N,
    values: &S,
    output: &mut W,
) -> Result<(), WriteFault>
    requires { word_count (tree_of guard.now) ≤ MAX_WORDS }
    ensures { Prints result (W.contents output.old) (W.contents output.new) (zero_text V.same (N.name_of names.now) (S.value_at values.now) (tree_of guard.now)) }
{
    print_text(output, b"guard '")?;
    print_expression(guard, names, output)?;
    print_text(output, b"' is 0")?;
    print_values(guard, names, values, output)
}

/// Prints the values of the variables that an expression names, each once, in parentheses; nothing if it names none.
fn print_values<V: Same, N: Names<V>, S: Valuation<V>, W: Write>(
    expression: &Expression<V>,
    names: &N,
    values: &S,
    output: &mut W,
) -> Result<(), WriteFault>
    requires { word_count (tree_of expression.now) ≤ MAX_WORDS }
    ensures { Prints result (W.contents output.old) (W.contents output.new)
        (values_text V.same (N.name_of names.now) (S.value_at values.now) (variables_in (tree_of expression.now))) }
{
    print_words(expression, names, values, output)?;
    print_closing(expression, output)
}

/// Prints the end of the list of values; nothing if the expression names no variable.
fn print_closing<V: Copy, W: Write>(
    expression: &Expression<V>,
    output: &mut W,
) -> Result<(), WriteFault>
    ensures { Prints result (W.contents output.old) (W.contents output.new) (closing (variables_in (tree_of expression.now))) }
{
    match variable_at(expression, 0) {
        Some(_) => print_text(output, b")"),
        None => Ok(()),
    }
}

/// Prints the variables that an expression names with their values, each once, with the begin of the list before the first.
fn print_words<V: Same, N: Names<V>, S: Valuation<V>, W: Write>(
    expression: &Expression<V>,
    names: &N,
    values: &S,
    output: &mut W,
) -> Result<(), WriteFault>
    requires { word_count (tree_of expression.now) ≤ MAX_WORDS }
    ensures { Prints result (W.contents output.old) (W.contents output.new)
        (separated_after (codes " (") (codes ", ") (value_words V.same (N.name_of names.now) (S.value_at values.now) (variables_in (tree_of expression.now)))) }
{
    let mut before: &'static [u8] = b" (";
    let mut place = 0;
    while let Some(variable) = variable_at(expression, place) {
        before = print_first(expression, place, variable, names, values, before, output)?;
        place += 1;
    }
    Ok(())
}

/// Prints the variable at this place and its value, if it stands there first, with `before` before it; returns what is to
/// stand before the next one.
fn print_first<V: Same, N: Names<V>, S: Valuation<V>, W: Write>(
    expression: &Expression<V>,
    place: usize,
    variable: V,
    names: &N,
    values: &S,
    before: &'static [u8],
    output: &mut W,
) -> Result<&'static [u8], WriteFault>
    ensures printed { Prints result (W.contents output.old) (W.contents output.new)
        (separated_after before.now (codes ", ") (value_word V.same (N.name_of names.now) (S.value_at values.now) (variables_in (tree_of expression.now)) place variable)) }
    ensures next { IfOk result (λ next. next.now ≡ after_words before.now (codes ", ") (value_word V.same (N.name_of names.now) (S.value_at values.now) (variables_in (tree_of expression.now)) place variable)) }
{
    if is_before(expression, place, variable) {
        return Ok(before);
    }
    print_text(output, before)?;
    print_value(variable, names, values, output)?;
    Ok(b", ")
}

/// Prints a variable and its value.
fn print_value<V: Same, N: Names<V>, S: Valuation<V>, W: Write>(
    variable: V,
    names: &N,
    values: &S,
    output: &mut W,
) -> Result<(), WriteFault>
    ensures { Prints result (W.contents output.old) (W.contents output.new) (value_text (N.name_of names.now) (S.value_at values.now) variable) }
{
    names.print_name(&variable, output)?;
    print_text(output, b"=")?;
    print_signed(output, values.value_at(&variable))
}
