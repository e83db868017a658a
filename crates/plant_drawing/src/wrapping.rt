//! Lines of a label, broken before a word that would pass their last column.
ghost use Rattle.std.specs.Prelude.{◌≡◌, ◌+◌, ◌-◌, [], ◌∷◌, IfOk, length};
ghost use Rattle.text_io.specs.Printing.{Prints};
ghost use Rattle.part_text.specs.Seen.{tree_of};
ghost use Rattle.plant_drawing.specs.declared.wrapping.TheConstants.{COLUMNS};
ghost use Rattle.plant_drawing.specs.Wrapped.{Wraps, assigned_words, expression_words, fits, gap, left_past};

use itoa::Buffer;
use part_text::{Names, operator_word};
use petri_atom::Expression;
use std::io::Write;
use text_io::{WriteFault, print_text};

/// How many columns a line of a label has.
pub(crate) const COLUMNS: usize = 48;

/// How many spaces a further line begins with.
const INDENT: usize = 4;

/// Prints what sets off a word from the one before it: a space, or the begin of a further line where the word would pass the last
/// column. The word has a length, and a mark of another length after it. It says how many columns are left after them.
pub(crate) fn print_gap<W: Write>(
    left: usize,
    size: usize,
    mark: usize,
    output: &mut W,
) -> Result<usize, WriteFault>
    ensures text { Prints result (W.contents output.old) (W.contents output.new) (gap (fits left (size + mark))) }
    ensures left { IfOk result (λ now. now ≡ left_past left (size + mark)) }
{
    if fits(left, size, mark) {
        print_text(output, b" ")?;
        Ok(
            left.saturating_sub(size)
                .saturating_sub(mark)
                .saturating_sub(1),
        )
    } else {
        print_text(output, b"\\n    ")?;
        Ok(
            COLUMNS
                .saturating_sub(INDENT)
                .saturating_sub(size)
                .saturating_sub(mark),
        )
    }
}

/// Whether a word of this length with a mark goes on a line on which so many columns are left.
fn fits(left: usize, size: usize, mark: usize) -> bool
    ensures { result ≡ fits left (size + mark) }
{
    left == COLUMNS || (size < left && mark < left - size)
}

/// Prints a word after others.
pub(crate) fn print_word<W: Write>(
    left: usize,
    word: &[u8],
    output: &mut W,
) -> Result<usize, WriteFault>
    ensures { IfOk result (Wraps left (word.now ∷ []) (W.contents output.old) (W.contents output.new)) }
{
    let now = print_gap(left, word.len(), 0, output)?;
    print_text(output, word)?;
    Ok(now)
}

/// Prints the words of an expression after others.
pub(crate) fn print_expression_words<V, N: Names<V>, W: Write>(
    left: usize,
    expression: &Expression<V>,
    names: &N,
    output: &mut W,
) -> Result<usize, WriteFault>
    ensures { IfOk result (Wraps left (expression_words (N.name_of names.now) (tree_of expression.now)) (W.contents output.old) (W.contents output.new)) }
{
    match expression {
        Expression::Number(number) => print_word(
            left,
            Buffer::new().format(*number).as_bytes(),
            output,
        ),
        Expression::Variable(variable) => print_variable(left, variable, names, output),
        Expression::Not(operand) => {
            let now = print_word(left, b"!", output)?;
            print_expression_words(now, operand, names, output)
        }
        Expression::Apply(operator, first, second) => {
            let now = print_word(left, operator_word(*operator), output)?;
            let between = print_expression_words(now, first, names, output)?;
            print_expression_words(between, second, names, output)
        }
    }
}

/// Prints what sets a variable to the value of an expression, after its name: `:=`, and the words of the expression.
pub(crate) fn print_assigned<V, N: Names<V>, W: Write>(
    left: usize,
    value: &Expression<V>,
    names: &N,
    output: &mut W,
) -> Result<usize, WriteFault>
    ensures { IfOk result (Wraps left (assigned_words (N.name_of names.now) (tree_of value.now)) (W.contents output.old) (W.contents output.new)) }
{
    let now = print_word(left, b":=", output)?;
    print_expression_words(now, value, names, output)
}

/// The columns of a line that are left after its first word, of this length.
pub(crate) fn columns_past(size: usize) -> usize
    ensures { result ≡ COLUMNS - size }
{
    COLUMNS.saturating_sub(size)
}

/// Prints the name of a variable after other words.
fn print_variable<V, N: Names<V>, W: Write>(
    left: usize,
    variable: &V,
    names: &N,
    output: &mut W,
) -> Result<usize, WriteFault>
    ensures { IfOk result (Wraps left (N.name_of names.now variable.now ∷ []) (W.contents output.old) (W.contents output.new)) }
{
    let now = print_gap(left, names.name_length(variable), 0, output)?;
    names.print_name(variable, output)?;
    Ok(now)
}
