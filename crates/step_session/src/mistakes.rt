//! What is said of a line that asks for nothing.
ghost use Rattle.run_text.specs.Seen.{Prints};
ghost use Rattle.step_session.specs.CommandOf.{mistake_of};
ghost use Rattle.step_session.specs.Mistakes.{mistake_text, no_connector_text, quoted_text, too_long_text};

use crate::command::Mistake;
use crate::fault::AnswerFault;
use crate::lines::MAX_LINE;
use shown_fault::shown_name;
use std::alloc::Global;
use std::io::Write;
use text_io::{print_number, print_text};

/// Prints what is wrong, and what can be written.
pub(crate) fn print_mistake<W: Write>(
    alloc: Global,
    mistake: &Mistake<'_>,
    output: &mut W,
) -> Result<(), AnswerFault>
    ensures { Prints result (W.contents output.old) (W.contents output.new) (mistake_text (mistake_of mistake.now)) }
{
    match mistake {
        Mistake::TooLong => print_too_long(output),
        Mistake::NoCommand(word) => {
            print_quoted(alloc, word, b" is no command: help lists them\n", output)
        }
        Mistake::LeftOver(word) => print_quoted(
            alloc,
            word,
            b" is left over: help lists the commands\n",
            output,
        ),
        Mistake::NoNumber(word) => print_quoted(
            alloc,
            word,
            b" is no number from 0 to 18446744073709551615\n",
            output,
        ),
        Mistake::NoCount => print_line(b"N is missing: random N\n", output),
        Mistake::NoFile => print_line(b"FILE is missing: save FILE\n", output),
        Mistake::NoFired => print_line(b"NAME is missing: fire NAME\n", output),
        Mistake::NoAwaited => print_line(b"NAME is missing: until NAME\n", output),
    }
}

/// Prints that a line is too long.
fn print_too_long<W: Write>(output: &mut W) -> Result<(), AnswerFault>
    ensures { Prints result (W.contents output.old) (W.contents output.new) too_long_text }
{
    print_text(output, b"the line has more than ")?;
    print_number(output, MAX_LINE as u64)?;
    print_text(output, b" bytes\n")?;
    Ok(())
}

/// Prints a word in quotes, as a terminal may show it, and what is said of it.
pub(crate) fn print_quoted<W: Write>(
    alloc: Global,
    word: &[u8],
    said: &[u8],
    output: &mut W,
) -> Result<(), AnswerFault>
    ensures { Prints result (W.contents output.old) (W.contents output.new) (quoted_text word.now said.now) }
{
    let shown = shown_name(alloc, word)?;
    print_text(output, b"'")?;
    print_text(output, &shown)?;
    print_text(output, b"'")?;
    print_text(output, said)?;
    Ok(())
}

/// Prints that the plant has no connector with the name.
pub(crate) fn print_no_connector<W: Write>(
    alloc: Global,
    name: &[u8],
    output: &mut W,
) -> Result<(), AnswerFault>
    ensures { Prints result (W.contents output.old) (W.contents output.new) (no_connector_text name.now) }
{
    print_quoted(alloc, name, b" is no connector of the plant\n", output)
}

/// Prints a line as it is.
pub(crate) fn print_line<W: Write>(line: &[u8], output: &mut W) -> Result<(), AnswerFault>
    ensures { Prints result (W.contents output.old) (W.contents output.new) line.now }
{
    print_text(output, line)?;
    Ok(())
}
