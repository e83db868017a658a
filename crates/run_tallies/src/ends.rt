//! The lines that tell how a run ended that is counted.
ghost use Rattle.std.specs.Prelude.{◌+◌, decimal};
ghost use Rattle.run_text.specs.Seen.{Prints};
ghost use Rattle.run_tallies.specs.Lines.{by_text, reached_line, seed_text};

use std::io::Write;
use text_io::{WriteFault, end_line, print_number, print_text};

/// Prints the seed of a run before its line, if it has one.
pub(crate) fn print_seed<W: Write>(seed: Option<u64>, output: &mut W) -> Result<(), WriteFault>
    ensures { Prints result (W.contents output.old) (W.contents output.new) (seed_text seed) }
{
    match seed {
        Some(seed) => {
            print_text(output, b"seed ")?;
            print_number(output, seed)?;
            print_text(output, b" ")
        }
        None => Ok(()),
    }
}

/// Prints that a run ended after so many fired interactions, since there holds what is watched at this place, from 0; the place is named if there are several.
pub(crate) fn print_reached<W: Write>(
    seed: Option<u64>,
    several: bool,
    fired: u64,
    watch: usize,
    output: &mut W,
) -> Result<(), WriteFault>
    ensures { Prints result (W.contents output.old) (W.contents output.new) (reached_line seed several fired watch) }
{
    print_seed(seed, output)?;
    print_text(output, b"reached ")?;
    print_number(output, fired)?;
    print_by(several, watch, output)?;
    end_line(output)
}

/// Prints the place of a watch, if there are several.
fn print_by<W: Write>(several: bool, watch: usize, output: &mut W) -> Result<(), WriteFault>
    ensures { Prints result (W.contents output.old) (W.contents output.new) (by_text several watch) }
{
    if !several {
        return Ok(());
    }
    print_text(output, b" by ")?;
    print_place(watch, output)
}

/// Prints the place of a watch, from 1.
fn print_place<W: Write>(watch: usize, output: &mut W) -> Result<(), WriteFault>
    ensures { Prints result (W.contents output.old) (W.contents output.new) (decimal (watch + 1)) }
{
    let place = watch as u128 + 1;
    write!(output, "{place}")?;
    Ok(())
}
