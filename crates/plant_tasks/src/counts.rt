//! The line of a plant's counts.
ghost use Rattle.std.specs.Prelude.{◌≡◌, length};
ghost use Rattle.run_text.specs.Seen.{Prints, plant_of};
ghost use Rattle.plant_tasks.specs.Printed.{counted, counts_line};

use plant_model::System;
use std::io::Write;
use text_io::{WriteFault, end_line, print_number, print_text};

/// Prints how many atoms, connectors, interactions and priority rules the plant has.
pub(crate) fn print_counts<W: Write>(system: &System, output: &mut W) -> Result<(), WriteFault>
    ensures { Prints result (W.contents output.old) (W.contents output.new) (counts_line (plant_of system.now)) }
{
    print_count(b"atoms ", atom_count(system), output)?;
    print_count(b" connectors ", connector_count(system), output)?;
    print_count(b" interactions ", system.interaction_count(), output)?;
    print_count(b" rules ", rule_count(system), output)?;
    end_line(output)?;
    Ok(())
}

/// Prints a count after the word for what is counted.
fn print_count<W: Write>(word: &[u8], count: usize, output: &mut W) -> Result<(), WriteFault>
    ensures { Prints result (W.contents output.old) (W.contents output.new) (counted word.now count) }
{
    print_text(output, word)?;
    print_number(output, count as u64)
}

/// How many atoms the plant has.
fn atom_count(system: &System) -> usize
    ensures { result ≡ length (plant_of system.now).atoms }
{
    system.atoms().len()
}

/// How many connectors the plant has.
fn connector_count(system: &System) -> usize
    ensures { result ≡ length (plant_of system.now).wires }
{
    system.wires().len()
}

/// How many priority rules the plant has.
fn rule_count(system: &System) -> usize
    ensures { result ≡ length (plant_of system.now).rules }
{
    system.rules().len()
}
