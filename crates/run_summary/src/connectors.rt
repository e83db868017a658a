//! The lines of connectors.
ghost use Rattle.std.specs.Prelude.{◌++◌, codes, map};
ghost use Rattle.plant_model.specs.Wire.{wire_of};
ghost use Rattle.run_text.specs.Seen.{Prints};
ghost use Rattle.text_io.specs.Numbered.{numbered};
ghost use Rattle.run_summary.specs.Lines.{connector_line, part_line};

use crate::counts::Counts;
use crate::listing::Listing;
use plant_model::Wire;
use std::io::Write;
use text_io::{WriteFault, print_text};

/// Prints the connectors that are listed.
pub(crate) fn print_connectors<W: Write>(
    listing: Listing,
    wires: &[Wire],
    counts: &Counts,
    output: &mut W,
) -> Result<(), WriteFault>
    ensures { Prints result (W.contents output.old) (W.contents output.new) (numbered (connector_line listing counts.now) 0 (map wire_of wires.now)) }
{
    for (number, wire) in wires.iter().enumerate() {
        print_connector(listing, wire.name.as_bytes(), counts.of(number), output)?;
    }
    Ok(())
}

/// Prints a connector of this name, if it is listed.
fn print_connector<W: Write>(
    listing: Listing,
    name: &[u8],
    count: u64,
    output: &mut W,
) -> Result<(), WriteFault>
    ensures { Prints result (W.contents output.old) (W.contents output.new) (part_line listing (codes "connector " ++ name.now) count) }
{
    if !listing.has(count) {
        return Ok(());
    }
    listing.print_before(output)?;
    print_text(output, b"connector ")?;
    print_text(output, name)?;
    listing.print_after(count, output)
}
