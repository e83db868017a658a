//! How runs end that are counted, and the summary behind them.
ghost use Rattle.run_text.specs.Seen.{plant_of};
ghost use Rattle.run_summary.specs.Lines.{summary_text};
ghost use Rattle.run_tallies.specs.Outcome.{IsBehind};

use plant_model::System;
use run_summary::Summary;
use run_text::TraceFault;
use std::io::Write;

/// Prints the summary behind runs that ended so, unless memory, a writer or the source of the picks failed.
pub(crate) fn with_summary<X: Copy, W: Write>(
    ran: Result<X, TraceFault>,
    summary: &Summary,
    system: &System,
    asked: Option<u64>,
    output: &mut W,
) -> Result<X, TraceFault>
    ensures { IsBehind W.contents (summary_text (plant_of system.now) asked summary.now) ran result output.old output.new }
{
    match ran {
        Ok(value) => {
            summary.print_summary(system, asked, output)?;
            Ok(value)
        }
        Err(TraceFault::Refused(refusal)) => {
            summary.print_summary(system, asked, output)?;
            Err(TraceFault::Refused(refusal))
        }
        Err(fault) => Err(fault),
    }
}
