//! The line of a trial.
ghost use Rattle.std.specs.Prelude.{◌≡◌, OnOk};
ghost use Rattle.std.specs.Io.KnownBytes.{Appends};
ghost use Rattle.image_commands.specs.Trials.{cut_text, explored_line, found_text, is_unformatted, mark_text, next_text, tear_text, trial_line};

use crate::refusal::ImageRefusal;
use crash_explorer::{Cut, Found, Next, Trial};
use disk_model::Tear;
use plant_image::ImageFault;
use std::io::Write;
use text_io::{WriteFault, end_line, print_number, print_text};

/// Prints the line of a trial.
pub(crate) fn print_trial<W: Write>(trial: &Trial, output: &mut W) -> Result<(), WriteFault>
    ensures { OnOk result (Appends (W.contents output.old) (W.contents output.new) (trial_line trial.now)) }
{
    print_mark(trial.right, output)?;
    print_text(output, b"stop ")?;
    print_number(output, trial.stop)?;
    print_text(output, b" ")?;
    print_cut(trial.cut, output)?;
    print_text(output, b", torn ")?;
    print_tear(trial.tear, output)?;
    print_text(output, b": ")?;
    print_found(trial.found, output)?;
    print_text(output, b", acknowledged ")?;
    print_number(output, trial.acked)?;
    print_next(trial.next, output)?;
    end_line(output)
}

/// Prints what stands in front of the line of a trial that is not right.
fn print_mark<W: Write>(right: bool, output: &mut W) -> Result<(), WriteFault>
    ensures { OnOk result (Appends (W.contents output.old) (W.contents output.new) (mark_text right)) }
{
    print_text(output, if right { b"" } else { b"NOT RIGHT: " })
}

/// Prints the call of the device that a stop fell in.
fn print_cut<W: Write>(cut: Cut, output: &mut W) -> Result<(), WriteFault>
    ensures { OnOk result (Appends (W.contents output.old) (W.contents output.new) (cut_text cut)) }
{
    match cut {
        Cut::Gate(cell) => write!(output, "write gate of cell {cell}")?,
        Cut::Body(cell) => write!(output, "write body of cell {cell}")?,
        Cut::Sync => write!(output, "sync")?,
    }
    Ok(())
}

/// Prints how what was not synced was torn.
fn print_tear<W: Write>(tear: Tear, output: &mut W) -> Result<(), WriteFault>
    ensures { OnOk result (Appends (W.contents output.old) (W.contents output.new) (tear_text tear)) }
{
    match tear {
        Tear::Old => print_text(output, b"Old"),
        Tear::New => print_text(output, b"New"),
        Tear::Gates => print_text(output, b"Gates"),
        Tear::Mixed => print_text(output, b"Mixed"),
    }
}

/// Prints what the device boots to that a stop left.
fn print_found<W: Write>(found: Found, output: &mut W) -> Result<(), WriteFault>
    ensures { OnOk result (Appends (W.contents output.old) (W.contents output.new) (found_text found)) }
{
    match found {
        Found::Booted(fired) => {
            print_text(output, b"boots to ")?;
            print_number(output, fired)
        }
        Found::Refused(fault) if is_unformatted(fault) => {
            print_text(output, b"reads as never formatted")
        }
        Found::Refused(fault) => {
            write!(output, "does not boot ({})", ImageRefusal::Image(fault))?;
            Ok(())
        }
    }
}

/// Whether the image was never formatted.
fn is_unformatted(fault: ImageFault) -> bool
    ensures { result ≡ is_unformatted fault }
{
    matches!(fault, ImageFault::NotFormatted)
}

/// Prints how the plant went on that was booted, where that is not right.
fn print_next<W: Write>(next: Option<Next>, output: &mut W) -> Result<(), WriteFault>
    ensures { OnOk result (Appends (W.contents output.old) (W.contents output.new) (next_text next)) }
{
    let Some(next) = next else {
        return Ok(());
    };
    if next.right {
        return Ok(());
    }
    print_text(output, b", then with ")?;
    print_number(output, next.fired)?;
    print_text(output, b" more: ")?;
    print_found(next.found, output)
}

/// Prints how many stops a run has, how many devices were booted, and how many of these were not right.
pub(crate) fn print_explored<W: Write>(
    stops: u64,
    boots: u64,
    wrong: u64,
    output: &mut W,
) -> Result<(), WriteFault>
    ensures { OnOk result (Appends (W.contents output.old) (W.contents output.new) (explored_line stops boots wrong)) }
{
    writeln!(output, "stops {stops} boots {boots} bad {wrong}")?;
    Ok(())
}
