//! A look into an image.
ghost use Rattle.std.specs.Prelude.{◌≡◌, ◌≢◌, Bool, true, false, IfOk, OnOk, OnErr, Err};
ghost use Rattle.bip_image.specs.Care.{is_in_doubt};
ghost use Rattle.disk_model.specs.DiskState.{Reads};
ghost use Rattle.command_line.specs.declared.request.Care.TheVariants.{Careful};

use crate::aside::Aside;
use crate::ending::Ending;
use crate::files::view_at;
use command_line::{Care, Inspection};
use disk_model::{Cells, Disk, DiskFault};
use file_disk::{FileFault, FileView};
use image_commands::{ImageEnding, ImageRefusal};
use image_inspection::{InspectionEnding, ReadCells, Shown, inspect_image, print_reason};
use plant_model::System;
use std::alloc::Global;
use std::fs::File;
use std::io::Write;
use std::rt::Files;
use text_io::{WriteFault, end_line, print_number, print_text};

/// Prints what the image at the path says, by the plant's names if there is one. It is only read. If a boot would refuse it, or there is a doubt, the task
/// ends early.
// It has a frame of its own, so that the other tasks need no more stack for the cells that it reads.
#[inline(never)]
pub(crate) fn inspect<R: Files<File = File> + AllocGlobal, W: Write>(
    rt: &R,
    image: &str,
    plant: Option<&System>,
    inspection: Inspection,
    output: &mut W,
) -> Result<(), Ending> {
    let shown = Shown {
        records: inspection.records,
        states: inspection.states,
    };
    let mut cells = Cells::new(view_at(rt, image)?);
    let verdict = inspect_image(rt.alloc(), plant, shown, &mut cells, output)?;
    if verdict.exit_status() == 0 {
        Ok(())
    } else {
        Err(Ending::Doubted)
    }
}

/// The device again, after a look into its image for a start of the plant. With care an image about which there is a doubt is refused.
pub(crate) fn looked_into<R: Eprint + AllocGlobal, D: Disk + Drop>(
    rt: &R,
    system: &System,
    disk: D,
    care: Care,
) -> Result<D, Ending>
    ensures only_read { IfOk result (λ left. Reads false (D.state disk) (D.state left)) }
    ensures careful { care ≡ Careful → (D.state disk).keeps ≡ true → OnOk result (is_in_doubt system.now (D.state disk) ≡ false) }
    ensures cause { result ≡ Err Ending.Careful → care ≡ Careful }
{
    let mut cells = Cells::new(disk);
    look_into(rt, system, &mut cells, care)?;
    Ok(cells.into_disk())
}

/// Tells on the standard error which full cells a start from the image empties, and each doubt about it. With care an image is refused if there is a doubt. One that can't be
/// looked into, since the device fails or memory is lacking, is refused as a boot would refuse it. Of an image that a boot refuses nothing is told: the boot says what is
/// wrong. In any case the image is only read.
// It has a frame of its own, as `inspect` has.
#[inline(never)]
fn look_into<R: Eprint + AllocGlobal, C: ReadCells>(
    rt: &R,
    system: &System,
    cells: &mut C,
    care: Care,
) -> Result<(), Ending>
    ensures read { OnOk result (Reads false (C.state cells.old) (C.state cells.new)) }
    ensures read_or_failed { OnErr result ((failed : Bool) × Reads failed (C.state cells.old) (C.state cells.new)) }
    ensures careful { care ≡ Careful → (C.state cells.old).keeps ≡ true → OnOk result (is_in_doubt system.now (C.state cells.old) ≡ false) }
    ensures cause { result ≡ Err Ending.Careful → care ≡ Careful }
{
    let mut looked = Vec::new(rt.alloc());
    let shown = Shown {
        records: false,
        states: false,
    };
    let verdict = match inspect_image(rt.alloc(), Some(system), shown, cells, &mut looked) {
        Ok(verdict) => verdict,
        Err(ending) => return Err(unseen(ending)),
    };
    if verdict.fault.is_none() {
        tell_doubts(rt, &looked);
        if care == Care::Careful && verdict.doubtful {
            return Err(Ending::Careful);
        }
    }
    Ok(())
}

/// Tells the lines of a look into an image that speak of full cells which a start empties, and of doubts.
fn tell_doubts<R: Eprint>(rt: &R, looked: &[u8]) {
    for line in str::from_utf8(looked).unwrap_or("").lines() {
        if line.starts_with("doubt: ") || line.starts_with("open cell ") {
            let _ = eprintln!(rt; "{line}");
        }
    }
}

/// The ending where an image is not looked into before a start. What is told is gathered in memory first, so that is lacking if it can't be written.
fn unseen(ending: InspectionEnding) -> Ending
    ensures { result ≢ Ending.Careful }
{
    match ending {
        InspectionEnding::Disk => Ending::Image(ImageEnding::Refused(ImageRefusal::Disk)),
        InspectionEnding::Memory | InspectionEnding::Unwritten => {
            Ending::of_image_file(FileFault::Memory)
        }
    }
}

/// Puts aside what more is told of the image at the path, which is refused. For want of memory, or if it can't be read, it stays untold.
// It has a frame of its own, as `inspect` has.
#[inline(never)]
pub(crate) fn note_reason<R: Files<File = File> + AllocGlobal>(
    rt: &R,
    image: &str,
    plant: Option<&System>,
    aside: &mut Aside,
) {
    let Ok(view) = FileView::open(rt, image) else {
        return;
    };
    let mut reason = Vec::new(rt.alloc());
    if print_reason(rt.alloc(), plant, &mut Cells::new(view), &mut reason).is_ok() {
        aside.reason = reason;
    }
}

/// Puts aside how many bytes a file has that is to become an image, and how many the image has, if these differ.
pub(crate) fn note_sizes(
    alloc: Global,
    found: Result<u64, DiskFault>,
    wanted: u64,
    reason: &mut Vec<u8>,
) {
    if let Ok(bytes) = found
        && bytes != wanted
    {
        let mut sizes = Vec::new(alloc);
        if print_sizes(bytes, wanted, &mut sizes).is_ok() {
            *reason = sizes;
        }
    }
}

/// Prints how many bytes the file has, and how many the image.
fn print_sizes(bytes: u64, wanted: u64, output: &mut Vec<u8>) -> Result<(), WriteFault> {
    print_text(output, b"  the file has ")?;
    print_number(output, bytes)?;
    print_text(output, b" bytes, the new image ")?;
    print_number(output, wanted)?;
    end_line(output)
}
