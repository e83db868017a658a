//! The copy of an image.
ghost use Rattle.std.specs.Prelude.{◌≡◌, ◌+◌, ◌*◌, ◌<◌, ◌≤◌, ℕ, true, false, take, drop, length, is_err, is_ok, IfErr, IfOk, OnOk, Err};
ghost use Rattle.std.specs.Io.KnownBytes.{Appends};
ghost use Rattle.disk_model.specs.DiskState.{Counts, CountsTwo, Reads, Syncs, Writes, size_of};
ghost use Rattle.disk_model.specs.declared.cells.TheConstants.{BODY};
ghost use Rattle.image_backup.specs.Copies.{AreCopied, HasCopied, IsEnding, copied_line};
ghost use Rattle.image_backup.specs.Faults.{IsFailure, copy_has_failed, has_failed};
ghost use Rattle.image_backup.specs.Fronts.{HasCells};
ghost use Rattle.image_backup.specs.declared.copying.BackupEnding.TheVariants.{Failed};
ghost use Rattle.image_backup.specs.declared.fault.BackupFault.{BackupFault};

use crate::fault::BackupFault;
use crate::front::ImageFront;
use disk_model::{BODY, CELL, CELL_LEN, Disk, DiskFault};
use std::io::Write;
use text_io::{WriteFault, end_line, hand_on, print_number, print_text};

/// Why copying an image ends early.
#[derive(Clone, Copy, Debug, PartialEq, Eq)]
pub enum BackupEnding {
    /// A device failed. Nothing was printed.
    Failed(BackupFault),
    /// The output could not be written. The copy is made.
    Unwritten,
}

impl From<WriteFault> for BackupEnding {
    ghost use Rattle.std.specs.Prelude.{◌≡◌};
    ghost use Rattle.image_backup.specs.declared.copying.BackupEnding.TheVariants.{Unwritten};

    ghost from_gives = { λ _ ending. ending ≡ Unwritten };

    fn from(_: WriteFault) -> Self {
        BackupEnding::Unwritten
    }
}

/// Copies the image to a device of the same size, whatever that held, syncs it, and prints how many cells were copied and how far they lead. The
/// image is only read.
pub fn copy_image<D: Disk + Drop, E: Disk + Drop, W: Write>(
    image: D,
    copy: E,
    front: ImageFront,
    output: &mut W,
) -> Result<(D, E), BackupEnding>
    requires image_size { HasCells front (D.state image) }
    requires copy_size { HasCells front (E.state copy) }
    ensures printed { OnOk result (Appends (W.contents output.old) (W.contents output.new) (copied_line front.cells front.last)) }
    ensures reads { IfOk result (λ pair. Reads false (D.state image) (D.state pair.0)) }
    ensures copied { (D.state image).keeps ≡ true → (E.state copy).keeps ≡ true → IfOk result (λ pair. HasCopied (D.state image) (E.state pair.1)) }
    ensures synced { IfOk result (λ pair. CountsTwo true (E.state copy) (E.state pair.1)) }
    ensures ending { IfErr result IsEnding }
    ensures nothing_printed { (fault : BackupFault) → result ≡ Err (Failed fault) → output.new ≡ output.old }
{
    let mut image = image;
    let mut copy = copy;
    if let Err(fault) = copy_all(&mut image, &mut copy, front.cells) {
        return Err(BackupEnding::Failed(fault));
    }
    print_copied(front, output)?;
    hand_on(output)?;
    Ok((image, copy))
}

/// Prints how many cells were copied, and the number of the last record.
fn print_copied<W: Write>(front: ImageFront, output: &mut W) -> Result<(), WriteFault>
    ensures { OnOk result (Appends (W.contents output.old) (W.contents output.new) (copied_line front.cells front.last)) }
{
    print_text(output, b"copied ")?;
    print_number(output, front.cells)?;
    print_text(output, b" front ")?;
    print_number(output, front.last)?;
    end_line(output)
}

/// Copies all bytes of so many cells. The first byte, the gate of the first cell, comes last: a stop before leaves what reads as never formatted.
fn copy_all<D: Disk, E: Disk>(image: &mut D, copy: &mut E, cells: u64) -> Result<(), BackupFault>
    requires some { 1 ≤ cells }
    requires image_size { size_of (D.state image.old) ≡ (BODY + 1) * cells }
    requires copy_size { size_of (E.state copy.old) ≡ (BODY + 1) * cells }
    ensures reads { Reads (has_failed result) (D.state image.old) (D.state image.new) }
    ensures counts { OnOk result (CountsTwo true (E.state copy.old) (E.state copy.new)) }
    ensures copied { (D.state image.old).keeps ≡ true → (E.state copy.old).keeps ≡ true → OnOk result (HasCopied (D.state image.old) (E.state copy.new)) }
    ensures failure { IfErr result IsFailure }
{
    copy_behind_gate(image, copy, cells)?;
    sync_copy(copy)?;
    let mut gate = [0];
    copy_part(image, copy, 0, &mut gate)?;
    sync_copy(copy)
}

/// Copies all bytes of so many cells but the first.
fn copy_behind_gate<D: Disk, E: Disk>(
    image: &mut D,
    copy: &mut E,
    cells: u64,
) -> Result<(), BackupFault>
    requires some { 1 ≤ cells }
    requires image_size { size_of (D.state image.old) ≡ (BODY + 1) * cells }
    requires copy_size { size_of (E.state copy.old) ≡ (BODY + 1) * cells }
    ensures reads { Reads (has_failed result) (D.state image.old) (D.state image.new) }
    ensures counts { Counts (copy_has_failed result) false (E.state copy.old) (E.state copy.new) }
    ensures copied { (D.state image.old).keeps ≡ true → (E.state copy.old).keeps ≡ true
        → OnOk result (AreCopied 1 ((BODY + 1) * cells) (D.state image.old) (E.state copy.new)) }
    ensures failure { IfErr result IsFailure }
{
    // The body of each cell with the gate of the next one, and then the last body.
    for k in 0..cells - 1 {
        let mut room = [0; CELL_LEN];
        copy_part(image, copy, CELL * k + 1, &mut room)?;
    }
    let mut body = [0; BODY];
    copy_part(image, copy, CELL * (cells - 1) + 1, &mut body)
}

/// Copies the bytes from number `at` on that fill the room.
fn copy_part<D: Disk, E: Disk>(
    image: &mut D,
    copy: &mut E,
    at: u64,
    room: &mut [u8],
) -> Result<(), BackupFault>
    requires inside { at + length room.old ≤ size_of (D.state image.old) }
    requires inside_copy { at + length room.old ≤ size_of (E.state copy.old) }
    ensures reads { Reads (has_failed result) (D.state image.old) (D.state image.new) }
    ensures counts { Counts (copy_has_failed result) false (E.state copy.old) (E.state copy.new) }
    ensures written { (D.state image.old).keeps ≡ true → (E.state copy.old).keeps ≡ true
        → OnOk result (Writes at (take (length room.old) (drop at (D.state image.old).now.seen)) (E.state copy.old) (E.state copy.new)) }
    ensures failure { IfErr result IsFailure }
{
    image.read_at(at, room)?;
    match copy.write_at(at, room) {
        Ok(()) => Ok(()),
        Err(_) => Err(BackupFault::CopyDisk),
    }
}

/// Puts what was copied onto the disk.
fn sync_copy<E: Disk>(copy: &mut E) -> Result<(), BackupFault>
    ensures counts { Counts (is_err result) (is_ok result) (E.state copy.old) (E.state copy.new) }
    ensures synced { (E.state copy.old).keeps ≡ true → OnOk result (Syncs (E.state copy.old) (E.state copy.new)) }
    ensures failed { copy_has_failed result ≡ is_err result }
    ensures failure { IfErr result IsFailure }
{
    match copy.sync() {
        Ok(()) => Ok(()),
        Err(DiskFault) => Err(BackupFault::CopyDisk),
    }
}
