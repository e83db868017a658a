//! How a file that is there becomes a device.
ghost use Rattle.std.specs.Prelude.{◌≡◌, false, IfOk, IfErr};
ghost use Rattle.file_disk.specs.FileDisk.{state_of, IsUnread, IsUnwritten};
ghost use Rattle.file_disk.specs.FileView.{view_of};
ghost use Rattle.file_disk.specs.Opened.{opened};
ghost use Rattle.file_disk.specs.Faults.{IsOfSystem, IsOfKind, IsOfLock, StopsOpening, StopsReading};
ghost use Rattle.disk_model.specs.DiskState.{size_of};
ghost use Rattle.file_disk.specs.declared.fault.FileFault.TheVariants.{Unnamed};

use crate::disk::room_for;
use crate::image_file::FileIdentity;
use crate::{FileDisk, FileFault, FileView, ImageFile, SharedFile};
use std::alloc::{AllocError, Global};
use std::fs;
use std::fs::{File, OpenOptions, TryLockError};
use std::io::{self, ErrorKind};
use std::os::fd::AsRawFd;
use std::path::Path;
use std::rt::Files;

impl<'a, R: Files<File = File> + AllocGlobal> ImageFile<'a, R> {
    /// Opens the file at the path as a device. The first sync writes all of it anew, so that what it gives from then on is on the disk,
    /// whatever programs before this one could not put there.
    pub fn open(files: &'a R, path: &str) -> Result<FileDisk<ImageFile<'a, R>>, FileFault>
        ensures device { IfOk result (λ disk. state_of disk ≡ opened (size_of (state_of disk))) }
        ensures unread { IfOk result IsUnread }
        ensures cause { IfErr result StopsOpening }
    {
        let file = open_file(files, path, false)?;
        lock(file.try_lock())?;
        let identity = identity_of(&file)?;
        // A stop may have left the file with a name that is not on the disk yet.
        confirm_name(files, path)?;
        device_over(files, file, path, identity).map_err(|_| FileFault::Memory)
    }

    /// Opens the file at the path as a device that is only to be read: its first sync writes nothing. What a read gives is supposed to be on the
    /// disk.
    pub fn open_to_read(files: &'a R, path: &str) -> Result<FileDisk<ImageFile<'a, R>>, FileFault>
        ensures device { IfOk result (λ disk. state_of disk ≡ opened (size_of (state_of disk))) }
        ensures unwritten { IfOk result IsUnwritten }
        ensures cause { IfErr result StopsOpening }
    {
        let mut disk = ImageFile::open(files, path)?;
        disk.suppose_saved();
        Ok(disk)
    }
}

impl SharedFile {
    /// Opens the file at the path as a device that threads may share, and says which file it is. The first sync writes all of it anew, as of any opened file.
    pub fn open<R: Files<File = File> + AllocGlobal>(
        files: &R,
        path: &str,
    ) -> Result<(FileDisk<SharedFile>, FileIdentity), FileFault>
        ensures device { IfOk result (λ opening. state_of opening.0 ≡ opened (size_of (state_of opening.0))) }
        ensures unread { IfOk result (λ opening. IsUnread opening.0) }
        ensures cause { IfErr result StopsOpening }
    {
        let file = open_file(files, path, false)?;
        lock(file.try_lock())?;
        let identity = identity_of(&file)?;
        // As of a file that the program's own thread drives.
        confirm_name(files, path)?;
        match room_for(files.alloc(), identity.bytes) {
            Ok(gathered) => {
                let file = SharedFile::new(file);
                Ok((FileDisk::with(file, identity.bytes, gathered), identity))
            }
            Err(_) => Err(FileFault::Memory),
        }
    }
}

/// A device over the open file, which is locked, at the path.
pub(crate) fn device_over<'a, R: Files<File = File> + AllocGlobal>(
    files: &'a R,
    file: File,
    path: &str,
    identity: FileIdentity,
) -> Result<FileDisk<ImageFile<'a, R>>, AllocError>
    ensures device { IfOk result (λ disk. state_of disk ≡ opened identity.bytes) }
    ensures unread { IfOk result IsUnread }
{
    let alloc = files.alloc();
    let gathered = room_for(alloc, identity.bytes)?;
    let file = ImageFile::new(files, file, path, identity)?;
    Ok(FileDisk::with(file, identity.bytes, gathered))
}

impl FileView {
    /// Opens the file at the path for reading alone, also where nothing can be written. A program that has it open as a `FileDisk` refuses this, and
    /// is refused while the view is open. What earlier programs wrote and did not sync is read, but may not be on the disk yet.
    pub fn open<R: Files<File = File>>(files: &R, path: &str) -> Result<FileView, FileFault>
        ensures device { IfOk result (λ view. view_of view ≡ opened (size_of (view_of view))) }
        ensures cause { IfErr result StopsReading }
    {
        let file = open_to_read(files, path)?;
        // A shared lock: a file system of a network has no other one for a file that is open for reading alone.
        lock(file.try_lock_shared())?;
        let identity = identity_of(&file)?;
        Ok(FileView::over(file, identity.bytes))
    }
}

/// Puts the name of a file that is there onto the disk, from which a stop may have kept it. A folder that this program may not read is passed over, and so is one that
/// its file system can't sync: neither is a reason not to go on with the file.
fn confirm_name<R: Files<File = File>>(files: &R, path: &str) -> Result<(), FileFault>
    ensures { IfErr result (λ fault. fault ≡ Unnamed) }
{
    match sync_folder_of(files, path) {
        Ok(()) => Ok(()),
        Err(error) if is_passed_over(error.kind()) => Ok(()),
        Err(_) => Err(FileFault::Unnamed),
    }
}

/// Whether a system says by this that the folder can't be synced by this program, or at all.
fn is_passed_over(kind: ErrorKind) -> bool {
    kind == ErrorKind::PermissionDenied || kind == ErrorKind::InvalidInput
}

/// Puts the names in the folder of the path onto the disk.
pub(crate) fn sync_folder_of<R: Files<File = File>>(files: &R, path: &str) -> io::Result<()> {
    File::open(files, folder_of(path))?.sync_all()
}

/// The folder in which the file at the path is.
fn folder_of(path: &str) -> &str {
    match Path::new(path).parent() {
        Some(folder) if !folder.as_str().is_empty() => folder.as_str(),
        _ => ".",
    }
}

/// Opens the file at the path to read and to write, or makes it.
pub(crate) fn open_file<R: Files<File = File>>(
    files: &R,
    path: &str,
    is_new: bool,
) -> Result<File, FileFault>
    ensures { IfErr result (IsOfSystem is_new) }
{
    let mut options = OpenOptions::new();
    options.read(true).write(true).create_new(is_new);
    open_by(files, path, &options, is_new)
}

/// Opens the file at the path to read it.
fn open_to_read<R: Files<File = File>>(files: &R, path: &str) -> Result<File, FileFault>
    ensures { IfErr result (IsOfSystem false) }
{
    // To open a pipe for reading alone would wait for one that writes.
    if let Ok(metadata) = fs::metadata(files, path)
        && !metadata.is_file()
    {
        return Err(FileFault::NotAFile);
    }
    let mut options = OpenOptions::new();
    options.read(true);
    open_by(files, path, &options, false)
}

/// Opens the file at the path as the options say.
fn open_by<R: Files<File = File>>(
    files: &R,
    path: &str,
    options: &OpenOptions,
    is_new: bool,
) -> Result<File, FileFault>
    ensures { IfErr result (IsOfSystem is_new) }
{
    match options.open(files, path).and_then(apart) {
        Ok(file) => Ok(file),
        Err(error) => Err(fault_of(error.kind(), is_new)),
    }
}

/// The fault if the system does not open a file.
pub(crate) fn fault_of(kind: ErrorKind, is_new: bool) -> FileFault
    ensures { IsOfSystem is_new result }
{
    match kind {
        ErrorKind::AlreadyExists if is_new => FileFault::AlreadyThere,
        ErrorKind::NotFound | ErrorKind::NotADirectory => FileFault::NotThere,
        ErrorKind::PermissionDenied | ErrorKind::ReadOnlyFilesystem => FileFault::NotAllowed,
        ErrorKind::IsADirectory => FileFault::NotAFile,
        _ => FileFault::Unopened,
    }
}

/// The same file, with a number that no standard stream has: in a program that was started with one closed, what is
/// printed would else go into the image.
fn apart(file: File) -> io::Result<File> {
    if file.as_raw_fd() > 2 {
        return Ok(file);
    }
    file.try_clone()
}

/// Which file it is, if it is a plain one.
pub(crate) fn identity_of(file: &File) -> Result<FileIdentity, FileFault>
    ensures { IfErr result IsOfKind }
{
    let Ok(metadata) = file.metadata() else {
        return Err(FileFault::Unopened);
    };
    if !metadata.is_file() {
        return Err(FileFault::NotAFile);
    }
    Ok(FileIdentity::of(&metadata))
}

/// What the system answers to one that asks to have a file locked until it is dropped.
pub(crate) fn lock(answer: Result<(), TryLockError>) -> Result<(), FileFault>
    ensures { IfErr result IsOfLock }
{
    match answer {
        Ok(()) => Ok(()),
        Err(TryLockError::WouldBlock) => Err(FileFault::InUse),
        Err(TryLockError::Error(_)) => Err(FileFault::Unlocked),
    }
}
