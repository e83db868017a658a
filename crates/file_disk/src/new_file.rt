//! How a new file becomes a device: it is made under a name of its own, and takes the name that it is for once it is whole.
//!
//! So no stop leaves a part of it under that name, and no file that has the name is ever changed. A stop may leave the other name: of a part, or of
//! the file that has its own name already. Whoever makes the file next takes that away, unless a program has it locked.
ghost use Rattle.std.specs.Prelude.{◌≡◌, ◌<◌, ◌≤◌, true, false, IfOk, IfErr, Err};
ghost use Rattle.file_disk.specs.FileDisk.{state_of, IsUnread};
ghost use Rattle.file_disk.specs.Opened.{opened};
ghost use Rattle.file_disk.specs.Faults.{IsOfSystem, IsOfMaking, IsOfNaming, StopsCreating};
ghost use Rattle.file_disk.specs.declared.fault.FileFault.TheVariants.{TooLarge};
ghost use Rattle.file_disk.specs.declared.marks.TheConstants.{LARGEST_IMAGE};

use crate::image_file::FileIdentity;
use crate::opening::{device_over, fault_of, identity_of, lock, open_file, sync_folder_of};
use crate::{FileDisk, FileFault, ImageFile, LARGEST_IMAGE};
use std::alloc::{AllocError, Global};
use std::fs;
use std::fs::File;
use std::io::{self, ErrorKind};
use std::os::unix::fs::FileExt;
use std::rt::Files;

/// The bytes of one write of zeros.
const ZEROS: usize = 4_096;

/// What the name of a file that is being made has after the name that it is to take.
const SUFFIX: &str = ".kilnmace-unfinished";

/// A file that is being made for a path: it is locked, and has another name beside the path. It either takes its name or is given up.
pub struct NewFile<'a, R> {
    files: &'a R,
    file: File,
    path: &'a str,
    made: String,
    identity: FileIdentity,
    ghost small: { identity.bytes ≤ LARGEST_IMAGE },
}

impl<'a, R: Files<File = File> + AllocGlobal> NewFile<'a, R> {
    ghost use Rattle.file_disk.specs.NewFile.{bytes_of};

    /// Makes a file of so many bytes, all zero, for a path where nothing is. What a stop left of an earlier one is taken away in any case.
    //
    // The zeros are written, and not left out as they may be: so the disk has the room, and no later write asks for it.
    pub fn create(files: &'a R, path: &'a str, bytes: u64) -> Result<NewFile<'a, R>, FileFault>
        ensures size { IfOk result (λ new. bytes_of new ≡ bytes) }
        ensures too_large { LARGEST_IMAGE < bytes → result ≡ Err TooLarge }
        ensures cause { IfErr result (StopsCreating bytes) }
    {
        if bytes > LARGEST_IMAGE {
            return Err(FileFault::TooLarge);
        }
        if let Err(fault) = is_free(files, path) {
            take_away_left(files, path);
            return Err(fault);
        }
        let made = other_name(files.alloc(), path).map_err(|_| FileFault::Memory)?;
        let file = claimed(files, &made)?;
        match make(files, &file, &made, bytes) {
            Ok(identity) => Ok(NewFile {
                files,
                file,
                path,
                made,
                identity,
            }),
            Err(fault) => {
                if fault != FileFault::InUse {
                    take_away(files, &made);
                }
                Err(fault)
            }
        }
    }

    /// A device over it, which is to be let go before the file takes its name.
    pub fn device(&self) -> Result<FileDisk<ImageFile<'a, R>>, FileFault>
        ensures device { IfOk result (λ disk. state_of disk ≡ opened (bytes_of self.now)) }
        ensures unread { IfOk result IsUnread }
        ensures cause { IfErr result (StopsCreating (bytes_of self.now)) }
    {
        let Ok(file) = self.file.try_clone() else {
            return Err(FileFault::Unopened);
        };
        device_over(self.files, file, &self.made, self.identity).map_err(|_| FileFault::Memory)
    }

    /// Gives it the name that it is for, if nothing has that by now. After Ok the name is on the disk. Else neither name is left.
    pub fn take_name(self) -> Result<(), FileFault>
        ensures { IfErr result IsOfNaming }
    {
        let NewFile {
            files,
            file: _locked,
            path,
            made,
            identity,
        } = self;
        let named = name(files, &made, path, identity);
        take_away(files, &made);
        named
    }

    /// Takes it away.
    pub fn give_up(self) {
        let NewFile {
            files,
            file: _locked,
            path: _path,
            made,
            identity: _identity,
        } = self;
        take_away(files, &made);
    }
}

/// Takes away what a stop left of a file that was being made for the path, unless a program has it locked.
fn take_away_left<R: Files<File = File> + AllocGlobal>(files: &R, path: &str) {
    if let Ok(made) = other_name(files.alloc(), path) {
        let _ = take_away_unlocked(files, &made);
    }
}

/// The name that a file has while it is made for the path.
fn other_name(alloc: Global, path: &str) -> Result<String, AllocError> {
    let mut made = String::from_str(alloc, path)?;
    made.push_str(SUFFIX)?;
    Ok(made)
}

/// Refuses a path where something is.
fn is_free<R: Files>(files: &R, path: &str) -> Result<(), FileFault>
    ensures { IfErr result (IsOfSystem true) }
{
    match fs::symlink_metadata(files, path) {
        Ok(_) => Err(FileFault::AlreadyThere),
        Err(error) if error.kind() == ErrorKind::NotFound => Ok(()),
        Err(error) => Err(fault_of(error.kind(), true)),
    }
}

/// A new file with this name. What a stop left there is taken away before.
fn claimed<R: Files<File = File>>(files: &R, made: &str) -> Result<File, FileFault>
    ensures { IfErr result IsOfMaking }
{
    match open_file(files, made, true) {
        Err(FileFault::AlreadyThere) => {}
        opened => return opened,
    }
    take_away_unlocked(files, made)?;
    match open_file(files, made, true) {
        // Another program was faster.
        Err(FileFault::AlreadyThere) => Err(FileFault::InUse),
        opened => opened,
    }
}

/// Takes away the file with this name, unless a program has it locked.
fn take_away_unlocked<R: Files<File = File>>(files: &R, made: &str) -> Result<(), FileFault>
    ensures { IfErr result IsOfMaking }
{
    let file = open_file(files, made, false)?;
    lock(file.try_lock())?;
    // Another program may have taken it away before the lock, and begun a file of its own.
    if !identity_of(&file)?.is_at(files, made) {
        return Err(FileFault::InUse);
    }
    take_away(files, made);
    Ok(())
}

/// Takes a name away. If that fails it stays, which harms nothing.
fn take_away<R: Files>(files: &R, name: &str) {
    let _ = fs::remove_file(files, name);
}

/// Locks a new file and fills it with zeros, and says which one it is.
fn make<R: Files>(files: &R, file: &File, made: &str, bytes: u64) -> Result<FileIdentity, FileFault>
    ensures size { IfOk result (λ identity. identity.bytes ≡ bytes) }
    ensures cause { IfErr result IsOfMaking }
{
    lock(file.try_lock())?;
    // One that took it for what a stop had left may have been faster than the lock.
    if !identity_of(file)?.is_at(files, made) {
        return Err(FileFault::InUse);
    }
    if fill(file, bytes).is_err() {
        return Err(FileFault::Unmade);
    }
    let identity = identity_of(file)?;
    if identity.bytes != bytes {
        return Err(FileFault::Unmade);
    }
    Ok(identity)
}

/// Fills a new file with zeros, and puts them onto the disk.
fn fill(file: &File, bytes: u64) -> io::Result<()> {
    let zeros = [0; ZEROS];
    for part in 0..bytes.div_ceil(ZEROS as u64) {
        let at = ZEROS as u64 * part;
        let count = bytes.saturating_sub(at).min(ZEROS as u64) as usize;
        file.write_all_at(&zeros[..count], at)?;
    }
    file.sync_all()
}

/// Gives the file that has the name `made` the path's name too, and puts that onto the disk.
fn name<R: Files<File = File>>(
    files: &R,
    made: &str,
    path: &str,
    identity: FileIdentity,
) -> Result<(), FileFault>
    ensures { IfErr result IsOfNaming }
{
    if !identity.is_at(files, made) {
        return Err(FileFault::Unnamed);
    }
    match link(files, made, path) {
        Ok(()) => {}
        Err(error) if error.kind() == ErrorKind::AlreadyExists => {
            return Err(FileFault::AlreadyThere);
        }
        Err(_) => return Err(FileFault::Unnamed),
    }
    if sync_folder_of(files, path).is_err() {
        take_away(files, path);
        return Err(FileFault::Unnamed);
    }
    Ok(())
}

/// Gives a file a second name, where nothing has it.
fn link<R: Files>(files: &R, made: &str, path: &str) -> io::Result<()> {
    match fs::hard_link(files, made, path) {
        Err(error) if has_no_links(error.kind()) => {
            if fs::symlink_metadata(files, path).is_ok() {
                return Err(ErrorKind::AlreadyExists.into());
            }
            fs::rename(files, made, path)
        }
        linked => linked,
    }
}

/// Whether a file system says by this that a file of it has one name alone.
fn has_no_links(kind: ErrorKind) -> bool {
    kind == ErrorKind::PermissionDenied || kind == ErrorKind::Unsupported
}
