//! The files of images.
use crate::aside::Noted;
use crate::ending::Ending;
use crate::watched_disk::WatchedDisk;
use command_line::IfThere;
use file_disk::{FileDisk, FileFault, FileView, ImageFile, NewFile, SharedFile};
use image_commands::ImageEnding;
use std::alloc::Global;
use std::fs::File;
use std::io::Write;
use std::rt::Files;
use text_io::{hand_on, print_text};

/// The image that is at the path. Which file it is and why it fails are noted.
pub(crate) fn device_at<'a, 'n, R: Files<File = File> + AllocGlobal>(
    rt: &'a R,
    path: &str,
    noted: &'n Noted,
) -> Result<WatchedDisk<'a, 'n, R>, Ending> {
    let disk = ImageFile::open(rt, path).map_err(Ending::of_image_file)?;
    noted.file.set(Some(disk.file().identity()));
    Ok(WatchedDisk::new(disk, noted))
}

/// The same of an image that is only to be read.
pub(crate) fn device_to_read<'a, 'n, R: Files<File = File> + AllocGlobal>(
    rt: &'a R,
    path: &str,
    noted: &'n Noted,
) -> Result<WatchedDisk<'a, 'n, R>, Ending> {
    let disk = ImageFile::open_to_read(rt, path).map_err(Ending::of_image_file)?;
    Ok(WatchedDisk::new(disk, noted))
}

/// The image that is at the path as a device that threads may share. Which file it is is noted, and not why it fails.
pub(crate) fn shared_at<R: Files<File = File> + AllocGlobal>(
    rt: &R,
    path: &str,
    noted: &Noted,
) -> Result<FileDisk<SharedFile>, Ending> {
    let (disk, identity) = SharedFile::open(rt, path).map_err(Ending::of_image_file)?;
    noted.file.set(Some(identity));
    Ok(disk)
}

/// The image that is at the path, to be read alone.
pub(crate) fn view_at<R: Files<File = File>>(rt: &R, path: &str) -> Result<FileView, Ending> {
    FileView::open(rt, path).map_err(Ending::ImageUnopened)
}

/// Where an image is made.
pub(crate) enum Place<'a, R> {
    /// In a file that is there, and is opened.
    There(FileDisk<ImageFile<'a, R>>),
    /// In a new one, which has its name once it is whole.
    New(NewFile<'a, R>),
}

/// Where an image of so many bytes is made for the path.
pub(crate) fn place_at<'a, R: Files<File = File> + AllocGlobal>(
    rt: &'a R,
    path: &'a str,
    bytes: u64,
    if_there: IfThere,
) -> Result<Place<'a, R>, FileFault> {
    match NewFile::create(rt, path, bytes) {
        Err(FileFault::AlreadyThere) if if_there == IfThere::Formatted => {
            Ok(Place::There(ImageFile::open(rt, path)?))
        }
        made => Ok(Place::New(made?)),
    }
}

/// The most bytes of the line that says that an image was made.
const LINE: usize = 64;

/// Memory for the line that says that an image was made.
pub(crate) fn room_for_line(alloc: Global) -> Result<Vec<u8>, Ending> {
    match Vec::with_capacity(alloc, LINE) {
        Ok(room) => Ok(room),
        Err(_) => Err(Ending::of_image_file(FileFault::Memory)),
    }
}

/// Gives the new file its name, if it was made whole, and then prints what was said of it. Else it is taken away.
pub(crate) fn finish<R: Files<File = File> + AllocGlobal, F: FnOnce(FileFault) -> Ending, W: Write>(
    new: NewFile<'_, R>,
    made: Result<(), Ending>,
    unnamed: F,
    said: &[u8],
    output: &mut W,
) -> Result<(), Ending>
    requires { F.IsAlwaysCallable unnamed }
{
    if let Err(ending) = made {
        new.give_up();
        return Err(ending);
    }
    new.take_name().map_err(unnamed)?;
    print_text(output, said).map_err(|_| ImageEnding::Unwritten)?;
    hand_on(output).map_err(|_| ImageEnding::Unwritten)?;
    Ok(())
}
