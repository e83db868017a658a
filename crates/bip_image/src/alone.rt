//! A task of an image alone, where no plant is named.
use crate::ending::Ending;
use crate::files::{finish, room_for_line, view_at};
use crate::looking::inspect;
use command_line::LoneTask;
use disk_model::CELL;
use file_disk::NewFile;
use image_backup::{check_image, copy_image};
use std::fs::File;
use std::io::Write;
use std::rt::Files;

/// Does a task of the image at the path. It is only read.
pub(crate) fn work_alone<R: Files<File = File> + AllocGlobal, W: Write>(
    rt: &R,
    image: &str,
    task: LoneTask<'_>,
    output: &mut W,
) -> Result<(), Ending> {
    match task {
        LoneTask::Inspect(inspection) => inspect(rt, image, None, inspection, output),
        LoneTask::Backup(copy) => back_up(rt, image, copy, output),
    }
}

/// Copies the image at the path into a new file.
fn back_up<R: Files<File = File> + AllocGlobal, W: Write>(
    rt: &R,
    image: &str,
    copy: &str,
    output: &mut W,
) -> Result<(), Ending> {
    // The file of the copy is made where an image stands on the other, and only there.
    let (view, front) = check_image(view_at(rt, image)?)?;
    let mut said = room_for_line(rt.alloc())?;
    let new = NewFile::create(rt, copy, CELL * front.cells).map_err(Ending::of_new_file)?;
    let copied = match new.device() {
        Ok(disk) => match copy_image(view, disk, front, &mut said) {
            Ok(_devices) => Ok(()),
            Err(ending) => Err(ending.into()),
        },
        Err(fault) => Err(Ending::of_new_file(fault)),
    };
    finish(new, copied, Ending::of_new_file, &said, output)
}
