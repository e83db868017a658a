//! The plant of a text, and its image.
use crate::ending::Ending;
use disk_model::CELL;
use file_disk::{FileDisk, FileFault, ImageFile, NewFile};
use plant_core::Plant;
use plant_model::System;
use plant_text::read_plant;
use record_codec::ring::device_cells;
use recovery::{boot, format};
use std::fs;
use std::fs::File;
use std::rt::Files;

/// For how many records a new image has room. A plant with fewer is saved more often, and one with more takes a larger file: 1,024 bytes for each.
const RING: u32 = 64;

/// The plant whose text is in the file at the path.
pub(crate) fn plant_at<R: Files<File = File> + AllocGlobal>(
    rt: &R,
    path: &str,
) -> Result<System, Ending> {
    let mut text = fs::open(rt, path).map_err(|_| Ending::NoText)?;
    read_plant(rt.alloc(), &mut text).map_err(Ending::Plant)
}

/// The durable plant on the image at the path, where the last acknowledged move left it. Where no file is there, one is made, in the plant's first state.
pub(crate) fn booted<'a, 's, R: Files<File = File> + AllocGlobal>(
    rt: &'a R,
    system: &'s System,
    path: &'a str,
) -> Result<Plant<'s, FileDisk<ImageFile<'a, R>>>, Ending> {
    let opened = match ImageFile::open(rt, path) {
        Err(FileFault::NotThere) => {
            make_image(rt, system, path)?;
            ImageFile::open(rt, path)
        }
        opened => opened,
    };
    let disk = opened.map_err(Ending::File)?;
    boot(rt.alloc(), disk, system).map_err(|refused| Ending::Boot(refused.fault))
}

/// Makes an image at the path, where nothing is. A stop leaves the whole of it there, or nothing.
fn make_image<R: Files<File = File> + AllocGlobal>(
    rt: &R,
    system: &System,
    path: &str,
) -> Result<(), Ending> {
    system.keeps_its_rules();
    let bytes = CELL * device_cells(system.atoms().len() as u16, RING);
    let new = NewFile::create(rt, path, bytes).map_err(Ending::File)?;
    if let Err(ending) = format_new(rt, system, &new) {
        new.give_up();
        return Err(ending);
    }
    new.take_name().map_err(Ending::File)
}

/// Formats a new file.
fn format_new<R: Files<File = File> + AllocGlobal>(
    rt: &R,
    system: &System,
    new: &NewFile<'_, R>,
) -> Result<(), Ending> {
    let disk = new.device().map_err(Ending::File)?;
    match format(rt.alloc(), disk, system, RING) {
        Ok(_image) => Ok(()),
        Err(refused) => Err(Ending::Format(refused.fault)),
    }
}
