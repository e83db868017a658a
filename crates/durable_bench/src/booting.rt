//! A boot of the image in a file, and a read of the file.
use crate::command::Crew;
use file_disk::ImageFile;
use parallel_replay::Quiet;
use plant_core::Front;
use plant_model::System;
use recovery::boot_par;
use std::fs::File;
use std::os::unix::fs::FileExt;
use std::rt::{Clock, Files};
use std::thread::Threads;
use std::time::{Duration, Instant};
use std::{fs, vec};

/// How long a boot took, and where the plant was after it.
#[derive(Clone, Copy)]
pub(crate) struct Boot {
    pub(crate) time: Duration,
    pub(crate) front: Front,
}

impl Boot {
    /// How many records the boot replayed.
    pub(crate) fn records(&self) -> u64 {
        self.front
            .acked
            .saturating_add(1)
            .saturating_sub(self.front.base)
    }
}

/// Boots the image at the path by so many workers, if nothing failed. The time begins before the file is opened. A settled image is as it was.
pub(crate) fn time_boot<R: Clock + Files<File = File> + Threads + Sync + AllocGlobal>(
    rt: &R,
    system: &System,
    image: &str,
    crew: Crew,
) -> Option<Boot> {
    let start = Instant::now(rt).ok()?;
    let Ok(disk) = ImageFile::open(rt, image) else {
        return None;
    };
    let Ok(plant) = boot_par(rt, rt.alloc(), disk, system, crew.threads, &Quiet) else {
        return None;
    };
    let time = start.elapsed(rt).ok()?;
    Some(Boot {
        time,
        front: plant.front(),
    })
}

/// Opens the file at the path, reads it into memory in one go, and says how long that took, if nothing failed.
pub(crate) fn time_read<R: Clock + Files<File = File> + AllocGlobal>(
    rt: &R,
    path: &str,
) -> Option<Duration> {
    let start = Instant::now(rt).ok()?;
    let file = fs::open(rt, path).ok()?;
    let bytes = file.metadata().ok()?.len();
    let mut room = vec![in rt.alloc(); 0; bytes as usize].ok()?;
    file.read_exact_at(&mut room, 0).ok()?;
    start.elapsed(rt).ok()
}
