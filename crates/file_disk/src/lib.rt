//! A device over a file: the file in which a durable plant keeps its image.
//!
//! A `FileDisk` has the size that its file had when it was opened, and counts its failures and syncs exactly; it promises
//! nothing of the disk model, which speaks of a disk and not of a file. While it is open no other program drives the file, which a lock keeps. A `FileView`
//! is open for reading alone: several of one file may be open at once, and none while a `FileDisk` is.
//!
//! A `FileDisk` holds all bytes of its file in memory, which it takes when it is opened; no later call takes any. It asks its file for little:
//!
//! - The first call that needs its bytes reads the whole file. From then on memory answers each read, and takes each write.
//! - A sync asks the system whether the path still names this very file, with its size. Else it fails, and writes nothing.
//! - Then it writes each block of 512 bytes that the disk may not have: in the first sync all of them, and later those that were written since the
//!   last successful one. Two such blocks with none or one between them go out by one write, with the one between. Last it syncs the file's data.
//!
//! So a boot reads the file once and writes it once. A flush makes two syncs and at most four writes, however many records it has: their cells are beside each other,
//! but where the ring begins again. The bodies go out before the first sync, and before the second the gates, each with the first block of its cell.
//!
//! A file with more bytes than the largest image is no image. None of it is held: each read is one of the file, and each write fails.
//!
//! What the file is supposed to do, and no proof shows:
//!
//! - A sync that succeeds has put everything written before it onto the disk. A sync that fails may forget what it did not
//!   write: the system then takes that for written. So after a failed sync, all that was written since the last successful one
//!   is written again before the next. A program that opens the file later can't know of a failed sync, and may read what is not on the
//!   disk: so its first sync writes all of the file anew. Of a `FileView`, which writes nothing, it is supposed that what it reads is on the disk.
//! - A write changes no byte outside its range. Inside its range it changes no byte that has on the disk the value which is written there.
//!   Both hold even if the write fails or a stop cuts it. Each other byte inside its range may then be left as anything.
//! - No one who does not ask for the lock writes to the file or changes its size.
//!
//! So blocks may be written whole, though not each of their bytes is pending. One that is not has on the disk the value that memory holds, and by the
//! second of these it keeps that value. This asks no more of a disk than a write of one byte does: systems keep a file in pages of 4,096 bytes, and put
//! each page with a changed byte onto the disk whole. A block between two that were written shares a page with one of them. So no page goes out that
//! would not go out anyway.
//!
//! - `disk`: [`FileDisk`], a device over an open file. `view`: [`FileView`], one that is only read. `opening`: how a file is opened as either, and
//!   locked. `image_file`: [`ImageFile`], a file that is driven only as long as its path names it, and [`SharedFile`], one that threads share. `new_file`: [`NewFile`], how a file is made
//!   under another name, and takes its name once it is whole.
//! - `gathered`: the bytes of the file in memory. `marks`: which blocks the disk may not have, and which of them go out together. `fault`:
//!   [`FileFault`], why a file is not opened or made.
#![tactic(auto)]

mod disk;
mod fault;
mod gathered;
mod image_file;
mod marks;
mod new_file;
mod opening;
mod view;

pub use disk::FileDisk;
pub use fault::FileFault;
pub use image_file::{FileIdentity, ImageFile, SharedFile};
pub use marks::LARGEST_IMAGE;
pub use new_file::NewFile;
pub use view::FileView;
