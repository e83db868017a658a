//! Copying an image from one device to another.
//!
//! [`check_image`] looks at the device that is to be copied: whether an image stands on it, how many cells it has, and which is the last record that
//! it holds. So no copy is begun of what is no image. [`copy_image`] then copies each byte to a device of the same size, and prints what it copied.
//!
//! - **What is an image**, without its plant: the first cell holds an identity of today's layout, the device has the size that it tells, and a base
//!   stands in a base cell. What else a start would refuse is copied as it is: a copy may be wanted to look into it.
//! - **The last record** is that of the live ones, as the gates and the numbers in the ring say: the same number that a start goes on from, where it
//!   refuses nothing.
//! - **A stop inside** leaves a copy that reads as never formatted, or the whole one: the gate of the first cell is written last, once all else is
//!   synced.
//!
//! The image is only read. No call takes memory.
//!
//! - `checking`: the check. `front`: [`ImageFront`], what it finds. `records`: the live records. `reading`: the body of one cell.
//! - `copying`: the copy, and its line. `fault`: [`BackupFault`], why an image is not copied.
#![tactic(auto)]

mod checking;
mod copying;
mod fault;
mod front;
mod reading;
mod records;

pub use checking::check_image;
pub use copying::{BackupEnding, copy_image};
pub use fault::BackupFault;
pub use front::ImageFront;
