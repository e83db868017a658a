//! A block device as data: what a read gives, and what a stop at any moment may leave of it. Above it the device is a
//! list of cells, each empty or full with a body.
//!
//! A device keeps the disk model if a stop can change only bytes that were written, or tried to be, since the last
//! successful sync. Such a byte is *pending*: a stop may leave any value of it. A device's state is plain data: its present
//! moment (the bytes, and a mark for each that is pending), the moments before it, its counts of failures and of syncs,
//! and whether it keeps the disk model. What a contract says of bytes holds only if it does. What a contract says of the
//! size and the counts holds always: so a device of which nothing is known can be a `Disk` too.
//!
//! A cell is a gate of one byte and a body. It is full if its gate is 0xA5, and empty at any other gate. A body is written
//! while its gate is closed, and the gate is opened once the body is on the disk: so a stop never leaves a torn body in a
//! full cell.
//!
//! - `disk`: the trait of a device, [`Disk`], and its fault.
//! - `cells`: [`Cells`], a device as cells. A stop inside a call leaves each cell that it empties old or empty, and each that it
//!   fills empty or new. `first_cells`: [`FirstCells`], which reads the cells of the first layout.
//! - `run`: several cells at once. `calls`: the device calls on one cell, the only ones that speak of bytes.
//! - `memory`: [`MemDisk`], a device in memory that is proved to keep the disk model. `fuse`: which of its calls fail.
//!   `change`: what it keeps of each change, and the four patterns by which a stop tears what is pending. `recorded`: its bytes,
//!   with a record of their changes. `bytes`: writes over a part of a slice. `stretch`: the part that was written since the last sync.
//! - `laws`: what the definitions say of one another.
//!
//! `specs/DiskState.antt` says what a device holds and what a stop may leave of it, `specs/Cells.antt` the same by cells. The
//! lemmas that a crate above cites, to carry what a stop leaves over several calls, stand in `specs/Moments.antt`.
#![tactic(auto)]

mod bytes;
mod calls;
mod cells;
mod change;
mod disk;
mod first_cells;
mod fuse;
pub mod laws;
mod memory;
mod recorded;
mod run;
mod stretch;

pub use cells::{BODY, CELL, CELL_LEN, Cells, FIRST_BODY, FIRST_CELL};
pub use change::{LONGEST, Tear};
pub use disk::{Disk, DiskFault};
pub use first_cells::FirstCells;
pub use memory::MemDisk;
